//! The miter as clauses: both netlists over shared inputs, an xor for each output, and one clause that some xor is 1.
//! Variables in order: inputs, cells of the implementation, cells of the specification, outputs.

ghost use Rattle.std.specs.Prelude.{◌≡◌, ◌+◌, ◌^◌, ◌<◌, ◌≤◌, ◌++◌, length, IfOk, OnOk};
ghost use Rattle.bb_cnf.specs.Clauses.{lists_of};
ghost use Rattle.bb_net.specs.Netlists.{IsNetlist};
ghost use Rattle.bb_miter.specs.Inside.Equivalence.{AreComparable};
ghost use Rattle.bb_expand.specs.Inside.FreeClauses.{difference_clauses, some_difference, free_clauses};

use crate::clauses::{push_xor, yes};
use crate::free_cells::push_free_cells;
use crate::free_counting::free_count;
use crate::free_laws::models_are_differences;
use bb_bits::NoMemory;
use bb_cnf::{Cnf, Lit};
use bb_net::Net;
use smallvec::SmallVec;
use std::alloc::Global;

// `wanted` variables come before the specification's cells and `base` before the outputs.
fn push_differences(
    clauses: &mut Vec<SmallVec<Lit, 4>>,
    wanted: u32,
    base: u32,
    spec: &Net,
    imp: &Net,
) -> Result<(), NoMemory>
    requires comparable { AreComparable spec.now imp.now }
    requires fits { base + length imp.now.outs < 2 ^ 32 }
    requires wanted { wanted ≡ imp.now.inputs + length imp.now.cells }
    requires base { base ≡ imp.now.inputs + length imp.now.cells + length spec.now.cells }
    ensures { OnOk result (lists_of clauses.new.items
        ≡ lists_of clauses.old.items ++ difference_clauses spec.now imp.now) }
{
    let inputs = imp.inputs();
    let spec_outs = spec.outs();
    for (j, out) in imp.outs().iter().enumerate() {
        let (own, other) = (inputs + *out + 1, wanted + spec_outs[j] + 1);
        push_xor(clauses, base + j as u32 + 1, own, other)?;
    }
    Ok(())
}

fn some_differs(
    alloc: Global,
    base: u32,
    spec: &Net,
    imp: &Net,
) -> Result<SmallVec<Lit, 4>, NoMemory>
    requires fits { base + length imp.now.outs < 2 ^ 32 }
    requires base { base ≡ imp.now.inputs + length imp.now.cells + length spec.now.cells }
    ensures { IfOk result (λ clause. clause.items ≡ some_difference spec.now imp.now) }
{
    let outs = imp.outs().len();
    let mut clause = SmallVec::with_capacity(alloc, outs)?;
    for j in 0..outs {
        clause.push(yes(base + j as u32 + 1))?;
    }
    Ok(clause)
}

/// A model's first bits are the vector, since inputs have the first variables.
pub(crate) fn free_clauses(alloc: Global, spec: &Net, imp: &Net) -> Result<Cnf, NoMemory>
    requires comparable { AreComparable spec.now imp.now }
    requires few { length (free_clauses spec.now imp.now).clauses ≤ 8000000 }
    ensures cnf { IfOk result (λ cnf. cnf ≡ free_clauses spec.now imp.now) }
    ensures spec { IsNetlist spec.now }
    ensures imp { IsNetlist imp.now }
{
    models_are_differences();
    let inputs = imp.inputs();
    let own = imp.cells().len() as u32;
    let other = spec.cells().len() as u32;
    let wanted = inputs + own;
    let base = wanted + other;
    let vars = base + imp.outs().len() as u32;
    let mut clauses = Vec::with_capacity(alloc, free_count(spec, imp) as usize)?;
    push_free_cells(&mut clauses, inputs, imp)?;
    push_free_cells(&mut clauses, wanted, spec)?;
    push_differences(&mut clauses, wanted, base, spec, imp)?;
    clauses.push(some_differs(alloc, base, spec, imp)?)?;
    Ok(Cnf { vars, clauses })
}
