//! A block of adjacent variables quantified, the last one first. So each step leaves "for all values" (or "for some")
//! of a shorter block, about which `bb_bits` has laws, and the beads of each step count as those of the check.
//! Variables that the diagram does not have are passed over: otherwise each would cost a walk through it that changes
//! nothing.

ghost use Rattle.std.specs.Prelude.{◌≡◌, ◌+◌, ◌<◌, ◌≤◌, false, IfOk, OnOk, IsErrOf};
ghost use Rattle.bb_bits.specs.Truth.{quantified, quantified_block};
ghost use Rattle.bb_dd.specs.Inside.Results.{quantifier};
ghost use Rattle.bb_uniq.specs.Inside.Nodes.{IsRef};
ghost use Rattle.bb_uniq.specs.Inside.Meaning.{truth_of, Adds, Keeps, IsTooMany};
ghost use Rattle.bb_sym.specs.Inside.Dependence.{IsIndependent};
ghost use Rattle.bb_sym.specs.Plain.{block_functions};
ghost use Rattle.bb_sym.specs.Inside.Made.{Makes, AreTooMany, Represents};

use crate::RungFault;
use crate::variables::variables_of;
use bb_bits::truth;
use bb_dd::{DdFault, Diagrams, Ref};
use bb_quant::{exists, forall};
use bb_uniq::laws;
use std::alloc::Global;

/// The diagram of `f` with `count` variables from `first` on quantified, by "for all" or, where `all` is false, by "for
/// some". The result of each step stays in the store and counts. One walk finds the variables for the whole block,
/// since quantifying adds none.
///
/// # Errors
///
/// `Nodes` exactly where the beads held and those of these functions are more than the limit; `NoMemory`.
pub fn quantify_block(
    alloc: Global,
    d: &mut Diagrams,
    all: bool,
    f: Ref,
    first: u32,
    count: u32,
) -> Result<Ref, RungFault>
    requires f { IsRef d.old.store f.0 }
    requires vars { first + count ≤ d.old.store.vars }
    requires few { d.old.store.vars ≤ 2048 }
    ensures kept { Keeps d.old.store d.new.store }
    ensures result { IfOk result (Represents d.new.store (quantified_block (quantifier all) first count
        (truth_of d.old.store f.0))) }
    ensures makes { OnOk result (Makes d.old.store d.new.store (block_functions (quantifier all) first count
        (truth_of d.old.store f.0))) }
    ensures nodes { IsErrOf result RungFault.Nodes
        → AreTooMany d.old.store (block_functions (quantifier all) first count (truth_of d.old.store f.0)) }
{
    truth::tables();
    truth::quantifiers();
    laws::stores();
    laws::growth();
    let marked = variables_of(alloc, d, f, first + count)?;
    let mut r = f;
    let mut left = count;
    while left > 0 {
        left -= 1;
        let v = first + left;
        r = quantify_one(d, all, r, v, marked[v as usize])?;
    }
    Ok(r)
}

fn quantify_one(d: &mut Diagrams, all: bool, f: Ref, v: u32, depends: bool) -> Result<Ref, DdFault>
    requires f { IsRef d.old.store f.0 }
    requires v { v < d.old.store.vars }
    requires free { depends ≡ false → IsIndependent d.old.store.vars (truth_of d.old.store f.0) v }
    ensures kept { Keeps d.old.store d.new.store }
    ensures ok { IfOk result (λ r.
        Adds d.old.store d.new.store (quantified (quantifier all) v (truth_of d.old.store f.0)) r.0) }
    ensures full { IsErrOf result DdFault.Full
        → IsTooMany d.old.store (quantified (quantifier all) v (truth_of d.old.store f.0)) }
{
    if !depends {
        truth::tables();
        truth::quantifiers();
        laws::stores();
        laws::growth();
        d.is_canonical();
        return Ok(f);
    }
    if all {
        forall(d, f, v)
    } else {
        exists(d, f, v)
    }
}
