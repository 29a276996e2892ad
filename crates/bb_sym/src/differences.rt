//! The outputs that differ, and their disjunction. The disjunction is folded from the first output on, since each
//! partial result is a function of the check and counts as beads: another order could count differently.

ghost use Rattle.std.specs.Prelude.{◌≡◌, ◌<◌, ℕ, All, length, map, IfOk, OnOk, IsErrOf};
ghost use Rattle.bb_uniq.specs.Inside.Nodes.{IsRef};
ghost use Rattle.bb_uniq.specs.Inside.Meaning.{Adds, Keeps, IsTooMany};
ghost use Rattle.bb_sym.specs.Plain.{Function, Reading, is_wrong_at, one_of, table};
ghost use Rattle.bb_sym.specs.Functions.{inputs_first, is_wrong};
ghost use Rattle.bb_sym.specs.Inside.Made.{Makes, AreTooMany, AreRefs, Represents, RepresentAll, RepresentFunctions};
ghost use Rattle.bb_sym.specs.Inside.Made.{AreCells, HaveCells};
ghost use Rattle.bb_sym.specs.Inside.Made.{differ_each, first_tables, some_tables, ref_at};

use crate::RungFault;
use crate::cells::PlainCells;
use crate::folds::fold_or;
use bb_bits::NoMemory;
use bb_dd::{DdFault, Diagrams, Ref};
use bb_net::{Net, Pair};
use std::alloc::Global;

/// Also makes the difference of each output, in order; the result is 1 where some output is wrong.
///
/// # Errors
///
/// `Nodes` exactly where the beads held and those of these functions are more than the limit.
pub fn some_wrong(
    alloc: Global,
    d: &mut Diagrams,
    spec: &Net,
    imp: &Net,
    made: &PlainCells,
) -> Result<Ref, RungFault>
    requires outputs { length spec.now.outs ≡ length imp.now.outs }
    requires made { AreCells d.old.store spec.now imp.now made.now.spec.items made.now.imp.items }
    ensures kept { Keeps d.old.store d.new.store }
    ensures result { (r : Reading) → HaveCells d.old.store r spec.now imp.now made.now.spec.items made.now.imp.items
        → IfOk result (Represents d.new.store (table d.old.store.vars (one_of (is_wrong_at r spec.now imp.now)
        (length imp.now.outs)))) }
    ensures makes { (r : Reading) → HaveCells d.old.store r spec.now imp.now made.now.spec.items made.now.imp.items
        → OnOk result (Makes d.old.store d.new.store (some_tables d.old.store.vars (is_wrong_at r spec.now imp.now)
        (length imp.now.outs))) }
    ensures nodes { (r : Reading) → HaveCells d.old.store r spec.now imp.now made.now.spec.items made.now.imp.items
        → IsErrOf result RungFault.Nodes
        → AreTooMany d.old.store (some_tables d.old.store.vars (is_wrong_at r spec.now imp.now)
        (length imp.now.outs)) }
{
    let wanted = picked(alloc, &made.spec, spec.outs())?;
    let given = picked(alloc, &made.imp, imp.outs())?;
    let any = some_differ(alloc, d, &wanted, &given)?;
    Ok(any)
}

/// As `some_wrong`, for two lists of diagrams of the same length.
///
/// # Errors
///
/// `Nodes` exactly where the beads held and those of these functions are more than the limit.
pub fn some_differ(
    alloc: Global,
    d: &mut Diagrams,
    fs: &[Ref],
    gs: &[Ref],
) -> Result<Ref, RungFault>
    requires fs { AreRefs d.old.store fs.now }
    requires gs { AreRefs d.old.store gs.now }
    requires count { length fs.now ≡ length gs.now }
    ensures kept { Keeps d.old.store d.new.store }
    ensures result { (f g : ℕ → Function) → RepresentFunctions d.old.store f fs.now
        → RepresentFunctions d.old.store g gs.now
        → IfOk result (Represents d.new.store (table d.old.store.vars (one_of (differ_each f g) (length fs.now)))) }
    ensures makes { (f g : ℕ → Function) → RepresentFunctions d.old.store f fs.now
        → RepresentFunctions d.old.store g gs.now
        → OnOk result (Makes d.old.store d.new.store
        (some_tables d.old.store.vars (differ_each f g) (length fs.now))) }
    ensures nodes { (f g : ℕ → Function) → RepresentFunctions d.old.store f fs.now
        → RepresentFunctions d.old.store g gs.now → IsErrOf result RungFault.Nodes
        → AreTooMany d.old.store (some_tables d.old.store.vars (differ_each f g) (length fs.now)) }
{
    let different = differences(alloc, d, fs, gs)?;
    let any = fold_or(d, &different)?;
    Ok(any)
}

fn differences(
    alloc: Global,
    d: &mut Diagrams,
    fs: &[Ref],
    gs: &[Ref],
) -> Result<Vec<Ref>, RungFault>
    requires fs { AreRefs d.old.store fs.now }
    requires gs { AreRefs d.old.store gs.now }
    requires count { length fs.now ≡ length gs.now }
    ensures kept { Keeps d.old.store d.new.store }
    ensures count { IfOk result (λ refs. length refs.items ≡ length fs.now) }
    ensures refs { IfOk result (λ refs. AreRefs d.new.store refs.items) }
    ensures occur { (f g : ℕ → Function) → RepresentFunctions d.old.store f fs.now
        → RepresentFunctions d.old.store g gs.now
        → IfOk result
        (λ refs. RepresentAll d.new.store (λ j. table d.old.store.vars (differ_each f g j)) refs.items) }
    ensures makes { (f g : ℕ → Function) → RepresentFunctions d.old.store f fs.now
        → RepresentFunctions d.old.store g gs.now
        → OnOk result (Makes d.old.store d.new.store (first_tables d.old.store.vars (differ_each f g)
        (length fs.now))) }
    ensures nodes { (f g : ℕ → Function) → RepresentFunctions d.old.store f fs.now
        → RepresentFunctions d.old.store g gs.now → IsErrOf result RungFault.Nodes
        → AreTooMany d.old.store (first_tables d.old.store.vars (differ_each f g) (length fs.now)) }
{
    let mut refs = Vec::with_capacity(alloc, fs.len())?;
    for j in 0..fs.len() {
        let r = d.xor(fs[j], gs[j])?;
        refs.push(r)?;
    }
    Ok(refs)
}

/// In the order of `places`.
pub fn picked(alloc: Global, refs: &[Ref], places: &[u32]) -> Result<Vec<Ref>, NoMemory>
    requires { All (λ place. place < length refs.now) places.now }
    ensures { IfOk result (λ picked. picked.items ≡ map (ref_at refs.now) places.now) }
{
    let mut picked = Vec::with_capacity(alloc, places.len())?;
    for place in places {
        picked.push(refs[*place as usize])?;
    }
    Ok(picked)
}

pub(crate) fn wrong_output(
    d: &mut Diagrams,
    pair: &Pair,
    made: &PlainCells,
    j: usize,
) -> Result<Ref, DdFault>
    requires made { HaveCells d.old.store (inputs_first pair.now.imp) pair.now.spec pair.now.imp made.now.spec.items
        made.now.imp.items }
    requires j { j < length pair.now.imp.outs }
    ensures ok { IfOk result (λ r.
        Adds d.old.store d.new.store (table d.old.store.vars (is_wrong pair.now.spec pair.now.imp j)) r.0) }
    ensures full { IsErrOf result DdFault.Full
        → IsTooMany d.old.store (table d.old.store.vars (is_wrong pair.now.spec pair.now.imp j)) }
{
    let wanted = pair.spec().outs()[j] as usize;
    let given = pair.imp().outs()[j] as usize;
    d.xor(made.spec[wanted], made.imp[given])
}
