//! The last resort of the counterexample search: all vectors in rising order. It runs only where the clauses over all
//! vectors are within the budget, so there are few of them, and it never gives up.

ghost use Rattle.std.specs.Prelude.{◌≡◌, ◌<◌, ◌≤◌, All, length, IfOk, IfSome, IfNone, true, false};
ghost use Rattle.bb_net.specs.Equivalence.{TablesMakeEquivalent};
ghost use Rattle.bb_net.specs.Kinds.{per_box};
ghost use Rattle.bb_net.specs.Values.{FitBoxes};
ghost use Rattle.bb_subst.specs.Distinguishing.{AreEquivalentAt, FailAt};
ghost use Rattle.bb_expand.specs.ClauseCounts.{clause_total};
ghost use Rattle.bb_expand.specs.Inside.Failures.{FailsAt, HasSameBits, HasOtherBit};

use crate::laws::laws_below;
use crate::numbers::spell;
use bb_bits::{NoMemory, Table};
use bb_net::Pair;
use std::alloc::Global;

fn differ(places: &[u32], bits: &[bool], wanted_places: &[u32], wanted: &[bool]) -> bool
    requires count { length wanted_places.now ≡ length places.now }
    requires there { All (λ place. place < length bits.now) places.now }
    requires wanted_there { All (λ place. place < length wanted.now) wanted_places.now }
    ensures yes { result ≡ true → HasOtherBit places.now bits.now wanted_places.now wanted.now }
    ensures no { result ≡ false → HasSameBits places.now bits.now wanted_places.now wanted.now }
{
    for (j, place) in places.iter().enumerate() {
        if bits[*place as usize] != wanted[wanted_places[j] as usize] {
            return true;
        }
    }
    false
}

// `bits` and `wanted` are scratch for one pass, so that no vector allocates.
fn fails_at(
    pair: &Pair,
    tables: &[Table],
    x: &[bool],
    bits: &mut [bool],
    wanted: &mut [bool],
) -> bool
    requires fit { FitBoxes (per_box pair.now.kinds tables.now) pair.now.imp.boxes }
    requires inputs { length x.now ≡ pair.now.imp.inputs }
    requires room { length bits.old ≡ length pair.now.imp.cells }
    requires wanted_room { length wanted.old ≡ length pair.now.spec.cells }
    ensures yes { result ≡ true → FailAt pair.now.spec pair.now.imp (per_box pair.now.kinds tables.now) x.now }
    ensures no { result ≡ false → AreEquivalentAt pair.now.spec pair.now.imp (per_box pair.now.kinds tables.now) x.now }
    ensures room { length bits.new ≡ length pair.now.imp.cells }
    ensures wanted_room { length wanted.new ≡ length pair.now.spec.cells }
{
    let (spec, imp) = (pair.spec(), pair.imp());
    imp.value_with(x, tables, pair.kinds(), bits);
    spec.value(x, &[], wanted);
    differ(imp.outs(), bits, spec.outs(), wanted)
}

// The least vector, the first input most significant.
pub(crate) fn first_failure(
    alloc: Global,
    pair: &Pair,
    tables: &[Table],
) -> Result<Option<Vec<bool>>, NoMemory>
    requires fit { FitBoxes (per_box pair.now.kinds tables.now) pair.now.imp.boxes }
    requires few { clause_total pair.now.imp ≤ 8000000 }
    ensures found { IfOk result (λ found.
        IfSome found (λ x. FailsAt pair.now.spec pair.now.imp (per_box pair.now.kinds tables.now) x.items)) }
    ensures none { IfOk result (λ found.
        IfNone found (TablesMakeEquivalent pair.now.spec pair.now.imp (per_box pair.now.kinds tables.now))) }
{
    laws_below();
    let (spec, imp) = (pair.spec(), pair.imp());
    let mut x = vec![in alloc; false; imp.inputs() as usize]?;
    let mut bits = vec![in alloc; false; imp.cells().len()]?;
    let mut wanted = vec![in alloc; false; spec.cells().len()]?;
    for number in 0..1u32 << imp.inputs() {
        spell(number, &mut x);
        if fails_at(pair, tables, &x, &mut bits, &mut wanted) {
            return Ok(Some(x));
        }
    }
    Ok(None)
}
