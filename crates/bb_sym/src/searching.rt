//! The first diagram that is 1 somewhere. Asking each for its least point needs no test before: a diagram that is
//! nowhere 1 is the leaf 0, where the walk ends at once.

ghost use Rattle.std.specs.Prelude.{◌≡◌, ◌<◌, ℕ, true, List, Bool, length, IfSome, IfNone};
ghost use Rattle.bb_bits.specs.Truth.{truth_at};
ghost use Rattle.bb_uniq.specs.Inside.Nodes.{IsRef};
ghost use Rattle.bb_uniq.specs.Inside.Meaning.{truth_of};
ghost use Rattle.bb_quant.specs.Inside.LeastPoints.{IsLeastPoint};
ghost use Rattle.bb_sym.specs.Inside.Made.{ref_at, IsNowhereTrue};

use bb_dd::{Diagrams, Ref};
use bb_quant::least;

/// `point` is written only where a diagram is found.
pub(crate) fn first_true(d: &Diagrams, fs: &[Ref], point: &mut [bool]) -> Option<usize>
    requires fs { (j : ℕ) → j < length fs.now → IsRef d.now.store (ref_at fs.now j).0 }
    requires point { length point.old ≡ d.now.store.vars }
    ensures found { IfSome result (λ j.
        (j < length fs.now) × IsLeastPoint (truth_of d.now.store (ref_at fs.now j).0) true 0 point.old point.new) }
    ensures earlier { IfSome result (λ j.
        (i : ℕ) → i < j → IsNowhereTrue d.now.store.vars (truth_of d.now.store (ref_at fs.now i).0)) }
    ensures none { IfNone result ((i : ℕ) → i < length fs.now
        → IsNowhereTrue d.now.store.vars (truth_of d.now.store (ref_at fs.now i).0)) }
{
    for (j, f) in fs.iter().enumerate() {
        if least(d, *f, true, 0, point) {
            return Some(j);
        }
    }
    None
}
