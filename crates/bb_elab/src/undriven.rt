//! Bits that are read and have no driver. A bit that nothing reads needs none.

ghost use Rattle.std.specs.Prelude.{◌≡◌, ℕ, length, IfSome, IfNone};
ghost use Rattle.bb_elab.specs.Inside.DrivenNumbers.{IsFirstAt, AreCounts, AreReads};
ghost use Rattle.bb_design.specs.Hierarchy.{Design};
ghost use Rattle.bb_design.specs.Inside.Allowed.{IsBounded};
ghost use Rattle.bb_design.specs.Refusals.{IsUndriven, AreDriven};

use bb_design::laws::laws_of_designs;

/// The first in net order, if there is one.
pub(crate) fn first_undriven(counts: &[u8], read: &[bool]) -> Option<usize>
    requires same { length read.now ≡ length counts.now }
    ensures some { IfSome result (λ k.
        (d : Design) → IsBounded d → AreCounts d counts.now → AreReads d read.now → IsFirstAt d (IsUndriven d) k) }
    ensures none { IfNone result ((d : Design) → IsBounded d → AreCounts d counts.now → AreReads d read.now
        → AreDriven d) }
{
    laws_of_designs();
    for k in 0..counts.len() {
        if read[k] && counts[k] == 0 {
            return Some(k);
        }
    }
    None
}
