//! The inputs of the top from which clocks come: a clock comes from an input where the buffers from its bit lead to the
//! input's place. Gates between them make a derived clock, which pairing refuses.

ghost use Rattle.std.specs.Prelude.{◌≡◌, ◌+◌, ◌<◌, ◌^◌, ℕ, Some, slice_get, length, IfSome, IfNone};
ghost use Rattle.bb_net.specs.Orders.{IsCopySource};
ghost use Rattle.bb_elab.specs.Inside.CopyEnds.{AreEnds};
ghost use Rattle.bb_design.specs.Hierarchy.{Design};
ghost use Rattle.bb_design.specs.Inside.Allowed.{IsBounded};
ghost use Rattle.bb_design.specs.NetBits.{Bit, net_order, top_inputs};
ghost use Rattle.bb_implements.specs.Places.{Lowering, IsLowering, IsListOf};
ghost use Rattle.bb_design.specs.Refusals.{AreDrivenOnce};
ghost use Rattle.bb_design.specs.Registers.{cut_bits};
ghost use Rattle.bb_implements.specs.Implements.{IsClockInput};

use crate::copy_ends::end_of;
use bb_implements::list_laws::{laws_of_cells, lists_are_loose};
use bb_net::Loose;

// Inputs come after the two constants. At or above the limit are the states of registers, which are no clocks.
fn input_at(place: u32, limit: u32) -> Option<u32>
    ensures some { IfSome result (λ k. (k < limit) × (k + 2 ≡ place)) }
    ensures none { IfNone result ((k : ℕ) → k < limit → k + 2 ≡ place → ⊥) }
{
    if place < 2 || place - 2 >= limit {
        return None;
    }
    Some(place - 2)
}

/// `clock` is a number in net order, `first` the place of the first bit of a net, and the inputs of the top are those
/// below `limit`. Where buffers end is noted in `ends` for the next clock.
pub(crate) fn clock_input(
    list: &Loose,
    ends: &mut [Option<u32>],
    first: u32,
    clock: u32,
    limit: u32,
) -> Option<u32>
    requires fits { first + clock < 2 ^ 32 }
    requires ends { AreEnds list.now ends.old }
    ensures ends { AreEnds list.now ends.new }
    ensures clock { (d : Design) (lowering : Lowering) (b : Bit) (n source : ℕ) → IsBounded d → AreDrivenOnce d
        → IsLowering d lowering → IsListOf d lowering list.now → slice_get (net_order d) clock ≡ Some b
        → first ≡ 2 + length (cut_bits d) → limit ≡ length (top_inputs d)
        → IsCopySource n list.now (first + clock) source → IsClockInput d b result }
{
    laws_of_cells();
    lists_are_loose();
    input_at(end_of(list, ends, first + clock), limit)
}
