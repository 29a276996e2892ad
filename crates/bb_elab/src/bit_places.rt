//! From the number of a bit to its scope and net: first numbers never fall, so both are found by bisection, and no
//! table from bits to scopes takes room.

ghost use Rattle.std.specs.Prelude.{◌≡◌, ◌≤◌, ◌<◌, ◌+◌, ◌-◌, ℕ, Some, length, slice_get};
ghost use Rattle.std.specs.List.{slice_index_or};
ghost use Rattle.bb_names.specs.declared.net.NetInfo.{NetInfo};
ghost use Rattle.bb_names.specs.Ranges.{range_width};
ghost use Rattle.bb_blast.specs.declared.placed.Placed.{Placed};
ghost use Rattle.bb_blast.specs.Inside.ModuleTemplates.{net_start};
ghost use Rattle.bb_blast.specs.Inside.BitBlasting.{bit_count};
ghost use Rattle.bb_design.specs.Hierarchy.{Design, Scope};
ghost use Rattle.bb_design.specs.NetBits.{Bit, net_order, scope_bits};
ghost use Rattle.bb_elab.specs.Inside.PlacedPaths.{IsLastBelow};
ghost use Rattle.bb_blast.specs.Inside.Placements.{IsScopeAt, ArePlaced};

use bb_blast::Placed;
use bb_names::NetInfo;

// The first number of the scope at `low` is at most `number`, and that at `high`, if there is one, is greater.
fn last_below(placed: &[Placed], number: u32) -> usize
    requires some { (p : Placed) × (slice_get placed.now 0 ≡ Some p) × (p.first ≤ number) }
    ensures last { IsLastBelow placed.now number result }
{
    let mut low = 0;
    let mut high = placed.len();
    while low + 1 < high {
        let middle = low + (high - low) / 2;
        if placed[middle].first <= number {
            low = middle;
        } else {
            high = middle;
        }
    }
    low
}

pub(crate) fn scope_of_bit(placed: &[Placed], number: u32) -> usize
    requires design { (d : Design) × ArePlaced d placed.now × (number < length (net_order d)) }
    ensures there { result < length placed.now }
    ensures bit { (d : Design) → ArePlaced d placed.now → (s : Scope) → IsScopeAt d result s → (p : Placed)
        → slice_get placed.now result ≡ Some p → (b : Bit) → slice_get (net_order d) number ≡ Some b
        → (p.first ≤ number) × (slice_get (scope_bits s) (number - p.first) ≡ Some b) }
{
    last_below(placed, number)
}

// The same invariant as above: of several nets that begin at one number the last is found.
fn last_start(starts: &[u32], count: usize, number: u32) -> usize
    requires some { 1 ≤ count }
    requires long { count ≤ length starts.now }
    requires first { slice_index_or starts.now 0 0 ≤ number }
    ensures there { result < count }
    ensures here { slice_index_or starts.now result 0 ≤ number }
    ensures next { result + 1 < count → number < slice_index_or starts.now (result + 1) 0 }
{
    let mut low = 0;
    let mut high = count;
    while low + 1 < high {
        let middle = low + (high - low) / 2;
        if starts[middle] <= number {
            low = middle;
        } else {
            high = middle;
        }
    }
    low
}

/// `number` counts from the first bit of the scope.
pub(crate) fn net_of_bit(nets: &[NetInfo], starts: &[u32], number: u32) -> usize
    requires starts { (k : ℕ) → k < length nets.now → slice_get starts.now k ≡ Some (net_start nets.now k) }
    requires there { number < bit_count nets.now }
    ensures there { result < length nets.now }
    ensures bit { (net : NetInfo) → slice_get nets.now result ≡ Some net
        → (net_start nets.now result ≤ number) × (number < net_start nets.now result + range_width net.range) }
{
    last_start(starts, nets.len(), number)
}
