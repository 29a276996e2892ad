//! Checks the component numbers before they are used: along a step of dependence they must never rise.
//!
//! A loop then has one number all around, so a cell whose operands all have smaller numbers is on none. The check is
//! linear, and it is all that is proved about the numbers.

ghost use Rattle.std.specs.Prelude.{◌≡◌, ◌+◌, ◌<◌, ◌≤◌, ℕ, [], true, All, Contains, length, slice_index};
ghost use Rattle.bb_net.specs.Netlists.{box_at};
ghost use Rattle.bb_net.specs.Loose.{IsLoose, loose_at, operand_places};
ghost use Rattle.bb_net.specs.Inside.Walks.{BoxesRise, CellsRise};

use crate::ordering::components::{Ranks, rank_at};
use crate::{Loose, LooseCell};

// One more than the greatest rank, or 0 of no places; 64 bits, so that it cannot overflow.
fn above(ranks: &[u32], places: &[u32]) -> u64
    ensures above { (a : ℕ) → Contains places.now a → slice_index ranks.now a < result }
{
    let mut above = 0;
    for a in places {
        above = above.max(u64::from(rank_at(ranks, *a)) + 1);
    }
    above
}

fn above_gate(cell: LooseCell, ranks: &[u32]) -> u64
    ensures above { (a : ℕ) → Contains (operand_places [] cell) a → slice_index ranks.now a < result }
{
    let (places, count) = cell.operands();
    above(ranks, &places[..count])
}

pub(crate) fn above_operands(loose: &Loose, ranks: &Ranks, place: u32) -> u64
    requires list { IsLoose loose.now }
    requires there { place < length loose.now.cells }
    requires rise { BoxesRise loose.now ranks.now.cells.items ranks.now.boxes.items }
    ensures above { (a : ℕ) → Contains (operand_places loose.now.boxes (loose_at loose.now place)) a
        → slice_index ranks.now.cells.items a < result }
{
    match loose.cell(place) {
        LooseCell::BoxOut(b, _) => u64::from(rank_at(&ranks.boxes, b)) + 1,
        cell => above_gate(cell, &ranks.cells),
    }
}

pub(crate) fn boxes_rise(loose: &Loose, ranks: &Ranks) -> bool
    requires list { IsLoose loose.now }
    ensures rise { result ≡ true → BoxesRise loose.now ranks.now.cells.items ranks.now.boxes.items }
{
    for b in 0..loose.box_count() as u32 {
        if above(&ranks.cells, loose.pins(b).ins()) > u64::from(rank_at(&ranks.boxes, b)) + 1 {
            return false;
        }
    }
    true
}

pub(crate) fn cells_rise(loose: &Loose, ranks: &Ranks) -> bool
    requires list { IsLoose loose.now }
    requires rise { BoxesRise loose.now ranks.now.cells.items ranks.now.boxes.items }
    ensures rise { result ≡ true → CellsRise loose.now ranks.now.cells.items }
{
    for k in 0..loose.cell_count() as u32 {
        if above_operands(loose, ranks, k) > u64::from(rank_at(&ranks.cells, k)) + 1 {
            return false;
        }
    }
    true
}
