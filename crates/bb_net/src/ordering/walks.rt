//! The least place on a combinational loop.
//!
//! A reachability search decides whether a loop leads through one place, and is proved. A search at every place would
//! be quadratic, so strong components choose where to search. Their numbers are checked and not proved: they cost no
//! proof and cannot change the answer.

ghost use Rattle.std.specs.Prelude.{◌≡◌, ◌+◌, ◌<◌, true, false, ℕ, [], ◌∷◌, All, length, replicate, Option, None, IfOk};
ghost use Rattle.std.specs.Prelude.{IfSome, IfNone, OnOk};
ghost use Rattle.std.specs.Bool.{Decides};
ghost use Rattle.std.specs.List.{slice_index_or};
ghost use Rattle.bb_net.specs.Netlists.{box_at};
ghost use Rattle.bb_net.specs.Loose.{loose_at, operand_places, IsLoose, PlaceDependsOn, IsOnClosedWalk};
ghost use Rattle.bb_net.specs.Loose.{IsLeastOnClosedWalk};
ghost use Rattle.bb_net.specs.Values.{bit_of};
ghost use Rattle.bb_net.specs.Inside.Walks.{IsMarked, IsSearched, AreDone, BoxesRise, CellsRise};

use crate::ordering::components::{Ranks, components, rank_at};
use crate::ordering::ranks::{above_operands, boxes_rise, cells_rise};
use crate::{Loose, LooseCell};
use bb_bits::NoMemory;

fn mark(place: u32, seen: &mut [bool], stack: &mut Vec<u32>) -> Result<(), NoMemory>
    requires there { place < length seen.old }
    ensures ok { OnOk result (IsMarked (place ∷ []) seen.old stack.old.items seen.new stack.new.items) }
{
    if !seen[place as usize] {
        seen[place as usize] = true;
        stack.push(place)?;
    }
    Ok(())
}

fn mark_all(places: &[u32], seen: &mut [bool], stack: &mut Vec<u32>) -> Result<(), NoMemory>
    requires there { All (λ k. k < length seen.old) places.now }
    ensures ok { OnOk result (IsMarked places.now seen.old stack.old.items seen.new stack.new.items) }
{
    for place in places {
        mark(*place, seen, stack)?;
    }
    Ok(())
}

fn mark_gate(cell: LooseCell, seen: &mut [bool], stack: &mut Vec<u32>) -> Result<(), NoMemory>
    requires there { All (λ k. k < length seen.old) (operand_places [] cell) }
    ensures ok { OnOk result (IsMarked (operand_places [] cell) seen.old stack.old.items seen.new stack.new.items) }
{
    let (places, count) = cell.operands();
    mark_all(&places[..count], seen, stack)
}

// Each output pin of a box reads all its input pins, so these are marked once a box: `done` keeps the search linear.
fn mark_pins(
    loose: &Loose,
    b: u32,
    done: &mut Vec<bool>,
    seen: &mut [bool],
    stack: &mut Vec<u32>,
) -> Result<(), NoMemory>
    requires list { IsLoose loose.now }
    requires there { b < length loose.now.boxes }
    requires whole { length seen.old ≡ length loose.now.cells }
    requires done { AreDone loose.now seen.old done.old.items }
    ensures ok { OnOk result (IsMarked (box_at loose.now.boxes b).ins seen.old stack.old.items seen.new
        stack.new.items) }
    ensures done { OnOk result (AreDone loose.now seen.new done.new.items) }
{
    if done[b as usize] {
        return Ok(());
    }
    mark_all(loose.pins(b).ins(), seen, stack)?;
    done[b as usize] = true;
    Ok(())
}

fn mark_operands(
    loose: &Loose,
    place: u32,
    done: &mut Vec<bool>,
    seen: &mut [bool],
    stack: &mut Vec<u32>,
) -> Result<(), NoMemory>
    requires list { IsLoose loose.now }
    requires there { place < length loose.now.cells }
    requires whole { length seen.old ≡ length loose.now.cells }
    requires done { AreDone loose.now seen.old done.old.items }
    ensures ok { OnOk result (IsMarked (operand_places loose.now.boxes (loose_at loose.now place)) seen.old
        stack.old.items seen.new stack.new.items) }
    ensures done { OnOk result (AreDone loose.now seen.new done.new.items) }
{
    match loose.cell(place) {
        LooseCell::BoxOut(b, _) => mark_pins(loose, b, done, seen, stack),
        cell => mark_gate(cell, seen, stack),
    }
}

// The start itself is not marked at first: it is reached only where a walk leads back to it.
fn mark_reached(loose: &Loose, start: u32, seen: &mut [bool]) -> Result<(), NoMemory>
    requires list { IsLoose loose.now }
    requires there { start < length loose.now.cells }
    requires none { seen.old ≡ replicate (length loose.now.cells) false }
    ensures ok { OnOk result (IsSearched loose.now start seen.new []) }
{
    let alloc = loose.allocator();
    let mut done = vec![in alloc; false; loose.box_count()]?;
    let mut stack = Vec::new(alloc);
    mark_operands(loose, start, &mut done, seen, &mut stack)?;
    while let Some(place) = stack.pop() {
        mark_operands(loose, place, &mut done, seen, &mut stack)?;
    }
    Ok(())
}

/// Entry `p` says whether `start` depends on `p` in one step or more, so that of `start` says whether it is on a loop.
pub fn dependences(loose: &Loose, start: u32) -> Result<Vec<bool>, NoMemory>
    requires list { IsLoose loose.now }
    requires there { start < length loose.now.cells }
    ensures whole { IfOk result (λ seen. length seen.items ≡ length loose.now.cells) }
    ensures ok { IfOk result (λ seen. (k : ℕ) → Decides (bit_of seen.items k) (PlaceDependsOn loose.now start k)) }
{
    let mut seen = vec![in loose.allocator(); false; loose.cell_count()]?;
    mark_reached(loose, start, &mut seen)?;
    Ok(seen)
}

fn is_on_walk(loose: &Loose, start: u32) -> Result<bool, NoMemory>
    requires list { IsLoose loose.now }
    requires there { start < length loose.now.cells }
    ensures ok { IfOk result (λ on. Decides on (IsOnClosedWalk loose.now start)) }
{
    let seen = dependences(loose, start)?;
    Ok(seen[start as usize])
}

// A filter: where it is false no loop leads through the place; where it is true a search decides.
fn may_be_on_walk(loose: &Loose, ranks: &Ranks, rise: bool, place: u32) -> bool
    requires list { IsLoose loose.now }
    requires there { place < length loose.now.cells }
    requires boxes_rise { rise ≡ true → BoxesRise loose.now ranks.now.cells.items ranks.now.boxes.items }
    requires cells_rise { rise ≡ true → CellsRise loose.now ranks.now.cells.items }
    ensures off { result ≡ false → IsOnClosedWalk loose.now place → ⊥ }
{
    !rise || above_operands(loose, ranks, place) > u64::from(rank_at(&ranks.cells, place))
}

fn ranks_rise(loose: &Loose, ranks: &Ranks) -> bool
    requires list { IsLoose loose.now }
    ensures boxes { result ≡ true → BoxesRise loose.now ranks.now.cells.items ranks.now.boxes.items }
    ensures cells { result ≡ true → CellsRise loose.now ranks.now.cells.items }
{
    boxes_rise(loose, ranks) && cells_rise(loose, ranks)
}

// Cells with places in a netlist are on no loop, and neither is a cell whose operands all have lesser ranks. So one
// search is made, at the least place on a loop; if the ranks did not rise, each place would be searched in turn.
pub(crate) fn least_on_walk(loose: &Loose, to: &[Option<u32>]) -> Result<Option<u32>, NoMemory>
    requires list { IsLoose loose.now }
    requires whole { length to.now ≡ length loose.now.cells }
    requires placed { (k : ℕ) → IsOnClosedWalk loose.now k → slice_index_or to.now k None ≡ None }
    ensures some { IfOk result (λ found. IfSome found (IsLeastOnClosedWalk loose.now)) }
    ensures none { IfOk result (λ found. IfNone found ((k : ℕ) → IsOnClosedWalk loose.now k → ⊥)) }
{
    let ranks = components(loose)?;
    let rise = ranks_rise(loose, &ranks);
    for (place, at) in to.iter().enumerate() {
        if at.is_none()
            && may_be_on_walk(loose, &ranks, rise, place as u32)
            && is_on_walk(loose, place as u32)?
        {
            return Ok(Some(place as u32));
        }
    }
    Ok(None)
}
