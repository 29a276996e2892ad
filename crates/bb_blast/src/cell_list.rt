//! The cell list to which constructs add: they append cells and note which place drives each bit.
//!
//! Drivers are noted and not patched into readers: a bit may be read before its driver is met, so readers use the place
//! of the bit's buffer, which is known beforehand.

ghost use Rattle.std.specs.Prelude.{◌≡◌, All, length, map, OnOk};
ghost use Rattle.bb_blast.specs.Inside.Counting.{after};
ghost use Rattle.bb_blast.specs.Inside.Listing.{cell_list_view, beside, giving, giving_next, driven_by, with_gate};
ghost use Rattle.bb_blast.specs.Inside.Listing.{with_operators};
ghost use Rattle.bb_blast.specs.Inside.Logic.{IsLogicAmong, logic_places};

use crate::box_cells::add_moved;
use crate::gate_cells::add_gate;
use crate::logic::Logic;
use crate::logic_cells::{Spot, add_logic};
use crate::sources::{give_all, give_beside};
use bb_ast::Gate;
use bb_bits::NoMemory;
use bb_net::LooseCell;

/// Cells after the bits of nets. `sources` has the place that drives each bit of a net and `next` that of each register
/// bit's next state, both by the bit's number in net order.
#[derive(Debug, Drop)]
pub(crate) struct CellListLists {
    pub cells: Vec<LooseCell>,
    pub sources: Vec<Option<u32>>,
    pub next: Vec<Option<u32>>,
    /// Scratch for the places of bits or of a gate's inputs, kept so that its memory is used again.
    pub places: Vec<u32>,
}

fn put_logic(spot: Spot<'_>, logic: &Logic, cell_list: &mut CellListLists) -> Result<(), NoMemory>
    requires below { IsLogicAmong (length spot.starts.now) logic.now }
    ensures places { OnOk result (cell_list.new.places.items
        ≡ logic_places spot.entry.others spot.entry.bits spot.entry.starts.now cell_list.old.cells.items logic.now) }
    ensures put { OnOk result (cell_list_view cell_list.new
        ≡ with_operators spot.entry.others spot.entry.bits spot.entry.starts.now (cell_list_view cell_list.old)
        logic.now) }
{
    add_logic(spot, logic, &mut cell_list.places, &mut cell_list.cells)
}

/// Serves input ports too: what is connected to one is assigned to the bits of the port.
pub(crate) fn put_assignment(
    spot: Spot<'_>,
    first: u32,
    left: &[u32],
    right: &Logic,
    cell_list: &mut CellListLists,
) -> Result<(), NoMemory>
    requires nets { IsLogicAmong (length spot.starts.now) right.now }
    ensures put { OnOk result (cell_list_view cell_list.new
        ≡ giving
        (with_operators spot.entry.others spot.entry.bits spot.entry.starts.now (cell_list_view cell_list.old)
        right.now)
        (beside first left.now (logic_places spot.entry.others spot.entry.bits spot.entry.starts.now
        cell_list.old.cells.items right.now))) }
{
    put_logic(spot, right, cell_list)?;
    give_beside(&mut cell_list.sources, first, left, &cell_list.places);
    Ok(())
}

/// Into `next` and not `sources`: a register bit is driven by its present state, which is an input.
pub(crate) fn put_register(
    spot: Spot<'_>,
    first: u32,
    left: &[u32],
    right: &Logic,
    cell_list: &mut CellListLists,
) -> Result<(), NoMemory>
    requires nets { IsLogicAmong (length spot.starts.now) right.now }
    ensures put { OnOk result (cell_list_view cell_list.new
        ≡ giving_next
        (with_operators spot.entry.others spot.entry.bits spot.entry.starts.now (cell_list_view cell_list.old)
        right.now)
        (beside first left.now (logic_places spot.entry.others spot.entry.bits spot.entry.starts.now
        cell_list.old.cells.items right.now))) }
{
    put_logic(spot, right, cell_list)?;
    give_beside(&mut cell_list.next, first, left, &cell_list.places);
    Ok(())
}

/// Makes no cell: the bits of the port, counted from place `inner`, drive what is connected.
pub(crate) fn put_output(
    inner: u32,
    first: u32,
    pin: &[u32],
    left: &[u32],
    cell_list: &mut CellListLists,
) -> Result<(), NoMemory>
    ensures put { OnOk result (cell_list_view cell_list.new
        ≡ giving (cell_list_view cell_list.old) (beside first left.now (map (after inner) pin.now))) }
{
    cell_list.places.clear();
    add_moved(inner, pin, &mut cell_list.places)?;
    give_beside(&mut cell_list.sources, first, left, &cell_list.places);
    Ok(())
}

/// `buf` and `not` may have several outputs, which one place drives.
pub(crate) fn put_gate(
    spot: Spot<'_>,
    first: u32,
    gate: &Gate,
    outs: &[u32],
    ins: &[Logic],
    cell_list: &mut CellListLists,
) -> Result<(), NoMemory>
    requires ins { All (IsLogicAmong (length spot.starts.now)) ins.now }
    ensures put { OnOk result (cell_list_view cell_list.new
        ≡ driven_by (cell_list_view cell_list.old)
        (with_gate spot.entry.others spot.entry.bits spot.entry.starts.now gate.now cell_list.old.cells.items
        ins.now)
        first outs.now) }
{
    let place = add_gate(spot, gate, ins, &mut cell_list.places, &mut cell_list.cells)?;
    give_all(&mut cell_list.sources, first, outs, place);
    Ok(())
}
