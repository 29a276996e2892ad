//! The cells of gates: each input is joined to those before it by one operator, and a gate that inverts ends with one
//! complement. So a nand of three inputs is the complement of their conjunction, and not a nand of a nand (IEEE
//! 1364-2005, 7.2).
//!
//! That a gate has an input comes from the grammar, so laws about the list of cells ask for a well-formed text beside
//! one without faults.

ghost use Rattle.std.specs.Prelude.{◌≡◌, All, length, IfOk, OnOk};
ghost use Rattle.bb_design.specs.GateFunctions.{inverts};
ghost use Rattle.bb_implements.specs.Places.{join_cell};
ghost use Rattle.bb_blast.specs.Inside.Listing.{with_terminals, joined, inverted, with_gate};
ghost use Rattle.bb_blast.specs.Inside.Logic.{IsLogicAmong};

use crate::logic::Logic;
use crate::logic_cells::{Spot, add_one_bit};
use crate::sources::next_place;
use bb_ast::Gate;
use bb_bits::NoMemory;
use bb_net::LooseCell;

// `buf` and `not` have one input, so their operator is never used.
fn join_cell(gate: &Gate, a: u32, b: u32) -> LooseCell
    ensures cell { result ≡ join_cell gate.now a b }
{
    match gate {
        Gate::And | Gate::Nand => LooseCell::And(a, b),
        Gate::Or | Gate::Nor => LooseCell::Or(a, b),
        Gate::Xor | Gate::Xnor => LooseCell::Xor(a, b),
        Gate::Buf | Gate::Not => LooseCell::Copy(a),
    }
}

fn inverts(gate: &Gate) -> bool
    ensures inverts { result ≡ inverts gate.now }
{
    matches!(gate, Gate::Nand | Gate::Nor | Gate::Xnor | Gate::Not)
}

fn add_terminals(
    spot: Spot<'_>,
    ins: &[Logic],
    places: &mut Vec<u32>,
    cells: &mut Vec<LooseCell>,
) -> Result<(), NoMemory>
    requires ins { All (IsLogicAmong (length spot.starts.now)) ins.now }
    ensures places { OnOk result (places.new.items
        ≡ (with_terminals spot.entry.others spot.entry.bits spot.entry.starts.now cells.old.items ins.now).places) }
    ensures added { OnOk result (cells.new.items
        ≡ (with_terminals spot.entry.others spot.entry.bits spot.entry.starts.now cells.old.items ins.now).cells) }
{
    places.clear();
    for logic in ins {
        places.push(add_one_bit(spot, logic, cells)?)?;
    }
    Ok(())
}

// Without inputs, which the grammar excludes, the place is that of the constant 0.
fn add_joins(
    start: u32,
    gate: &Gate,
    places: &[u32],
    cells: &mut Vec<LooseCell>,
) -> Result<u32, NoMemory>
    ensures place { IfOk result (λ place. place ≡ (joined start gate.now cells.old.items places.now).place) }
    ensures added { IfOk result (λ place. cells.new.items ≡ (joined start gate.now cells.old.items places.now).cells) }
{
    let [first, rest @ ..] = places else {
        return Ok(0);
    };
    let mut place = *first;
    for terminal in rest {
        let next = next_place(start, cells);
        cells.push(join_cell(gate, place, *terminal))?;
        place = next;
    }
    Ok(place)
}

fn add_inverter(
    start: u32,
    gate: &Gate,
    place: u32,
    cells: &mut Vec<LooseCell>,
) -> Result<u32, NoMemory>
    ensures place { IfOk result (λ last.
        last ≡ (inverted start gate.now (record { cells = cells.old.items; place = place })).place) }
    ensures added { IfOk result (λ last.
        cells.new.items ≡ (inverted start gate.now (record { cells = cells.old.items; place = place })).cells) }
{
    if !inverts(gate) {
        return Ok(place);
    }
    let next = next_place(start, cells);
    cells.push(LooseCell::Not(place))?;
    Ok(next)
}

/// Returns the gate's place. `places` is scratch for those of its inputs, passed in so that its memory is used again.
pub(crate) fn add_gate(
    spot: Spot<'_>,
    gate: &Gate,
    ins: &[Logic],
    places: &mut Vec<u32>,
    cells: &mut Vec<LooseCell>,
) -> Result<u32, NoMemory>
    requires ins { All (IsLogicAmong (length spot.starts.now)) ins.now }
    ensures place { IfOk result (λ place. place
        ≡ (with_gate spot.entry.others spot.entry.bits spot.entry.starts.now gate.now cells.old.items ins.now).place) }
    ensures added { IfOk result (λ place. cells.new.items
        ≡ (with_gate spot.entry.others spot.entry.bits spot.entry.starts.now gate.now cells.old.items ins.now).cells) }
{
    add_terminals(spot, ins, places, cells)?;
    let place = add_joins(spot.others, gate, places, cells)?;
    add_inverter(spot.others, gate, place, cells)
}
