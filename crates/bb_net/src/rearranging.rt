//! Permutes inputs and selects outputs, so that netlists whose ports have the same names in different orders can be
//! compared by position.
//!
//! Operands are renumbered in place and the cells keep their order: every cell reads only earlier ones still, so
//! nothing is levelized again.

ghost use Rattle.std.specs.Prelude.{◌≡◌, ◌+◌, ◌<◌, ◌≤◌, ◌^◌, ◌++◌, All, length, map, take, drop, slice_index, IfOk};
ghost use Rattle.bb_net.specs.Netlists.{Netlist};
ghost use Rattle.bb_net.specs.Orders.{moved_pins};
ghost use Rattle.bb_net.specs.Rearrangements.{new_input, new_place, moved_cell, IsRearranged, RearrangedKeepsValues};
ghost use Rattle.bb_net.specs.Rearrangements.{RearrangedNetsExist};

use crate::{BoxPins, Cell, Net};
use bb_bits::NoMemory;
use std::alloc::Global;

fn new_input(numbers: &[u32], i: u32) -> u32
    ensures { result ≡ new_input numbers.now i }
{
    numbers.get(i as usize).copied().unwrap_or(i)
}

// The constants stay. Past the inputs `numbers` has no entry, so those places stay too.
fn new_place(numbers: &[u32], place: u32) -> u32
    requires { All (λ n. n + 2 < 2 ^ 32) numbers.now }
    ensures { result ≡ new_place numbers.now place }
{
    if place < 2 {
        place
    } else {
        new_input(numbers, place - 2) + 2
    }
}

fn moved(numbers: &[u32], cell: Cell) -> Cell
    requires { All (λ n. n + 2 < 2 ^ 32) numbers.now }
    ensures { result ≡ moved_cell numbers.now cell }
{
    match cell {
        Cell::Const(b) => Cell::Const(b),
        Cell::Input(i) => Cell::Input(new_input(numbers, i)),
        Cell::Not(a) => Cell::Not(new_place(numbers, a)),
        Cell::And(a, b) => Cell::And(new_place(numbers, a), new_place(numbers, b)),
        Cell::Or(a, b) => Cell::Or(new_place(numbers, a), new_place(numbers, b)),
        Cell::Xor(a, b) => Cell::Xor(new_place(numbers, a), new_place(numbers, b)),
        Cell::Mux(c, t, e) => Cell::Mux(
            new_place(numbers, c),
            new_place(numbers, t),
            new_place(numbers, e),
        ),
        Cell::BoxOut(b, p) => Cell::BoxOut(b, p),
    }
}

fn move_cells(numbers: &[u32], cells: &mut [Cell])
    requires { All (λ n. n + 2 < 2 ^ 32) numbers.now }
    ensures { cells.new ≡ map (moved_cell numbers.now) cells.old }
{
    for k in 0..cells.len() {
        cells[k] = moved(numbers, cells[k]);
    }
}

// The cells before `first` are the constants and the inputs, which keep their places.
fn move_cells_after(numbers: &[u32], cells: &mut [Cell], first: usize)
    requires numbers { All (λ n. n + 2 < 2 ^ 32) numbers.now }
    requires there { first ≤ length cells.old }
    ensures { cells.new ≡ take first cells.old ++ map (moved_cell numbers.now) (drop first cells.old) }
{
    move_cells(numbers, &mut cells[first..]);
}

fn move_places(numbers: &[u32], places: &mut [u32])
    requires { All (λ n. n + 2 < 2 ^ 32) numbers.now }
    ensures { places.new ≡ map (new_place numbers.now) places.old }
{
    for k in 0..places.len() {
        places[k] = new_place(numbers, places[k]);
    }
}

fn move_pins(numbers: &[u32], pins: &mut BoxPins)
    requires { All (λ n. n + 2 < 2 ^ 32) numbers.now }
    ensures { pins.new ≡ moved_pins (new_place numbers.now) pins.old }
{
    move_places(numbers, &mut pins.ins);
    move_places(numbers, &mut pins.outs);
}

fn move_boxes(numbers: &[u32], boxes: &mut [BoxPins])
    requires { All (λ n. n + 2 < 2 ^ 32) numbers.now }
    ensures { boxes.new ≡ map (moved_pins (new_place numbers.now)) boxes.old }
{
    for b in 0..boxes.len() {
        move_pins(numbers, &mut boxes[b]);
    }
}

fn picked(alloc: Global, numbers: &[u32], outs: &[u32], picks: &[u32]) -> Result<Vec<u32>, NoMemory>
    requires numbers { All (λ n. n + 2 < 2 ^ 32) numbers.now }
    requires picks { All (λ j. j < length outs.now) picks.now }
    ensures ok { IfOk result (λ list.
        list.items ≡ map (λ j. new_place numbers.now (slice_index outs.now j)) picks.now) }
{
    let mut list = Vec::with_capacity(alloc, picks.len())?;
    for j in picks {
        list.push(new_place(numbers, outs[*j as usize]))?;
    }
    Ok(list)
}

impl Net {
    /// Input `i` becomes input `numbers[i]`, and output `j` is the old output `picks[j]`.
    pub fn rearranged(self, alloc: Global, numbers: &[u32], picks: &[u32]) -> Result<Net, NoMemory>
        requires count { length numbers.now ≡ self.inputs }
        requires numbers { All (λ n. n < self.inputs) numbers.now }
        requires picks { All (λ j. j < length self.outs) picks.now }
        ensures ok { IfOk result (λ net. IsRearranged numbers.now picks.now self net) }
    {
        let outs = picked(alloc, numbers, &self.outs, picks)?;
        let Net {
            inputs,
            mut cells,
            mut boxes,
            outs: _,
        } = self;
        move_cells_after(numbers, &mut cells, inputs as usize + 2);
        move_boxes(numbers, &mut boxes);
        Ok(Net {
            inputs,
            cells,
            boxes,
            outs,
        })
    }
}

/// A cell has the value that it had, where each input has the bit that it had.
pub fn rearranged_keeps_values()
    ensures { RearrangedKeepsValues }
{}

/// Every netlist can be rearranged, so a statement about rearranged ones is never empty.
pub fn rearranged_nets_exist()
    ensures { RearrangedNetsExist }
{}
