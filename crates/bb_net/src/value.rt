//! Two-valued simulation with free box outputs.
//!
//! What a box gives is a parameter of the value. Free bits, tables, and contents that several boxes share are choices
//! of it, so each law is stated once. Free bits are written to their places first; one walk in topological order then
//! writes every other cell.

ghost use Rattle.std.specs.Prelude.{◌≡◌, ◌≢◌, ◌+◌, ◌<◌, ◌≤◌, ℕ, [], length, slice_index, take, Bool, List};
ghost use Rattle.bb_net.specs.Netlists.{Netlist, IsOrdered, IsPinAt, ReadsBefore, cell_at};
ghost use Rattle.bb_net.specs.Values.{bit_of, gate, output_pins, value_of, IsValue, flat, ValueGoesByBoxes};

use crate::{BoxPins, Cell, Net};

// `here` is the bit of a box output, which operands do not determine.
pub(crate) fn cell_bit(cell: Cell, here: bool, x: &[bool], out: &[bool]) -> bool
    requires { ReadsBefore (length x.now) [] (length out.now) cell }
    ensures { result ≡ gate [] x.now (λ b p ins. here) (bit_of out.now) cell }
{
    match cell {
        Cell::Const(bit) => bit,
        Cell::Input(i) => x[i as usize],
        Cell::Not(a) => !out[a as usize],
        Cell::And(a, b) => out[a as usize] && out[b as usize],
        Cell::Or(a, b) => out[a as usize] || out[b as usize],
        Cell::Xor(a, b) => out[a as usize] != out[b as usize],
        Cell::Mux(c, t, e) => {
            if out[c as usize] {
                out[t as usize]
            } else {
                out[e as usize]
            }
        }
        Cell::BoxOut(_, _) => here,
    }
}

// A box output reads the bit that is at its own place already.
fn write_cells(cells: &[Cell], x: &[bool], out: &mut [bool])
    requires room { length out.old ≡ length cells.now }
    requires ordered { (place : ℕ) → place < length cells.now
        → ReadsBefore (length x.now) [] place (cell_at cells.now place) }
    ensures each { (place : ℕ) → place < length cells.now
        → bit_of out.new place
        ≡ gate [] x.now (λ b p ins. bit_of out.old place) (bit_of out.new) (cell_at cells.now place) }
{
    for (place, cell) in cells.iter().enumerate() {
        out[place] = cell_bit(*cell, out[place], x, out);
    }
}

fn place_pins(outs: &[u32], bits: &[bool], out: &mut [bool])
    requires bits { length bits.now ≡ length outs.now }
    requires there { (p : ℕ) → p < length outs.now → slice_index outs.now p < length out.old }
    requires apart { (p q : ℕ) → p < q → q < length outs.now → slice_index outs.now p ≢ slice_index outs.now q }
    ensures placed { (p : ℕ) → p < length outs.now → bit_of out.new (slice_index outs.now p) ≡ bit_of bits.now p }
    ensures others { (place : ℕ) → ((p : ℕ) → p < length outs.now → slice_index outs.now p ≢ place)
        → bit_of out.new place ≡ bit_of out.old place }
{
    for (p, place) in outs.iter().enumerate() {
        out[*place as usize] = bits[p];
    }
}

// The bits are box after box, in each box pin by pin.
fn place_outputs(boxes: &[BoxPins], z: &[bool], out: &mut [bool])
    requires bits { length z.now ≡ output_pins boxes.now }
    requires there { (b p place : ℕ) → IsPinAt boxes.now b p place → place < length out.old }
    requires apart { (b p c q place : ℕ) → IsPinAt boxes.now b p place → IsPinAt boxes.now c q place
        → (b ≡ c) × (p ≡ q) }
    ensures placed { (b p place : ℕ) → IsPinAt boxes.now b p place
        → bit_of out.new place ≡ bit_of z.now (output_pins (take b boxes.now) + p) }
{
    let mut start = 0;
    for pins in boxes {
        let outs = pins.outs();
        let end = start + outs.len();
        place_pins(outs, &z[start..end], out);
        start = end;
    }
}

/// The equations of the cells have a solution, defined cell by cell: a cell reads only earlier ones.
pub fn value_exists()
    ensures { (net : Netlist) (x : List Bool) (box : ℕ → ℕ → List Bool → Bool) → IsOrdered net
        → IsValue net x box (value_of net x box) }
{}

/// They have no other: two solutions agree from the front on, cell by cell.
pub fn value_is_unique()
    ensures { (net : Netlist) (x : List Bool) (box : ℕ → ℕ → List Bool → Bool) (bits : List Bool)
        → IsOrdered net → IsValue net x box bits → bits ≡ value_of net x box }
{}

/// Contents matter only at the rows that the vector brings to the boxes.
pub fn value_goes_by_boxes()
    ensures { ValueGoesByBoxes }
{}

impl Net {
    /// `x` is in input order, `z` box after box in pin order. What `out` holds before is not read.
    pub fn value(&self, x: &[bool], z: &[bool], out: &mut [bool])
        requires inputs { length x.now ≡ self.now.inputs }
        requires outputs { length z.now ≡ output_pins self.now.boxes }
        requires room { length out.old ≡ length self.now.cells }
        ensures value { out.new ≡ flat self.now x.now z.now }
    {
        place_outputs(&self.boxes, z, out);
        write_cells(&self.cells, x, out);
    }
}
