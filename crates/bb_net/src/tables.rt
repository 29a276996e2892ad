//! Simulation with a table in each box, and the size of tables.
//!
//! This is here, below the checks, as two of them give tables. The size counts all tables together, and is compared
//! with its bound before any table is made.

ghost use Rattle.std.specs.Prelude.{◌≡◌, ◌+◌, ◌*◌, ◌^◌, ◌<◌, ◌≤◌, ℕ, All, length, map, IfSome, IfNone};
ghost use Rattle.bb_bits.specs.Numbers.{number_of};
ghost use Rattle.bb_bits.specs.Tables.{table_bit};
ghost use Rattle.bb_net.specs.Completions.{table_bits};
ghost use Rattle.bb_net.specs.Netlists.{ReadsBefore, IsPinAt, box_at, cell_at};
ghost use Rattle.bb_net.specs.Values.{bit_of, gate, tabled_bit, FitBoxes, flat_with};
ghost use Rattle.bb_net.specs.Kinds.{per_box};

use crate::value::cell_bit;
use crate::{BoxPins, Cell, Net};
use bb_bits::{Table, number_doubles, number_is_below, tables_have_few_inputs};

// The most bits of tables that a report may print.
pub(crate) const MOST_BITS: u64 = 1 << 24;

impl Net {
    /// Counts a table for each box; None exactly where they have more than 2^24 bits together.
    pub fn table_bits(&self) -> Option<u32>
        ensures some { IfSome result (λ bits. bits ≡ table_bits self.now.boxes) }
        ensures small { IfSome result (λ bits. bits ≤ 2 ^ 24) }
        ensures none { IfNone result (2 ^ 24 < table_bits self.now.boxes) }
    {
        count_bits(&self.boxes)
    }

    /// `tables` has one for each sharing class. Each box has a class in `kinds`, and the table of its class has its
    /// numbers of pins; that classes are numbered in order is not required.
    pub fn value_with(&self, x: &[bool], tables: &[Table], kinds: &[u32], out: &mut [bool])
        requires inputs { length x.now ≡ self.now.inputs }
        requires tables { FitBoxes (per_box kinds.now tables.now) self.now.boxes }
        requires room { length out.old ≡ length self.now.cells }
        ensures value { out.new ≡ flat_with self.now x.now (per_box kinds.now tables.now) }
    {
        write_tabled(&self.cells, &self.boxes, x, tables, kinds, out);
    }
}

fn write_tabled(
    cells: &[Cell],
    boxes: &[BoxPins],
    x: &[bool],
    tables: &[Table],
    kinds: &[u32],
    out: &mut [bool],
)
    requires room { length out.old ≡ length cells.now }
    requires tables { FitBoxes (per_box kinds.now tables.now) boxes.now }
    requires ordered { (place : ℕ) → place < length cells.now
        → ReadsBefore (length x.now) boxes.now place (cell_at cells.now place) }
    requires listed { (place b p : ℕ) → place < length cells.now → cell_at cells.now place ≡ Cell.BoxOut b p
        → IsPinAt boxes.now b p place }
    ensures each { (place : ℕ) → place < length cells.now
        → bit_of out.new place
        ≡ gate boxes.now x.now (tabled_bit (per_box kinds.now tables.now)) (bit_of out.new)
        (cell_at cells.now place) }
{
    for (place, cell) in cells.iter().enumerate() {
        out[place] = tabled_cell(*cell, boxes, x, tables, kinds, out);
    }
}

fn tabled_cell(
    cell: Cell,
    boxes: &[BoxPins],
    x: &[bool],
    tables: &[Table],
    kinds: &[u32],
    out: &[bool],
) -> bool
    requires tables { FitBoxes (per_box kinds.now tables.now) boxes.now }
    requires reads { ReadsBefore (length x.now) boxes.now (length out.now) cell }
    requires listed { (b p : ℕ) → cell ≡ Cell.BoxOut b p → p < length (box_at boxes.now b).outs }
    ensures { result ≡ gate boxes.now x.now (tabled_bit (per_box kinds.now tables.now)) (bit_of out.now) cell }
{
    match cell {
        Cell::BoxOut(b, p) => {
            let kind = kinds[b as usize];
            tabled_pin(&boxes[b as usize], &tables[kind as usize], p, out)
        }
        gate => cell_bit(gate, false, x, out),
    }
}

fn tabled_pin(pins: &BoxPins, table: &Table, pin: u32, out: &[bool]) -> bool
    requires inputs { table.now.inputs ≡ length pins.now.ins }
    requires pin { pin < table.now.outputs }
    requires there { All (λ place. place < length out.now) pins.now.ins }
    ensures { result ≡ table_bit table.now (number_of (map (bit_of out.now) pins.now.ins)) pin }
{
    tables_have_few_inputs();
    number_is_below();
    let row = row_number(table.inputs(), pins.ins(), out);
    table.bit(row, pin)
}

// The first input pin is the most significant bit.
fn row_number(inputs: u32, places: &[u32], out: &[bool]) -> u32
    requires inputs { inputs ≡ length places.now }
    requires few { inputs ≤ 24 }
    requires there { All (λ place. place < length out.now) places.now }
    ensures { result ≡ number_of (map (bit_of out.now) places.now) }
{
    number_doubles();
    number_is_below();
    let mut number = 0;
    for place in places {
        number *= 2;
        if out[*place as usize] {
            number += 1;
        }
    }
    number
}

// A box without outputs has no bits, whatever its inputs. The tests before the shift keep it within 64 bits.
pub(crate) fn box_bits(pins: &BoxPins) -> Option<u64>
    ensures some { IfSome result (λ bits. bits ≡ length pins.now.outs * 2 ^ length pins.now.ins) }
    ensures small { IfSome result (λ bits. bits ≤ 2 ^ 24) }
    ensures none { IfNone result (2 ^ 24 < length pins.now.outs * 2 ^ length pins.now.ins) }
{
    let outs = pins.outs.len() as u64;
    if outs == 0 {
        return Some(0);
    }
    if pins.ins.len() > 24 || outs > MOST_BITS {
        return None;
    }
    let bits = outs << pins.ins.len();
    (bits <= MOST_BITS).then_some(bits)
}

// The bound is looked at after each box, so the sum cannot overflow.
fn count_bits(boxes: &[BoxPins]) -> Option<u32>
    ensures some { IfSome result (λ bits. bits ≡ table_bits boxes.now) }
    ensures small { IfSome result (λ bits. bits ≤ 2 ^ 24) }
    ensures none { IfNone result (2 ^ 24 < table_bits boxes.now) }
{
    let mut bits = 0;
    for pins in boxes {
        bits += box_bits(pins)?;
        if bits > MOST_BITS {
            return None;
        }
    }
    Some(bits as u32)
}
