//! The parts of a flat netlist by number. Each call gives the facts on its part that later proofs need, so that the
//! invariant of the netlist is opened here alone.

ghost use Rattle.std.specs.Prelude.{◌≡◌, ◌+◌, ◌<◌, ◌^◌, ℕ, All, length, slice_index};
ghost use Rattle.bb_net.specs.Flats.{IsFlat};
ghost use Rattle.bb_net.specs.Kinds.{per_box};
ghost use Rattle.bb_net.specs.Netlists.{ReadsBefore, box_at, cell_at};
ghost use Rattle.bb_net.specs.Values.{FitBoxes, table_at};
ghost use Rattle.bb_fill.specs.Clashes.{register_text};
ghost use Rattle.bb_fill.specs.Filled.{output_text};

use bb_bits::{Name, Table};
use bb_net::{Cell, Flat, tables_are_spread};

pub(crate) fn cell_count(flat: &Flat) -> u32
    ensures count { result ≡ length flat.now.net.cells }
    ensures kept { IsFlat flat.now }
{
    let _ = flat.ins();
    flat.net().cells().len() as u32
}

pub(crate) fn cell_of(flat: &Flat, number: u32) -> Cell
    requires there { number < length flat.now.net.cells }
    ensures cell { result ≡ cell_at flat.now.net.cells number }
    ensures reads { ReadsBefore flat.now.net.inputs flat.now.net.boxes (length flat.now.net.cells) result }
    ensures pin { (b p : ℕ) → result ≡ Cell.BoxOut b p
        → (b < length flat.now.net.boxes) × (p < length (box_at flat.now.net.boxes b).outs) }
{
    flat.net().cells()[number as usize]
}

/// In the order of the pins.
pub(crate) fn pins_of(flat: &Flat, b: u32) -> &[u32]
    requires there { b < length flat.now.net.boxes }
    ensures pins { result.now ≡ (box_at flat.now.net.boxes b).ins }
    ensures there { All (λ k. k < length flat.now.net.cells) result.now }
{
    flat.net().boxes()[b as usize].ins()
}

/// The table of the box's sharing class.
pub(crate) fn table_of<'a>(
    flat: &Flat,
    tables: &'a [Table],
    kinds: &[u32],
    b: u32,
    p: u32,
) -> &'a Table
    requires tables { FitBoxes (per_box kinds.now tables.now) flat.now.net.boxes }
    requires pin { (b < length flat.now.net.boxes) × (p < length (box_at flat.now.net.boxes b).outs) }
    ensures table { result.now ≡ table_at (per_box kinds.now tables.now) b }
    ensures inputs { result.now.inputs ≡ length (box_at flat.now.net.boxes b).ins }
    ensures pin { p < result.now.outputs }
{
    tables_are_spread();
    let _ = flat;
    let kind = kinds[b as usize];
    &tables[kind as usize]
}

pub(crate) fn register_count(flat: &Flat) -> u32
    ensures count { result ≡ length flat.now.regs }
    ensures kept { IsFlat flat.now }
{
    flat.regs().len() as u32
}

/// Without the next states, which are further outputs of the netlist.
pub(crate) fn output_count(flat: &Flat) -> u32
    ensures count { result ≡ length flat.now.outs }
    ensures kept { IsFlat flat.now }
{
    flat.outs().len() as u32
}

pub(crate) fn register_text(flat: &Flat, r: u32) -> &Name
    requires there { r < length flat.now.regs }
    ensures text { result.now ≡ register_text flat.now r }
{
    &flat.regs()[r as usize].text
}

pub(crate) fn output_text(flat: &Flat, o: u32) -> &Name
    requires there { o < length flat.now.outs }
    ensures text { result.now ≡ output_text flat.now o }
{
    &flat.outs()[o as usize]
}

/// The outputs of the top come first, then the next states of the registers.
pub(crate) fn output_place(flat: &Flat, o: u32) -> u32
    requires there { o < length flat.now.outs + length flat.now.regs }
    ensures place { result ≡ slice_index flat.now.net.outs o }
    ensures there { result < length flat.now.net.cells }
    ensures kept { IsFlat flat.now }
{
    flat.net().outs()[o as usize]
}

/// The inputs of the top come first, then the present states of the registers.
pub(crate) fn input_count(flat: &Flat) -> u32
    ensures count { result ≡ length flat.now.ins + length flat.now.regs }
{
    flat.net().inputs()
}
