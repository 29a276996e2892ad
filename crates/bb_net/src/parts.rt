//! Access to an unordered netlist by number. Operands come in a fixed array with a count, so reading them allocates
//! nothing.

ghost use Rattle.std.specs.Prelude.{◌≡◌, ◌<◌, ◌≤◌, [], length, take};
ghost use Rattle.bb_net.specs.Netlists.{box_at};
ghost use Rattle.bb_net.specs.Loose.{loose_at, operand_places};

use crate::{BoxPins, Loose, LooseCell};
use std::alloc::Global;

impl LooseCell {
    // Those of a cell that is no output pin: the first `count` of three. An output pin reads the pins of its box
    // instead.
    pub(crate) fn operands(self) -> ([u32; 3], usize)
        ensures count { result.1 ≤ 3 }
        ensures places { take result.1 result.0 ≡ operand_places [] self }
    {
        match self {
            LooseCell::Const(_) | LooseCell::Input(_) | LooseCell::BoxOut(_, _) => ([0, 0, 0], 0),
            LooseCell::Not(a) | LooseCell::Copy(a) => ([a, 0, 0], 1),
            LooseCell::And(a, b) | LooseCell::Or(a, b) | LooseCell::Xor(a, b) => ([a, b, 0], 2),
            LooseCell::Mux(c, t, e) => ([c, t, e], 3),
        }
    }
}

impl Loose {
    pub(crate) fn cell_count(&self) -> usize
        ensures count { result ≡ length self.now.cells }
    {
        self.cells.len()
    }

    pub(crate) fn box_count(&self) -> usize
        ensures count { result ≡ length self.now.boxes }
    {
        self.boxes.len()
    }

    /// Input `i` is at place `i + 2`, as in a netlist.
    pub fn input_count(&self) -> u32
        ensures count { result ≡ self.now.inputs }
    {
        self.inputs
    }

    /// In output order.
    pub fn output_places(&self) -> &[u32]
        ensures outs { result.now ≡ self.now.outs }
    {
        &self.outs
    }

    pub(crate) fn cell(&self, place: u32) -> LooseCell
        requires there { place < length self.now.cells }
        ensures cell { result ≡ loose_at self.now place }
    {
        self.cells[place as usize]
    }

    pub(crate) fn pins(&self, b: u32) -> &BoxPins
        requires there { b < length self.now.boxes }
        ensures pins { result.now ≡ box_at self.now.boxes b }
    {
        &self.boxes[b as usize]
    }

    pub(crate) fn allocator(&self) -> Global {
        *self.cells.allocator()
    }
}
