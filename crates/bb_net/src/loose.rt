//! Unordered netlists, as elaboration makes them.
//!
//! Verilog has drivers in any order and joins nets by assignments. So operands may come later than their readers, and
//! buffers (`Copy`) are cells; `order` resolves both.

ghost use Rattle.std.specs.Prelude.{◌≡◌};
ghost use Rattle.bb_net.specs.Loose.{LooseList};

use crate::BoxPins;
use std::marker::Model;

/// A cell of an unordered netlist: those of `Cell`, and buffers.
///
/// Operands are places in the list, before or after the cell. `Copy(p)` has the value of the cell at place `p`.
#[derive(Clone, Copy, Debug, PartialEq, Eq)]
pub enum LooseCell {
    Const(bool),
    Input(u32),
    Not(u32),
    And(u32, u32),
    Or(u32, u32),
    Xor(u32, u32),
    Mux(u32, u32, u32),
    BoxOut(u32, u32),
    Copy(u32),
}

/// An unordered netlist. It may have combinational loops until `order` has looked for them.
#[derive(Debug, Drop)]
pub struct Loose {
    pub(crate) inputs: u32,
    pub(crate) cells: Vec<LooseCell>,
    pub(crate) boxes: Vec<BoxPins>,
    pub(crate) outs: Vec<u32>,
}

impl Model for Loose {
    ghost use Rattle.bb_net.specs.Loose.{LooseList};

    ghost Value = { LooseList };

    ghost view = { λ l.
        record { inputs = l.inputs; cells = l.cells.items; boxes = l.boxes.items; outs = l.outs.items } };
}

impl Loose {
    /// Nothing is checked here; `order` states what it requires.
    pub fn of(inputs: u32, cells: Vec<LooseCell>, boxes: Vec<BoxPins>, outs: Vec<u32>) -> Loose
        ensures list { result
            ≡ record { inputs = inputs; cells = cells.items; boxes = boxes.items; outs = outs.items } }
    {
        Loose {
            inputs,
            cells,
            boxes,
            outs,
        }
    }

    /// In list order; an index is a place.
    pub fn cells(&self) -> &[LooseCell]
        ensures cells { result.now ≡ self.now.cells }
    {
        &self.cells
    }

    /// In list order, which need not follow their dependence.
    pub fn boxes(&self) -> &[BoxPins]
        ensures boxes { result.now ≡ self.now.boxes }
    {
        &self.boxes
    }
}
