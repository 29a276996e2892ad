//! A netlist is a vector of cells in topological order, and an operand is an index into it. One walk from the front
//! then gives every value, and the type itself rules out combinational loops. Unordered lists are a type of their own
//! (`Loose`), so no check needs a case for them.

ghost use Rattle.std.specs.Prelude.{◌≡◌, ◌+◌, ◌<◌, ◌^◌, [], IfOk};
ghost use Rattle.bb_net.specs.Netlists.{Netlist, Pins, first_cells, IsNetlist};

use crate::Cell;
use bb_bits::NoMemory;
use std::alloc::Global;
use std::marker::Model;

/// The input pins are places of the cells that drive them, the output pins places of the `BoxOut` cells, both in pin
/// order.
#[derive(Debug, Drop)]
pub struct BoxPins {
    pub(crate) ins: Vec<u32>,
    pub(crate) outs: Vec<u32>,
}

impl Model for BoxPins {
    ghost use Rattle.bb_net.specs.Netlists.{Pins};

    ghost Value = { Pins };

    ghost view = { λ b. record { ins = b.ins.items; outs = b.outs.items } };
}

impl BoxPins {
    /// Nothing is checked here: the invariant of `Net` constrains the places.
    pub fn of(ins: Vec<u32>, outs: Vec<u32>) -> BoxPins
        ensures pins { result ≡ record { ins = ins.items; outs = outs.items } }
    {
        BoxPins { ins, outs }
    }

    /// Places of the driving cells, first pin first.
    pub fn ins(&self) -> &[u32]
        ensures ins { result.now ≡ self.now.ins }
    {
        &self.ins
    }

    /// Places of the box's `BoxOut` cells, first pin first.
    pub fn outs(&self) -> &[u32]
        ensures outs { result.now ≡ self.now.outs }
    {
        &self.outs
    }
}

impl Clone for BoxPins {
    ghost is_clone = { λ pins copy. copy ≡ pins };

    fn clone(&self) -> Result<BoxPins, NoMemory> {
        Ok(BoxPins {
            ins: self.ins.clone()?,
            outs: self.outs.clone()?,
        })
    }
}

/// A netlist: cells of which each reads only earlier ones, its boxes, and the places of its outputs.
///
/// Cells 0 and 1 are the constants 0 and 1, and input `i` is cell `i + 2`. A box comes after each box on whose outputs
/// its input pins depend, so contents can be chosen box by box.
#[derive(Debug, Drop)]
pub struct Net {
    pub(crate) inputs: u32,
    pub(crate) cells: Vec<Cell>,
    pub(crate) boxes: Vec<BoxPins>,
    pub(crate) outs: Vec<u32>,
}

impl Model for Net {
    ghost use Rattle.bb_net.specs.Netlists.{Netlist};

    ghost Value = { Netlist };

    ghost use Rattle.bb_net.specs.Netlists.{IsNetlist};

    ghost view = { λ n.
        record { inputs = n.inputs; cells = n.cells.items; boxes = n.boxes.items; outs = n.outs.items } };

    ghost invariant = { λ n.
        IsNetlist (record { inputs = n.inputs; cells = n.cells.items; boxes = n.boxes.items; outs = n.outs.items }) };
}

impl Clone for Net {
    ghost is_clone = { λ net copy. copy ≡ net };

    fn clone(&self) -> Result<Net, NoMemory> {
        Ok(Net {
            inputs: self.inputs,
            cells: self.cells.clone()?,
            boxes: Vec::from_clones(*self.boxes.allocator(), &self.boxes)?,
            outs: self.outs.clone()?,
        })
    }
}

impl Net {
    /// Where every build begins: the two constants and the inputs, no box and no output.
    #[tactic(auto, using(crate::proofs::NetLemmas::cells_begin))]
    pub fn start(alloc: Global, inputs: u32) -> Result<Net, NoMemory>
        requires { inputs + 2 < 2 ^ 32 }
        ensures ok { IfOk result (λ net.
            net ≡ record { inputs = inputs; cells = first_cells inputs; boxes = []; outs = [] }) }
    {
        let cells = start_cells(alloc, inputs)?;
        Ok(Net {
            inputs,
            cells,
            boxes: Vec::new(alloc),
            outs: Vec::new(alloc),
        })
    }

    /// Gives the invariant to a proof; does nothing at run time.
    pub fn keeps_its_order(&self)
        ensures { IsNetlist self.now }
    {
        let _ = &self.cells;
    }

    /// Input `i` is cell `i + 2`.
    pub fn inputs(&self) -> u32
        ensures inputs { result ≡ self.now.inputs }
        ensures kept { IsNetlist self.now }
    {
        self.inputs
    }

    /// In topological order; a cell's index is its place.
    pub fn cells(&self) -> &[Cell]
        ensures cells { result.now ≡ self.now.cells }
        ensures kept { IsNetlist self.now }
    {
        &self.cells
    }

    /// Each after the boxes on whose outputs its input pins depend.
    pub fn boxes(&self) -> &[BoxPins]
        ensures boxes { result.now ≡ self.now.boxes }
        ensures kept { IsNetlist self.now }
    {
        &self.boxes
    }

    /// Places, in output order; two outputs may have one place.
    pub fn outs(&self) -> &[u32]
        ensures outs { result.now ≡ self.now.outs }
        ensures kept { IsNetlist self.now }
    {
        &self.outs
    }
}

#[tactic(auto, using(crate::proofs::NetLemmas::cells_begin))]
fn start_cells(alloc: Global, inputs: u32) -> Result<Vec<Cell>, NoMemory>
    requires { inputs + 2 < 2 ^ 32 }
    ensures ok { IfOk result (λ cells. cells.items ≡ first_cells inputs) }
{
    let mut cells = Vec::with_capacity(alloc, inputs as usize + 2)?;
    cells.push(Cell::Const(false))?;
    cells.push(Cell::Const(true))?;
    for i in 0..inputs {
        cells.push(Cell::Input(i))?;
    }
    Ok(cells)
}
