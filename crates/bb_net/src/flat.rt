//! A flat netlist: what elaboration makes of one design, before it is paired.
//!
//! Registers are cut: present states become inputs and data become outputs, so designs with the same registers are
//! compared as combinational ones. Names are kept because pairing matches inputs, registers and outputs by them.

ghost use Rattle.std.specs.Prelude.{◌≡◌};
ghost use Rattle.bb_net.specs.Flats.{FlatNet, IsFlat};

use crate::{BoxName, Net};
use bb_bits::{Name, NoMemory};
use std::marker::Model;

/// A register bit: its name, the edge at which it takes its next state, and the number of the input that is its clock,
/// if one is.
#[derive(Debug, Drop)]
pub struct Reg {
    pub text: Name,
    pub falling: bool,
    pub clock: Option<u32>,
}

impl Clone for Reg {
    ghost is_clone = { λ reg copy. copy ≡ reg };

    fn clone(&self) -> Result<Reg, NoMemory> {
        Ok(Reg {
            text: self.text.clone()?,
            falling: self.falling,
            clock: self.clock,
        })
    }
}

/// A flat netlist: inputs are those of the top and then the present states of the registers; outputs are those of the
/// top and then the data of the registers.
///
/// Names of one kind differ. Each is one or more bytes from 33 to 126, so it can be printed as it is; so is the name of
/// each box's module. Boxes of one module have pins of the same names, so boxes that share contents by module fit each
/// other unchecked. There are at most 2,000,000 cells, 2,000,000 outputs and 1,000,000 boxes.
#[derive(Debug, Drop)]
pub struct Flat {
    net: Net,
    ins: Vec<Name>,
    regs: Vec<Reg>,
    outs: Vec<Name>,
    boxes: Vec<BoxName>,
}

/// Lets pairing move cells and names out of a flat netlist instead of copying them.
#[derive(Debug, Drop)]
pub struct FlatParts {
    pub net: Net,
    pub ins: Vec<Name>,
    pub regs: Vec<Reg>,
    pub outs: Vec<Name>,
    pub boxes: Vec<BoxName>,
}

impl Model for Flat {
    ghost use Rattle.bb_net.specs.Flats.{FlatNet, IsFlat};

    ghost Value = { FlatNet };

    ghost view = { λ f.
        record { net = f.net; ins = f.ins.items; regs = f.regs.items; outs = f.outs.items; boxes = f.boxes.items } };

    ghost invariant = { λ f. IsFlat (record {
      net = f.net;
      ins = f.ins.items;
      regs = f.regs.items;
      outs = f.outs.items;
      boxes = f.boxes.items;
    }) };
}

impl Clone for Flat {
    ghost is_clone = { λ flat copy. copy ≡ flat };

    fn clone(&self) -> Result<Flat, NoMemory> {
        Ok(Flat {
            net: self.net.clone()?,
            ins: Vec::from_clones(*self.ins.allocator(), &self.ins)?,
            regs: Vec::from_clones(*self.regs.allocator(), &self.regs)?,
            outs: Vec::from_clones(*self.outs.allocator(), &self.outs)?,
            boxes: Vec::from_clones(*self.boxes.allocator(), &self.boxes)?,
        })
    }
}

impl Flat {
    /// That the parts fit is required and not checked.
    pub fn of(
        net: Net,
        ins: Vec<Name>,
        regs: Vec<Reg>,
        outs: Vec<Name>,
        boxes: Vec<BoxName>,
    ) -> Flat
        requires flat { IsFlat (record {
          net = net;
          ins = ins.items;
          regs = regs.items;
          outs = outs.items;
          boxes = boxes.items;
        }) }
        ensures flat { result
            ≡ record { net = net; ins = ins.items; regs = regs.items; outs = outs.items; boxes = boxes.items } }
    {
        Flat {
            net,
            ins,
            regs,
            outs,
            boxes,
        }
    }

    /// Its inputs are the ports and then the register states, its outputs the ports and then the register data.
    pub fn net(&self) -> &Net
        ensures net { result.now ≡ self.now.net }
        ensures kept { IsFlat self.now }
    {
        &self.net
    }

    /// The input ports alone, in input order; the inputs after them are the registers'.
    pub fn ins(&self) -> &[Name]
        ensures ins { result.now ≡ self.now.ins }
        ensures kept { IsFlat self.now }
    {
        &self.ins
    }

    /// In the order of their inputs and outputs, which come after those of the ports.
    pub fn regs(&self) -> &[Reg]
        ensures regs { result.now ≡ self.now.regs }
        ensures kept { IsFlat self.now }
    {
        &self.regs
    }

    /// The output ports alone, in output order; the outputs after them are the registers'.
    pub fn outs(&self) -> &[Name]
        ensures outs { result.now ≡ self.now.outs }
        ensures kept { IsFlat self.now }
    {
        &self.outs
    }

    /// In the order of the netlist's boxes.
    pub fn boxes(&self) -> &[BoxName]
        ensures boxes { result.now ≡ self.now.boxes }
        ensures kept { IsFlat self.now }
    {
        &self.boxes
    }

    /// Moves the parts out; nothing is copied.
    pub fn into_parts(self) -> FlatParts
        ensures parts { record {
          net = result.net;
          ins = result.ins.items;
          regs = result.regs.items;
          outs = result.outs.items;
          boxes = result.boxes.items;
        }
            ≡ self }
        ensures kept { IsFlat self }
    {
        let Flat {
            net,
            ins,
            regs,
            outs,
            boxes,
        } = self;
        FlatParts {
            net,
            ins,
            regs,
            outs,
            boxes,
        }
    }
}
