//! A netlist that grows by hashed gates. Its first cells are the two constants, then the inputs, at fixed places, so
//! folding recognizes constants by place.

ghost use Rattle.std.specs.Prelude.{◌≡◌, ◌+◌, ◌<◌, ◌^◌, [], ℕ, All, length, IfOk, OnOk};
ghost use Rattle.bb_net.specs.Netlists.{first_cells, IsNetlist, ReadsBefore};
ghost use Rattle.bb_strash.specs.Inside.Extensions.{bit, gate_bit, Extends, Gives};

use crate::bit_laws::bits;
use crate::choices::add_mux;
use crate::gates::{add_and, add_not, add_or, add_xor};
use crate::key::Index;
use bb_bits::NoMemory;
use bb_net::{Cell, Net};
use std::alloc::Global;
use std::marker::Model;

/// A netlist without boxes, built cell by cell. Gates over the same cells are shared, and those that a constant, an
/// equal or a complementary operand decides are not made.
#[derive(Debug, Drop)]
pub struct Hashed {
    net: Net,
    index: Index,
}

impl Model for Hashed {
    ghost use Rattle.bb_net.specs.Netlists.{Netlist};

    ghost Value = { Netlist };

    ghost view = { λ h. h.net };
}

fn add_cell(net: &mut Net, index: &mut Index, cell: Cell) -> Result<u32, NoMemory>
    requires none { net.old.boxes ≡ [] }
    requires reads { ReadsBefore net.old.inputs [] (length net.old.cells) cell }
    requires gate { (b p : ℕ) → cell ≡ Cell.BoxOut b p → ⊥ }
    requires room { length net.old.cells + 5 < 2 ^ 32 }
    ensures extends { OnOk result (Extends net.old net.new 5) }
    ensures gives { IfOk result (λ place. Gives net.new place (λ x. gate_bit x (bit net.old x) cell)) }
{
    bits();
    net.keeps_its_order();
    match cell {
        Cell::Const(bit) => Ok(u32::from(bit)),
        Cell::Input(i) => Ok(i + 2),
        Cell::Not(a) => add_not(net, index, a),
        Cell::And(a, b) => add_and(net, index, a, b),
        Cell::Or(a, b) => add_or(net, index, a, b),
        Cell::Xor(a, b) => add_xor(net, index, a, b),
        Cell::Mux(c, t, e) => add_mux(net, index, c, t, e),
        Cell::BoxOut(_, _) => unreachable!(),
    }
}

impl Hashed {
    /// Constants 0 and 1 at places 0 and 1; input `i` at place `i + 2`.
    pub fn start(alloc: Global, inputs: u32) -> Result<Hashed, NoMemory>
        requires { inputs + 2 < 2 ^ 32 }
        ensures start { IfOk result (λ h.
            h ≡ record { inputs = inputs; cells = first_cells inputs; boxes = []; outs = [] }) }
    {
        let net = Net::start(alloc, inputs)?;
        let index = Index::new(alloc);
        Ok(Hashed { net, index })
    }

    /// Without outputs, which come with `finish`.
    pub fn net(&self) -> &Net
        ensures net { result.now ≡ self.now }
        ensures kept { IsNetlist self.now }
    {
        self.net.keeps_its_order();
        &self.net
    }

    /// The place of a cell with the same bit at every vector. Adds at most five cells, which bounds the size of a copy.
    pub fn add(&mut self, cell: Cell) -> Result<u32, NoMemory>
        requires none { self.old.boxes ≡ [] }
        requires reads { ReadsBefore self.old.inputs [] (length self.old.cells) cell }
        requires gate { (b p : ℕ) → cell ≡ Cell.BoxOut b p → ⊥ }
        requires room { length self.old.cells + 5 < 2 ^ 32 }
        ensures extends { OnOk result (Extends self.old self.new 5) }
        ensures gives { IfOk result (λ place. Gives self.new place (λ x. gate_bit x (bit self.old x) cell)) }
    {
        add_cell(&mut self.net, &mut self.index, cell)
    }

    /// Gives the netlist its outputs, in this order.
    pub fn finish(self, outs: Vec<u32>) -> Result<Net, NoMemory>
        requires there { All (λ place. place < length self.cells) outs.items }
        requires none { self.outs ≡ [] }
        ensures net { IfOk result (λ net. net ≡ record self { outs = outs.items }) }
    {
        let mut net = self.net;
        for out in &outs {
            net.add_out(*out)?;
        }
        Ok(net)
    }
}
