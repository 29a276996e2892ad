//! Gates of two operands. One enumeration for and, or and exclusive or lets a chain of gates be written and proved
//! once.

ghost use Rattle.std.specs.Prelude.{◌≡◌, ◌+◌, ◌-◌, ◌<◌, ◌≤◌, ◌^◌, ◌∷◌, [], All, length, map, IfOk, OnOk};
ghost use Rattle.bb_word.specs.Circuits.{joined_all};
ghost use Rattle.bb_word.specs.Laws.Formulas.{formulas};
ghost use Rattle.bb_word.specs.Inside.Adding.{Adds, nothing, with_cells, joint_cell, joint_gate, joint_none};

use bb_bits::NoMemory;
use bb_net::{Cell, Net};

#[derive(Clone, Copy)]
pub(crate) enum Joint {
    Both,
    Either,
    Differ,
}

pub(crate) fn add_gate(net: &mut Net, joint: Joint, a: u32, b: u32) -> Result<u32, NoMemory>
    requires room { length net.old.cells + 1 < 2 ^ 32 }
    requires left { a < length net.old.cells }
    requires right { b < length net.old.cells }
    ensures ok { OnOk result (net.new ≡ with_cells net.old (joint_cell joint a b ∷ [])) }
    ensures place { IfOk result (λ place. place ≡ length net.old.cells) }
{
    match joint {
        Joint::Both => net.push(Cell::And(a, b)),
        Joint::Either => net.push(Cell::Or(a, b)),
        Joint::Differ => net.push(Cell::Xor(a, b)),
    }
}

/// A chain and not a tree, though both take one cell less than there are bits: a chain is a fold over the list, as the
/// definition is.
pub(crate) fn reduce(net: &mut Net, joint: Joint, bits: &[u32]) -> Result<u32, NoMemory>
    requires some { 1 ≤ length bits.now }
    requires room { length net.old.cells + length bits.now < 2 ^ 32 }
    requires there { All (λ bit. bit < length net.old.cells) bits.now }
    ensures made { IfOk result (λ place. Adds net.old net.new (place ∷ [])
        (λ part. joined_all (joint_gate formulas joint) (joint_none formulas joint) (map part bits.now)) nothing) }
    ensures grown { OnOk result (length net.new.cells ≡ length net.old.cells + (length bits.now - 1)) }
{
    let mut so_far = bits[0];
    for i in 1..bits.len() {
        so_far = add_gate(net, joint, so_far, bits[i])?;
    }
    Ok(so_far)
}
