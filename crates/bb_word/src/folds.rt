//! Reductions (IEEE 1364-2005, 5.1.11) and `!` (5.1.9), as chains of gates from the most significant bit on. In this
//! crate words have their least significant bit first, as carries go. On no bits the definitions give a constant, so
//! that the laws need no premise on widths; no text has such a word.

ghost use Rattle.std.specs.Prelude.{◌≡◌, ◌+◌, ◌-◌, ◌<◌, ◌≤◌, ◌^◌, ◌∷◌, [], All, length, map, IfOk, OnOk};
ghost use Rattle.bb_word.specs.Circuits.{folded, inverted, truths};
ghost use Rattle.bb_word.specs.Folds.{fold_circuit, fold_cells};
ghost use Rattle.bb_word.specs.Laws.Formulas.{formulas};
ghost use Rattle.bb_word.specs.Inside.Adding.{Adds, nothing, joint_gate, joint_none};

use crate::joint::{Joint, reduce};
use crate::sums::add_complement;
use bb_ast::FoldOp;
use bb_bits::NoMemory;
use bb_net::Net;
use std::alloc::Global;

/// From the most significant bit on: the definition fixes the order, since a cell is known by its formula.
pub(crate) fn add_folded(
    alloc: Global,
    net: &mut Net,
    joint: Joint,
    bits: &[u32],
) -> Result<u32, NoMemory>
    requires some { 1 ≤ length bits.now }
    requires room { length net.old.cells + length bits.now < 2 ^ 32 }
    requires there { All (λ bit. bit < length net.old.cells) bits.now }
    ensures made { IfOk result (λ place. Adds net.old net.new (place ∷ [])
        (λ part. folded (joint_gate formulas joint) (joint_none formulas joint) (map part bits.now)) nothing) }
    ensures grown { OnOk result (length net.new.cells ≡ length net.old.cells + (length bits.now - 1)) }
{
    let mut highest_first = Vec::from_slice(alloc, bits)?;
    highest_first.reverse();
    reduce(net, joint, &highest_first)
}

fn add_inverted(alloc: Global, net: &mut Net, joint: Joint, bits: &[u32]) -> Result<u32, NoMemory>
    requires some { 1 ≤ length bits.now }
    requires room { length net.old.cells + length bits.now < 2 ^ 32 }
    requires there { All (λ bit. bit < length net.old.cells) bits.now }
    ensures made { IfOk result (λ place. Adds net.old net.new (place ∷ [])
        (λ part.
        inverted formulas (folded (joint_gate formulas joint) (joint_none formulas joint) (map part bits.now)))
        nothing) }
    ensures grown { OnOk result (length net.new.cells ≡ length net.old.cells + length bits.now) }
{
    let place = add_folded(alloc, net, joint, bits)?;
    add_complement(net, place)
}

/// `!` is the complement of "some bit is 1", as `~|` is.
pub(crate) fn add_fold(
    alloc: Global,
    net: &mut Net,
    op: FoldOp,
    bits: &[u32],
) -> Result<u32, NoMemory>
    requires some { 1 ≤ length bits.now }
    requires room { length net.old.cells + length bits.now < 2 ^ 32 }
    requires there { All (λ bit. bit < length net.old.cells) bits.now }
    ensures made { IfOk result (λ place.
        Adds net.old net.new (place ∷ []) (λ part. fold_circuit formulas op (map part bits.now)) nothing) }
    ensures grown { OnOk result (length net.new.cells ≡ length net.old.cells + fold_cells op (length bits.now)) }
{
    match op {
        FoldOp::All => add_folded(alloc, net, Joint::Both, bits),
        FoldOp::Any => add_folded(alloc, net, Joint::Either, bits),
        FoldOp::Odd => add_folded(alloc, net, Joint::Differ, bits),
        FoldOp::NotAll => add_inverted(alloc, net, Joint::Both, bits),
        FoldOp::None | FoldOp::NotAny => add_inverted(alloc, net, Joint::Either, bits),
        FoldOp::NotOdd => add_inverted(alloc, net, Joint::Differ, bits),
    }
}
