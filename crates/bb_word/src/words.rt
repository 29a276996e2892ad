//! One operator on two words. The six comparisons come from two circuits: `>` and `<=` exchange their operands, and
//! `<=`, `>=` and `!=` add one complement.

ghost use Rattle.std.specs.Prelude.{◌≡◌, ◌+◌, ◌-◌, ◌*◌, ◌<◌, ◌≤◌, ◌^◌, ◌∷◌, [], All, length, map, IfOk, OnOk};
ghost use Rattle.bb_word.specs.Circuits.{sum, inverted, less, equal, truths};
ghost use Rattle.bb_word.specs.Laws.Formulas.{formulas};
ghost use Rattle.bb_word.specs.Inside.Adding.{Adds, HasConstants, nothing, joint_gate};
ghost use Rattle.bb_word.specs.Words.{word_circuit, word_cells, AreWidths};

use crate::folds::add_folded;
use crate::joint::{Joint, reduce};
use crate::orders::{add_equal, add_less};
use crate::shifts::{Direction, add_shift};
use crate::sums::{add_complement, add_difference, add_sum};
use bb_ast::WordOp;
use bb_bits::NoMemory;
use bb_net::Net;
use std::alloc::Global;

/// `&&` and `||` (IEEE 1364-2005, 5.1.9): each word is true if some bit is 1, so widths need not be equal.
fn add_truths(
    alloc: Global,
    net: &mut Net,
    joint: Joint,
    left: &[u32],
    right: &[u32],
) -> Result<u32, NoMemory>
    requires some_left { 1 ≤ length left.now }
    requires some_right { 1 ≤ length right.now }
    requires room { length net.old.cells + length left.now + length right.now + 1 < 2 ^ 32 }
    requires left { All (λ bit. bit < length net.old.cells) left.now }
    requires right { All (λ bit. bit < length net.old.cells) right.now }
    ensures made { IfOk result (λ place. Adds net.old net.new (place ∷ [])
        (λ part. truths formulas (joint_gate formulas joint) (map part left.now) (map part right.now)) nothing) }
    ensures grown { OnOk result (length net.new.cells
        ≡ length net.old.cells + ((length left.now - 1) + (length right.now - 1) + 1)) }
{
    let first = add_folded(alloc, net, Joint::Either, left)?;
    let second = add_folded(alloc, net, Joint::Either, right)?;
    reduce(net, joint, &[first, second])
}

fn add_not_less(net: &mut Net, left: &[u32], right: &[u32]) -> Result<u32, NoMemory>
    requires same { length left.now ≡ length right.now }
    requires room { length net.old.cells + 2 * length left.now + 1 < 2 ^ 32 }
    requires constants { HasConstants net.old.cells }
    requires left { All (λ bit. bit < length net.old.cells) left.now }
    requires right { All (λ bit. bit < length net.old.cells) right.now }
    ensures made { IfOk result (λ place. Adds net.old net.new (place ∷ [])
        (λ part. inverted formulas (less formulas formulas.zero (map part left.now) (map part right.now))) nothing) }
    ensures grown { OnOk result (length net.new.cells ≡ length net.old.cells + (2 * length left.now + 1)) }
{
    let less = add_less(net, left, right)?;
    let place = add_complement(net, less)?;
    Ok(place)
}

fn add_unequal(alloc: Global, net: &mut Net, left: &[u32], right: &[u32]) -> Result<u32, NoMemory>
    requires same { length left.now ≡ length right.now }
    requires some { 1 ≤ length left.now }
    requires room { length net.old.cells + 3 * length left.now + 1 < 2 ^ 32 }
    requires left { All (λ bit. bit < length net.old.cells) left.now }
    requires right { All (λ bit. bit < length net.old.cells) right.now }
    ensures made { IfOk result (λ place. Adds net.old net.new (place ∷ [])
        (λ part. inverted formulas (equal formulas (map part left.now) (map part right.now))) nothing) }
    ensures grown { OnOk result (length net.new.cells
        ≡ length net.old.cells + (2 * length left.now + (length left.now - 1) + 1)) }
{
    let equal = add_equal(alloc, net, left, right)?;
    let place = add_complement(net, equal)?;
    Ok(place)
}

fn alone(alloc: Global, place: u32) -> Result<Vec<u32>, NoMemory>
    ensures { IfOk result (λ places. places.items ≡ place ∷ []) }
{
    let mut places = Vec::with_capacity(alloc, 1)?;
    places.push(place)?;
    Ok(places)
}

fn add_plain_sum(
    alloc: Global,
    net: &mut Net,
    left: &[u32],
    right: &[u32],
) -> Result<Vec<u32>, NoMemory>
    requires same { length left.now ≡ length right.now }
    requires room { length net.old.cells + 5 * length left.now < 2 ^ 32 }
    requires constants { HasConstants net.old.cells }
    requires left { All (λ bit. bit < length net.old.cells) left.now }
    requires right { All (λ bit. bit < length net.old.cells) right.now }
    ensures made { IfOk result (λ places. Adds net.old net.new places.items
        (λ part. sum formulas formulas.zero (map part left.now) (map part right.now)) nothing) }
    ensures grown { OnOk result (length net.new.cells ≡ length net.old.cells + 5 * length left.now) }
{
    add_sum(alloc, net, 0, left, right)
}

#[tactic(auto, using(crate::proofs::WordSteps::one_place))]
pub(crate) fn add_word(
    alloc: Global,
    net: &mut Net,
    op: WordOp,
    left: &[u32],
    right: &[u32],
) -> Result<Vec<u32>, NoMemory>
    requires widths { AreWidths op (length left.now) (length right.now) }
    requires few_left { length left.now ≤ 65536 }
    requires few_right { length right.now ≤ 65536 }
    requires few_cells { word_cells op (length left.now) (length right.now) ≤ 2000000 }
    requires room { length net.old.cells ≤ 200000 }
    requires constants { HasConstants net.old.cells }
    requires left { All (λ bit. bit < length net.old.cells) left.now }
    requires right { All (λ bit. bit < length net.old.cells) right.now }
    ensures made { IfOk result (λ places. Adds net.old net.new places.items
        (λ part. word_circuit formulas op (map part left.now) (map part right.now)) nothing) }
    ensures grown { OnOk result (length net.new.cells
        ≡ length net.old.cells + word_cells op (length left.now) (length right.now)) }
{
    match op {
        WordOp::Plus => add_plain_sum(alloc, net, left, right),
        WordOp::Minus => add_difference(alloc, net, left, right),
        WordOp::Left => add_shift(alloc, net, Direction::Up, left, right),
        WordOp::Right => add_shift(alloc, net, Direction::Down, left, right),
        WordOp::Equal => {
            let place = add_equal(alloc, net, left, right)?;
            alone(alloc, place)
        }
        WordOp::NotEqual => {
            let place = add_unequal(alloc, net, left, right)?;
            alone(alloc, place)
        }
        WordOp::Less => {
            let place = add_less(net, left, right)?;
            alone(alloc, place)
        }
        WordOp::LessEqual => {
            let place = add_not_less(net, right, left)?;
            alone(alloc, place)
        }
        WordOp::Greater => {
            let place = add_less(net, right, left)?;
            alone(alloc, place)
        }
        WordOp::GreaterEqual => {
            let place = add_not_less(net, left, right)?;
            alone(alloc, place)
        }
        WordOp::Both => {
            let place = add_truths(alloc, net, Joint::Both, left, right)?;
            alone(alloc, place)
        }
        WordOp::Either => {
            let place = add_truths(alloc, net, Joint::Either, left, right)?;
            alone(alloc, place)
        }
    }
}
