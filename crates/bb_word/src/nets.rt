//! Netlists of one operator. Their inputs and outputs have the most significant bit first, as values of expressions do,
//! while circuits start at the least significant one; words are turned round here, once for the operands and once for
//! the result.

ghost use Rattle.std.specs.Prelude.{◌≡◌, ◌+◌, ◌<◌, ◌≤◌, ◌^◌, ◌++◌, ◌∷◌, [], Bool, List, All, length, map, reverse};
ghost use Rattle.std.specs.Prelude.{IfOk, OnOk};
ghost use Rattle.std.specs.List.{range_with_len};
ghost use Rattle.bb_bits.specs.Numbers.{number_of};
ghost use Rattle.bb_net.specs.Values.{bit_of, flat};
ghost use Rattle.bb_word.specs.Folds.{fold_circuit, fold_cells, fold_bit};
ghost use Rattle.bb_word.specs.Laws.Formulas.{formulas};
ghost use Rattle.bb_word.specs.Inside.Adding.{with_outs};
ghost use Rattle.bb_word.specs.Meanings.{word_number, word_width};
ghost use Rattle.bb_word.specs.Words.{word_circuit, word_cells, AreWidths};
ghost use Rattle.bb_word.specs.Inside.Nets.{IsCircuit, inputs_from};

use crate::folds::add_fold;
use crate::words::add_word;
use bb_ast::{FoldOp, WordOp};
use bb_bits::{NoMemory, number_doubles};
use bb_net::{Net, value_is_unique};
use std::alloc::Global;

/// `first` is the place of the most significant bit; the result has the least significant bit first.
fn operand(alloc: Global, first: u32, width: u32) -> Result<Vec<u32>, NoMemory>
    requires { first + width < 2 ^ 32 }
    ensures { IfOk result (λ places. places.items ≡ reverse (range_with_len first width)) }
{
    let mut places = Vec::with_capacity(alloc, width as usize)?;
    for i in 0..width {
        places.push(first + i)?;
    }
    places.reverse();
    Ok(places)
}

fn add_outs(net: &mut Net, places: &[u32]) -> Result<(), NoMemory>
    requires there { All (λ place. place < length net.old.cells) places.now }
    ensures ok { OnOk result (net.new ≡ with_outs net.old places.now) }
{
    for place in places {
        net.add_out(*place)?;
    }
    Ok(())
}

/// Inputs are the bits of the left word and then of the right one, and outputs those of the result, the most
/// significant bit of each word first.
///
/// Widths are from 1 to 65,536, and both are equal except for `<<`, `>>`, `&&` and `||`; the operator has at most
/// 2,000,000 cells. A sum, a difference and a shift have the width of the left word, and every other result has one
/// bit.
pub fn word(alloc: Global, op: WordOp, left: u32, right: u32) -> Result<Net, NoMemory>
    requires widths { AreWidths op left right }
    requires few_left { left ≤ 65536 }
    requires few_right { right ≤ 65536 }
    requires few_cells { word_cells op left right ≤ 2000000 }
    ensures circuit { IfOk result (λ net. IsCircuit net (left + right) (word_circuit formulas op
        (reverse (inputs_from 0 left)) (reverse (inputs_from left right)))) }
    ensures value { IfOk result (λ net. (a b : List Bool) → length a ≡ left → length b ≡ right
        → number_of (map (bit_of (flat net (a ++ b) [])) net.outs) ≡ word_number op a b) }
    ensures width { IfOk result (λ net. length net.outs ≡ word_width op left) }
    ensures count { IfOk result (λ net. length net.cells ≡ left + right + 2 + word_cells op left right) }
{
    number_doubles();
    value_is_unique();
    let mut net = Net::start(alloc, left + right)?;
    let first = operand(alloc, 2, left)?;
    let second = operand(alloc, 2 + left, right)?;
    let mut result = add_word(alloc, &mut net, op, &first, &second)?;
    result.reverse();
    add_outs(&mut net, &result)?;
    net.keeps_its_order();
    Ok(net)
}

/// Inputs are the bits of the word, the most significant first, and the only output is the result.
///
/// The width is from 1 to 65,536. After the constants and the inputs, the cells are those of the circuit, in its order.
pub fn fold(alloc: Global, op: FoldOp, width: u32) -> Result<Net, NoMemory>
    requires some { 1 ≤ width }
    requires few { width ≤ 65536 }
    ensures circuit { IfOk result (λ net.
        IsCircuit net width (fold_circuit formulas op (reverse (inputs_from 0 width)))) }
    ensures value { IfOk result (λ net.
        (a : List Bool) → length a ≡ width → map (bit_of (flat net a [])) net.outs ≡ fold_bit op a ∷ []) }
    ensures count { IfOk result (λ net. length net.cells ≡ width + 2 + fold_cells op width) }
{
    value_is_unique();
    let mut net = Net::start(alloc, width)?;
    let word = operand(alloc, 2, width)?;
    let place = add_fold(alloc, &mut net, op, &word)?;
    net.add_out(place)?;
    net.keeps_its_order();
    Ok(net)
}
