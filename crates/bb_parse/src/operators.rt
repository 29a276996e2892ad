//! The operators of each row of precedence (IEEE 1364-2005, table 5-4), by the number of the row: 0 binds tightest. One
//! rule by number replaces nine, so `level` in `expr.rt` is one loop. Operators on bits and on words have types of
//! their own, since they make different nodes.

ghost use Rattle.std.specs.Prelude.{◌≡◌, length};
ghost use Rattle.bb_ast.specs.Levels.{level_of};
ghost use Rattle.bb_parse.specs.Expressions.{on_one, bit_operator_of, bit_row, on_words, bit_operator, word_operator};
ghost use Rattle.bb_parse.specs.Expressions.{is_bitwise};
ghost use Rattle.bb_parse.specs.Inside.Expressions.{read_signs};

use crate::cursor::Cursor;
use bb_ast::{FoldOp, Op, WordOp};
use bb_lex::Mark;

/// Without `~`, which comes in runs (`signs`).
pub(crate) fn on_one(mark: Mark) -> Option<FoldOp>
    ensures { result ≡ on_one mark }
{
    match mark {
        Mark::Bang => Some(FoldOp::None),
        Mark::Amp => Some(FoldOp::All),
        Mark::TildeAmp => Some(FoldOp::NotAll),
        Mark::Bar => Some(FoldOp::Any),
        Mark::TildeBar => Some(FoldOp::NotAny),
        Mark::Caret => Some(FoldOp::Odd),
        Mark::TildeCaret | Mark::CaretTilde => Some(FoldOp::NotOdd),
        _ => None,
    }
}

pub(crate) fn on_bits(mark: Mark) -> Option<Op>
    ensures { result ≡ bit_operator_of mark }
{
    match mark {
        Mark::Amp => Some(Op::And),
        Mark::Caret => Some(Op::Xor),
        Mark::TildeCaret | Mark::CaretTilde => Some(Op::Xnor),
        Mark::Bar => Some(Op::Or),
        _ => None,
    }
}

fn bit_row(op: Op) -> u32
    ensures { result ≡ bit_row op }
{
    match op {
        Op::And => 4,
        Op::Xor | Op::Xnor => 5,
        Op::Or => 6,
    }
}

pub(crate) fn on_words(mark: Mark) -> Option<WordOp>
    ensures { result ≡ on_words mark }
{
    match mark {
        Mark::Plus => Some(WordOp::Plus),
        Mark::Minus => Some(WordOp::Minus),
        Mark::LessLess => Some(WordOp::Left),
        Mark::GreaterGreater => Some(WordOp::Right),
        Mark::Less => Some(WordOp::Less),
        Mark::LessEqual => Some(WordOp::LessEqual),
        Mark::Greater => Some(WordOp::Greater),
        Mark::GreaterEqual => Some(WordOp::GreaterEqual),
        Mark::EqualEqual => Some(WordOp::Equal),
        Mark::BangEqual => Some(WordOp::NotEqual),
        Mark::AmpAmp => Some(WordOp::Both),
        Mark::BarBar => Some(WordOp::Either),
        _ => None,
    }
}

fn word_row(op: WordOp) -> u32
    ensures { result ≡ level_of op }
{
    match op {
        WordOp::Plus | WordOp::Minus => 0,
        WordOp::Left | WordOp::Right => 1,
        WordOp::Less | WordOp::LessEqual | WordOp::Greater | WordOp::GreaterEqual => 2,
        WordOp::Equal | WordOp::NotEqual => 3,
        WordOp::Both => 7,
        WordOp::Either => 8,
    }
}

pub(crate) fn bit_operator(row: u32, mark: Mark) -> Option<Op>
    ensures { result ≡ bit_operator row mark }
{
    let op = on_bits(mark)?;
    if bit_row(op) == row { Some(op) } else { None }
}

pub(crate) fn word_operator(row: u32, mark: Mark) -> Option<WordOp>
    ensures { result ≡ word_operator row mark }
{
    let op = on_words(mark)?;
    if word_row(op) == row { Some(op) } else { None }
}

pub(crate) fn is_bitwise(row: u32) -> bool
    ensures { result ≡ is_bitwise row }
{
    row == 4 || row == 5 || row == 6
}

#[tactic(auto, using(crate::proofs::Loops::signs_looping))]
pub(crate) fn signs(cursor: &mut Cursor<'_>) -> u32
    ensures { read_signs (length cursor.old) cursor.old ≡ (result, cursor.new) }
{
    let mut signs = 0;
    for turn in 0..cursor.len() {
        if !cursor.takes(Mark::Tilde) {
            return signs;
        }
        signs += 1;
    }
    signs
}
