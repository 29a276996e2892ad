//! Widths: own widths by IEEE 1364-2005, 5.4.1 and table 5-22, and what has a wrong one. Widths saturate at 2^64 - 1;
//! see `expressions.rt` for why that is exact enough.
ghost use Rattle.std.specs.Prelude.{◌≡◌, ◌+◌, ◌≤◌, ◌^◌, ◌==◌, not, ℕ, List, max, option_map};
ghost use Rattle.bb_ast.specs.Syntax.{PlainModule};
ghost use Rattle.bb_ast.specs.Inside.Views.{expression};
ghost use Rattle.bb_ast.specs.Gates.{gate_bytes};
ghost use Rattle.bb_names.specs.Faults.{is_no_copy, reported_if, width_in, wrong_width};
ghost use Rattle.bb_names.specs.Inside.Firsts.{first_of, saturated};
ghost use Rattle.bb_names.specs.Sites.{Whole};
ghost use Rattle.bb_names.specs.Ranges.{distance, range_width};
ghost use Rattle.bb_names.specs.Widths.{operator_width};

use bb_ast::{Expr, Gate, Range, WordOp};

/// In bits, of a net and of an expression.
pub(crate) const WIDEST: u64 = 65536;

pub(crate) fn bits_between(i: u32, j: u32) -> u64
    ensures { result ≡ distance i j + 1 }
{
    u64::from(i.abs_diff(j)) + 1
}

pub(crate) fn width_of(range: Option<Range>) -> u64
    ensures width { result ≡ range_width range }
    ensures small { result ≤ 2 ^ 32 }
{
    match range {
        Some(range) => bits_between(range.left, range.right),
        None => 1,
    }
}

pub(crate) fn wider(a: u64, b: u64) -> u64
    ensures { result ≡ max a b }
{
    if a < b { b } else { a }
}

/// A shift is as wide as its left operand alone; a comparison and a truth have one bit.
pub(crate) fn operator_width(op: WordOp, left: u64, right: u64) -> u64
    ensures { result ≡ operator_width op left right }
{
    match op {
        WordOp::Plus | WordOp::Minus => wider(left, right),
        WordOp::Left | WordOp::Right => left,
        _ => 1,
    }
}

/// A replication of no copies would be an expression of no bits.
fn is_empty_repeat(expr: &Expr) -> bool
    ensures { result ≡ is_no_copy (expression expr.now) }
{
    matches!(expr, Expr::Repeat(0, _))
}

/// `repeat` before `wide`.
pub(crate) fn word_of(expr: &Expr, width: u64) -> Option<&'static [u8]>
    ensures { (text : List PlainModule) (m : PlainModule) (full : ℕ) → width_in m (expression expr.now) ≡ full
        → width ≡ saturated full
        → option_map (λ word. word.now) result ≡ first_of (wrong_width text m (Whole (expression expr.now))) }
{
    if is_empty_repeat(expr) {
        Some(b"repeat")
    } else if WIDEST < width {
        Some(b"wide")
    } else {
        None
    }
}

pub(crate) fn is_other_width(width: u64, wanted: u64) -> bool
    requires small { wanted ≤ 2 ^ 32 }
    ensures { (full : ℕ) → width ≡ saturated full → result ≡ not (full == wanted) }
{
    width < wanted || wanted < width
}

pub(crate) fn word_where(wrong: bool, word: &[u8]) -> Option<&[u8]>
    ensures { option_map (λ w. w.now) result ≡ first_of (reported_if wrong word.entry.now) }
{
    if wrong { Some(word) } else { None }
}

pub(crate) fn gate_word(gate: Gate) -> &'static [u8]
    ensures { result.now ≡ gate_bytes gate }
{
    match gate {
        Gate::And => b"and",
        Gate::Nand => b"nand",
        Gate::Or => b"or",
        Gate::Nor => b"nor",
        Gate::Xor => b"xor",
        Gate::Xnor => b"xnor",
        Gate::Buf => b"buf",
        Gate::Not => b"not",
    }
}
