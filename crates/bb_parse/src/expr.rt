//! Expressions (IEEE 1364-2005, A.8.3 and table 5-4) by recursive descent. Apart from the nine levels of precedence,
//! the recursion goes down through brackets and the middle of conditionals alone, with a depth that falls, so the stack
//! is bounded by the limit on nesting. Chains of operators and of conditionals are lists and not trees of pairs, so a
//! sum or a case table of thousands of terms needs no depth.
//!
//! Parentheses leave no node. So `buf((y), a)` has an output that may be assigned, and `{(3), a}` has a plain number as
//! a part, as `{3, a}` has.

ghost use Rattle.std.specs.Prelude.{◌<◌, ◌≤◌, map, length};
ghost use Rattle.bb_ast.specs.Inside.Views.{expression, operand_view, arm_view};
ghost use Rattle.bb_parse.specs.Expressions.{bit_operator, word_operator};
ghost use Rattle.bb_parse.specs.Inside.Steps.{Gives, read_list};
ghost use Rattle.bb_parse.specs.Inside.Expressions.{read_expr, read_arm, read_conditional, read_level, read_row};
ghost use Rattle.bb_parse.specs.Inside.Expressions.{read_operands};
ghost use Rattle.bb_parse.specs.Inside.Expressions.{read_negated, read_fold, read_unary, read_primary, read_round};
ghost use Rattle.bb_parse.specs.Inside.Expressions.{read_braces, bracket_at};

use crate::cursor::Cursor;
use crate::list::begun;
use crate::made::{chain_of, conditional_of, fold_of, negation_of, words_of};
use crate::operators::{is_bitwise, signs};
use crate::select::select;
use crate::stop::Stop;
use bb_ast::{Expr, Op, WordOp};
use bb_lex::{Kind, Mark};
use std::alloc::Global;

#[cycle(expr)]
#[tactic(auto, unfolding(crate::specs::Inside::Expressions::read_expr))]
pub(crate) fn expr(alloc: Global, cursor: &mut Cursor<'_>, depth: u32) -> Result<Expr, Stop>
    ensures { Gives expression result cursor.new (read_expr depth cursor.old) }
{
    if depth == 0 {
        return Err(Stop::Amiss);
    }
    conditional(alloc, cursor, depth - 1)
}

/// Conditionals group to the right (5.1.13), but the last branch is read by this loop and not by recursion. What is
/// between `?` and `:`, and in brackets below, nests to less than `inner` levels.
#[cycle(expr)]
fn conditional(alloc: Global, cursor: &mut Cursor<'_>, inner: u32) -> Result<Expr, Stop>
    ensures { Gives expression result cursor.new (read_conditional (read_expr inner) cursor.old) }
{
    let mut arms = Vec::new(alloc);
    for turn in 0..cursor.len() {
        let value = level(alloc, cursor, inner, 9)?;
        if !cursor.takes(Mark::Query) {
            return conditional_of(alloc, arms, value);
        }
        let next = arm(alloc, cursor, inner, value)?;
        arms.push(next)?;
    }
    Err(Stop::Amiss)
}

#[cycle(expr)]
#[tactic(auto, unfolding(crate::specs::Inside::Expressions::read_arm))]
fn arm(
    alloc: Global,
    cursor: &mut Cursor<'_>,
    inner: u32,
    condition: Expr,
) -> Result<(Expr, Expr), Stop>
    ensures { Gives arm_view result cursor.new (read_arm (expression condition) (read_expr inner) cursor.old) }
{
    let chosen = expr(alloc, cursor, inner)?;
    cursor.mark(Mark::Colon)?;
    Ok((condition, chosen))
}

/// Precedence climbing: level 0 is a unary expression, and level n + 1 is a chain of operands of level n by operators
/// of row n. What was read up to a row is the first operand of the next row.
#[cycle(expr)]
fn level(alloc: Global, cursor: &mut Cursor<'_>, inner: u32, height: u32) -> Result<Expr, Stop>
    requires { height ≤ 9 }
    ensures { Gives expression result cursor.new (read_level height (read_expr inner) cursor.old) }
{
    let mut value = unary(alloc, cursor, inner)?;
    for row in 0..height {
        // No row goes on, so a lone operand does not walk through all nine.
        if !cursor.begins_operator() {
            return Ok(value);
        }
        value = chain(alloc, cursor, inner, row, value)?;
    }
    Ok(value)
}

#[cycle(expr)]
#[tactic(auto, unfolding(crate::specs::Inside::Expressions::read_row))]
fn chain(
    alloc: Global,
    cursor: &mut Cursor<'_>,
    inner: u32,
    row: u32,
    first: Expr,
) -> Result<Expr, Stop>
    requires { row < 9 }
    ensures { Gives expression result cursor.new (read_row row (read_level row (read_expr inner)) (expression first)
        cursor.old) }
{
    if is_bitwise(row) {
        let rest = bits(alloc, cursor, inner, row)?;
        return chain_of(alloc, first, rest);
    }
    let rest = words(alloc, cursor, inner, row)?;
    words_of(alloc, first, rest)
}

#[cycle(expr)]
fn bits(
    alloc: Global,
    cursor: &mut Cursor<'_>,
    inner: u32,
    row: u32,
) -> Result<Vec<(Op, Expr)>, Stop>
    requires { row < 9 }
    ensures { Gives (λ rest. map operand_view rest.items) result cursor.new
        (read_operands (bit_operator row) (read_level row (read_expr inner)) (length cursor.old) cursor.old) }
{
    let mut rest = Vec::new(alloc);
    for turn in 0..cursor.len() {
        let Some(op) = cursor.bit_operator(row) else {
            return Ok(rest);
        };
        cursor.skip();
        let next = level(alloc, cursor, inner, row)?;
        rest.push((op, next))?;
    }
    Ok(rest)
}

#[cycle(expr)]
fn words(
    alloc: Global,
    cursor: &mut Cursor<'_>,
    inner: u32,
    row: u32,
) -> Result<Vec<(WordOp, Expr)>, Stop>
    requires { row < 9 }
    ensures { Gives (λ rest. map operand_view rest.items) result cursor.new
        (read_operands (word_operator row) (read_level row (read_expr inner)) (length cursor.old) cursor.old) }
{
    let mut rest = Vec::new(alloc);
    for turn in 0..cursor.len() {
        let Some(op) = cursor.word_operator(row) else {
            return Ok(rest);
        };
        cursor.skip();
        let next = level(alloc, cursor, inner, row)?;
        rest.push((op, next))?;
    }
    Ok(rest)
}

#[cycle(expr)]
#[tactic(auto, unfolding(crate::specs::Inside::Expressions::read_negated))]
fn unary(alloc: Global, cursor: &mut Cursor<'_>, inner: u32) -> Result<Expr, Stop>
    ensures { Gives expression result cursor.new (read_unary (read_expr inner) cursor.old) }
{
    let signs = signs(cursor);
    let operand = fold(alloc, cursor, inner)?;
    negation_of(alloc, signs, operand)
}

#[cycle(expr)]
#[tactic(auto, unfolding(crate::specs::Inside::Expressions::read_fold))]
fn fold(alloc: Global, cursor: &mut Cursor<'_>, inner: u32) -> Result<Expr, Stop>
    ensures { Gives expression result cursor.new (read_fold (read_expr inner) cursor.old) }
{
    let Some(op) = cursor.operator_on_one() else {
        return primary(alloc, cursor, inner);
    };
    cursor.skip();
    let operand = negated(alloc, cursor, inner)?;
    fold_of(alloc, op, operand)
}

/// After a reduction only `~` may come: the language has at most one reduction before a primary.
#[cycle(expr)]
#[tactic(auto, unfolding(crate::specs::Inside::Expressions::read_negated))]
fn negated(alloc: Global, cursor: &mut Cursor<'_>, inner: u32) -> Result<Expr, Stop>
    ensures { Gives expression result cursor.new (read_negated (read_primary (read_expr inner)) cursor.old) }
{
    let signs = signs(cursor);
    let operand = primary(alloc, cursor, inner)?;
    negation_of(alloc, signs, operand)
}

#[cycle(expr)]
#[tactic(auto, unfolding(crate::specs::Inside::Expressions::read_primary))]
fn primary(alloc: Global, cursor: &mut Cursor<'_>, inner: u32) -> Result<Expr, Stop>
    ensures { Gives expression result cursor.new (read_primary (read_expr inner) cursor.old) }
{
    match cursor.kind() {
        Some(Kind::Name) => select(alloc, cursor),
        Some(Kind::Sized) => Ok(Expr::Sized(cursor.sized(alloc)?)),
        Some(Kind::Plain) => Ok(Expr::Plain(cursor.plain()?)),
        Some(Kind::Mark(mark)) => {
            cursor.skip();
            bracket(alloc, cursor, inner, mark)
        }
        _ => Err(Stop::Amiss),
    }
}

#[cycle(expr)]
#[tactic(auto, unfolding(crate::specs::Inside::Expressions::read_round))]
fn bracket(alloc: Global, cursor: &mut Cursor<'_>, inner: u32, mark: Mark) -> Result<Expr, Stop>
    ensures { Gives expression result cursor.new (bracket_at mark (read_expr inner) cursor.old) }
{
    match mark {
        Mark::LeftRound => {
            let inside = expr(alloc, cursor, inner)?;
            cursor.mark(Mark::RightRound)?;
            Ok(inside)
        }
        Mark::LeftBrace => braces(alloc, cursor, inner),
        _ => Err(Stop::Amiss),
    }
}

#[cycle(expr)]
#[tactic(auto, unfolding(crate::specs::Inside::Expressions::read_braces))]
fn braces(alloc: Global, cursor: &mut Cursor<'_>, inner: u32) -> Result<Expr, Stop>
    ensures { Gives expression result cursor.new (read_braces (read_expr inner) cursor.old) }
{
    if cursor.begins_repeat() {
        let count = cursor.plain()?;
        cursor.skip();
        let parts = exprs(alloc, cursor, inner)?;
        cursor.mark(Mark::RightBrace)?;
        cursor.mark(Mark::RightBrace)?;
        return Ok(Expr::Repeat(count, parts));
    }
    let parts = exprs(alloc, cursor, inner)?;
    cursor.mark(Mark::RightBrace)?;
    Ok(Expr::Concat(parts))
}

#[cycle(expr)]
pub(crate) fn exprs(alloc: Global, cursor: &mut Cursor<'_>, depth: u32) -> Result<Vec<Expr>, Stop>
    ensures { Gives (λ parts. map expression parts.items) result cursor.new (read_list (read_expr depth) cursor.old) }
{
    let first = expr(alloc, cursor, depth)?;
    let mut parts = begun(alloc, first)?;
    for turn in 0..cursor.len() {
        if !cursor.takes(Mark::Comma) {
            return Ok(parts);
        }
        let part = expr(alloc, cursor, depth)?;
        parts.push(part)?;
    }
    Ok(parts)
}
