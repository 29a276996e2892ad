//! The widths at which operators on words take their operands (IEEE 1364-2005, 5.4.1 and table 5-22). A level of
//! operators is a fold from the left over operands that each have an own width and a result at every width; one step
//! serves widths, values, cells and counts.

ghost use Rattle.std.specs.Prelude.{◌≡◌, All, drop, map};
ghost use Rattle.bb_ast.specs.Inside.Views.{expression, operand_view};
ghost use Rattle.bb_ast.specs.Levels.{IsOneLevel};
ghost use Rattle.bb_ast.specs.Syntax.{word_operands};
ghost use Rattle.bb_names.specs.Inside.Checked.{module_facts};
ghost use Rattle.bb_names.specs.Widths.{own_width, operator_width, first_at, second_at};
ghost use Rattle.bb_expr.specs.Inside.Fit.{AreFit, ranges_in};
ghost use Rattle.bb_expr.specs.Inside.Levels.{taken};

use crate::width::width_of;
use bb_ast::{Expr, WordOp};
use bb_names::CheckedModule;

pub(crate) fn operator_width(op: WordOp, left: u32, right: u32) -> u32
    ensures { result ≡ operator_width op left right }
{
    match op {
        WordOp::Plus | WordOp::Minus => left.max(right),
        WordOp::Left | WordOp::Right => left,
        _ => 1,
    }
}

/// A sum, a difference and the left side of a shift take the context's width; a comparison takes both sides at the
/// wider of the two; a truth takes each by itself.
fn first_at(op: WordOp, left: u32, right: u32, width: u32) -> u32
    ensures { result ≡ first_at op left right width }
{
    match op {
        WordOp::Plus | WordOp::Minus | WordOp::Left | WordOp::Right => width,
        WordOp::Both | WordOp::Either => left,
        _ => left.max(right),
    }
}

/// As `first_at`, but for the amount of a shift, which is taken by itself.
fn second_at(op: WordOp, left: u32, right: u32, width: u32) -> u32
    ensures { result ≡ second_at op left right width }
{
    match op {
        WordOp::Plus | WordOp::Minus => width,
        WordOp::Left | WordOp::Right | WordOp::Both | WordOp::Either => right,
        _ => left.max(right),
    }
}

/// The width at which the operands before operator `next` are taken, where the level is taken at a width; `next` past
/// the last means none follows.
///
/// That operator alone decides. Where later ones matter, all operators of the level take their left operand at the
/// width of the level, since a level has one kind of operators.
pub(crate) fn taken_at(
    scope: &CheckedModule,
    left: u32,
    rest: &[(WordOp, Expr)],
    next: usize,
    width: u32,
) -> u32
    requires fit { All (λ x. AreFit (module_facts scope.now) x.1) (map operand_view rest.now) }
    requires level { IsOneLevel (word_operands (map operand_view rest.now)) }
    ensures { result ≡ taken (ranges_in (module_facts scope.now)) left (map operand_view (drop next rest.now)) width }
{
    match rest.get(next) {
        Some((op, operand)) => first_at(*op, left, width_of(scope, operand), width),
        None => width,
    }
}

/// At one operator of a level: its own width, the one at which its result is taken, and those of its operands.
#[derive(Clone, Copy, Debug)]
pub(crate) struct Widths {
    pub(crate) own: u32,
    pub(crate) context: u32,
    pub(crate) first: u32,
    pub(crate) second: u32,
}

/// `left` is the own width of the operands before the operator, and `next` the place of the operator after it.
pub(crate) fn widths_at(
    scope: &CheckedModule,
    op: WordOp,
    operand: &Expr,
    left: u32,
    rest: &[(WordOp, Expr)],
    next: usize,
    width: u32,
) -> Widths
    requires operand { AreFit (module_facts scope.now) (expression operand.now) }
    requires fit { All (λ x. AreFit (module_facts scope.now) x.1) (map operand_view rest.now) }
    requires level { IsOneLevel (word_operands (map operand_view rest.now)) }
    ensures own { result.own
        ≡ operator_width op left (own_width (ranges_in (module_facts scope.now)) (expression operand.now)) }
    ensures context { result.context
        ≡ taken (ranges_in (module_facts scope.now)) result.own (map operand_view (drop next rest.now)) width }
    ensures first { result.first
        ≡ first_at op left (own_width (ranges_in (module_facts scope.now)) (expression operand.now)) result.context }
    ensures second { result.second
        ≡ second_at op left (own_width (ranges_in (module_facts scope.now)) (expression operand.now)) result.context }
{
    let right = width_of(scope, operand);
    let own = operator_width(op, left, right);
    let context = taken_at(scope, own, rest, next, width);
    Widths {
        own,
        context,
        first: first_at(op, left, right, context),
        second: second_at(op, left, right, context),
    }
}
