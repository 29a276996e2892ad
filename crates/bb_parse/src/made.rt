//! Expressions from their parts. Where there is only one part, it is the expression itself, so the nine levels of
//! precedence leave no nodes after for a lone operand, and each expression has one syntax tree.

ghost use Rattle.std.specs.Prelude.{◌≡◌, map};
ghost use Rattle.bb_ast.specs.Syntax.{Fold};
ghost use Rattle.bb_ast.specs.Inside.Views.{expression, operand_view, arm_view};
ghost use Rattle.bb_parse.specs.Expressions.{with_signs, chain_expression, worded, conditional};
ghost use Rattle.bb_parse.specs.Inside.Steps.{Makes};

use crate::stop::Stop;
use bb_ast::{Expr, FoldOp, Op, WordOp};
use std::alloc::Global;

/// A run of signs is one node with their number: `~~a` counts two signs and makes no cell, while `~(~a)` is two runs
/// and makes two.
pub(crate) fn negation_of(alloc: Global, signs: u32, operand: Expr) -> Result<Expr, Stop>
    ensures { Makes expression result (with_signs signs (expression operand)) }
{
    if signs == 0 {
        return Ok(operand);
    }
    Ok(Expr::Not(signs, Box::new(alloc, operand)?))
}

pub(crate) fn fold_of(alloc: Global, op: FoldOp, operand: Expr) -> Result<Expr, Stop>
    ensures { Makes expression result (Fold op (expression operand)) }
{
    Ok(Expr::Fold(op, Box::new(alloc, operand)?))
}

pub(crate) fn chain_of(alloc: Global, first: Expr, rest: Vec<(Op, Expr)>) -> Result<Expr, Stop>
    ensures { Makes expression result (chain_expression (expression first) (map operand_view rest.items)) }
{
    if rest.is_empty() {
        return Ok(first);
    }
    Ok(Expr::Chain(Box::new(alloc, first)?, rest))
}

/// Apart from `chain_of`, since on words each operator decides at which width it takes the operands on its left.
pub(crate) fn words_of(alloc: Global, first: Expr, rest: Vec<(WordOp, Expr)>) -> Result<Expr, Stop>
    ensures { Makes expression result (worded (expression first) (map operand_view rest.items)) }
{
    if rest.is_empty() {
        return Ok(first);
    }
    Ok(Expr::Words(Box::new(alloc, first)?, rest))
}

pub(crate) fn conditional_of(
    alloc: Global,
    arms: Vec<(Expr, Expr)>,
    last: Expr,
) -> Result<Expr, Stop>
    ensures { Makes expression result (conditional (map arm_view arms.items) (expression last)) }
{
    if arms.is_empty() {
        return Ok(last);
    }
    Ok(Expr::Cond(arms, Box::new(alloc, last)?))
}
