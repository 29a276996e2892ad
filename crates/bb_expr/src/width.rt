//! Own widths of expressions (IEEE 1364-2005, 5.4.1, table 5-22), for expressions without faults: each width is at most
//! 65,536, so 32 bits suffice where bb_names needs 64 and saturates.

ghost use Rattle.std.specs.Prelude.{◌≡◌, ◌≤◌, map, sum, All};
ghost use Rattle.bb_ast.specs.Inside.Views.{expression, operand_view, arm_view};
ghost use Rattle.bb_names.specs.Inside.Checked.{module_facts};
ghost use Rattle.bb_names.specs.Ranges.{distance, range_width};
ghost use Rattle.bb_names.specs.Widths.{own_width, greatest};
ghost use Rattle.bb_expr.specs.Inside.Fit.{AreFit, ranges_in};
ghost use Rattle.bb_expr.specs.Inside.Occurrences.{OccursAt, ranges_at};
ghost use Rattle.bb_expr.specs.Inside.Levels.{width_on};

use crate::laws;
use crate::operands::operator_width;
use crate::scope::range_of;
use bb_ast::{Expr, Op, Range, WordOp};
use bb_names::{Checked, CheckedModule};

/// In bits, from 1 to 65,536; a context may take the expression at a greater width.
pub fn own_width(checked: &Checked, module: u32, expr: &Expr) -> u32
    requires { OccursAt checked.now «module» (expression expr.now) }
    ensures { result ≡ own_width (ranges_at checked.now «module») (expression expr.now) }
{
    laws::occurrences_are_fit();
    width_of(&checked.modules()[module as usize], expr)
}

pub(crate) fn range_width(range: Option<Range>) -> u32
    requires { range_width range ≤ 65536 }
    ensures { result ≡ range_width range }
{
    match range {
        Some(range) => range.left.abs_diff(range.right) + 1,
        None => 1,
    }
}

/// Recursion goes as deep as the expression nests.
#[cycle(width)]
pub(crate) fn width_of(scope: &CheckedModule, expr: &Expr) -> u32
    requires fit { AreFit (module_facts scope.now) (expression expr.now) }
    ensures { result ≡ own_width (ranges_in (module_facts scope.now)) (expression expr.now) }
{
    match expr {
        Expr::Net(name) => range_width(range_of(scope, name)),
        Expr::Bit(_, _) => 1,
        Expr::Part(_, left, right) => left.abs_diff(*right) + 1,
        Expr::Sized(bits) => bits.len() as u32,
        Expr::Plain(_) => 32,
        Expr::Not(_, operand) => width_of(scope, operand),
        Expr::Chain(first, rest) => width_of(scope, first).max(widest_operand(scope, rest)),
        Expr::Cond(all, last) => widest_value(scope, all).max(width_of(scope, last)),
        Expr::Concat(all) => total_width(scope, all),
        Expr::Repeat(count, all) => *count * total_width(scope, all),
        Expr::Fold(_, _) => 1,
        Expr::Words(first, rest) => level_width(scope, width_of(scope, first), rest),
    }
}

#[cycle(width)]
fn widest_operand(scope: &CheckedModule, rest: &[(Op, Expr)]) -> u32
    requires fit { All (λ x. AreFit (module_facts scope.now) x.1) (map operand_view rest.now) }
    ensures { result
        ≡ greatest (map (λ x. own_width (ranges_in (module_facts scope.now)) x.1) (map operand_view rest.now)) }
{
    let mut widest = 0;
    for (_, operand) in rest {
        widest = widest.max(width_of(scope, operand));
    }
    widest
}

/// `left` is the own width of the operands before the first operator.
#[cycle(width)]
fn level_width(scope: &CheckedModule, left: u32, rest: &[(WordOp, Expr)]) -> u32
    requires fit { All (λ x. AreFit (module_facts scope.now) x.1) (map operand_view rest.now) }
    ensures { result ≡ width_on (ranges_in (module_facts scope.now)) left (map operand_view rest.now) }
{
    let mut width = left;
    for (op, operand) in rest {
        width = operator_width(*op, width, width_of(scope, operand));
    }
    width
}

#[cycle(width)]
fn widest_value(scope: &CheckedModule, all: &[(Expr, Expr)]) -> u32
    requires fit { All (λ x. AreFit (module_facts scope.now) x.1) (map arm_view all.now) }
    ensures { result ≡ greatest (map (λ x. own_width (ranges_in (module_facts scope.now)) x.1) (map arm_view all.now)) }
{
    let mut widest = 0;
    for (_, value) in all {
        widest = widest.max(width_of(scope, value));
    }
    widest
}

#[cycle(width)]
pub(crate) fn total_width(scope: &CheckedModule, all: &[Expr]) -> u32
    requires fit { All (AreFit (module_facts scope.now)) (map expression all.now) }
    requires bounded { sum (map (own_width (ranges_in (module_facts scope.now))) (map expression all.now)) ≤ 65536 }
    ensures { result ≡ sum (map (own_width (ranges_in (module_facts scope.now))) (map expression all.now)) }
{
    let mut total = 0;
    for part in all {
        total += width_of(scope, part);
    }
    total
}
