//! How many cells expressions make. They are counted before any is made, so that what is too large is refused before
//! memory is taken, and a refusal does not depend on the memory that is there. Counts saturate at 2^64 - 1, far above
//! every bound.

ghost use Rattle.std.specs.Prelude.{◌≡◌, ◌≤◌, ◌+◌, ◌*◌, ◌-◌, ◌^◌, min, map, sum_by, All};
ghost use Rattle.bb_ast.specs.Inside.Views.{expression, operand_view, arm_view};
ghost use Rattle.bb_names.specs.Inside.Checked.{module_facts};
ghost use Rattle.bb_names.specs.Widths.{own_width};
ghost use Rattle.bb_expr.specs.Cells.{op_cells, cell_count};
ghost use Rattle.bb_word.specs.Folds.{is_odd, fold_cells};
ghost use Rattle.bb_word.specs.Words.{word_cells};
ghost use Rattle.bb_ast.specs.Levels.{IsOneLevel};
ghost use Rattle.bb_ast.specs.Syntax.{word_operands};
ghost use Rattle.bb_expr.specs.Inside.Levels.{words_cells};
ghost use Rattle.bb_expr.specs.Inside.Fit.{AreFit, ranges_in};
ghost use Rattle.bb_expr.specs.Inside.Shares.{capped, own_cells, operand_cells, arm_cells};
ghost use Rattle.bb_expr.specs.Inside.Occurrences.{OccursAt, ranges_at};

use crate::laws;
use crate::operands::{taken_at, widths_at};
use crate::width::width_of;
use bb_ast::{Expr, FoldOp, Op, WordOp};
use bb_names::{Checked, CheckedModule};

/// At a width that is at least the expression's own; 2^64 - 1 where the number is greater.
pub fn cells(checked: &Checked, module: u32, expr: &Expr, width: u32) -> u64
    requires occurs { OccursAt checked.now «module» (expression expr.now) }
    requires own { own_width (ranges_at checked.now «module») (expression expr.now) ≤ width }
    requires width { width ≤ 65536 }
    ensures { result ≡ min (2 ^ 64 - 1) (cell_count (ranges_at checked.now «module») (expression expr.now) width) }
{
    laws::occurrences_are_fit();
    cells_at(&checked.modules()[module as usize], expr, width)
}

/// An even run of `~` makes no cell at all.
pub(crate) fn is_odd(count: u32) -> bool
    ensures { result ≡ is_odd count }
{
    count % 2 == 1
}

/// `~^` is an exclusive or and a complement.
fn op_cells(op: Op) -> u32
    ensures { result ≡ op_cells op }
{
    match op {
        Op::And | Op::Or | Op::Xor => 1,
        Op::Xnor => 2,
    }
}

fn fold_cells(op: FoldOp, width: u32) -> u64
    ensures { result ≡ fold_cells op width }
{
    let between = u64::from(width.saturating_sub(1));
    match op {
        FoldOp::All | FoldOp::Any | FoldOp::Odd => between,
        _ => between + 1,
    }
}

/// The numbers are those of the circuits of bb_word: five for each bit of a sum, one more of a difference, and for a
/// shift one choice for each bit and each bit of the amount.
fn word_cells(op: WordOp, left: u32, right: u32) -> u64
    requires left { left ≤ 65536 }
    requires right { right ≤ 65536 }
    ensures { result ≡ word_cells op left right }
{
    match op {
        WordOp::Plus => u64::from(5 * left),
        WordOp::Minus => u64::from(6 * left),
        WordOp::Equal => u64::from(2 * left + left.saturating_sub(1)),
        WordOp::NotEqual => u64::from(2 * left + left.saturating_sub(1) + 1),
        WordOp::Less | WordOp::Greater => u64::from(2 * left),
        WordOp::LessEqual | WordOp::GreaterEqual => u64::from(2 * left + 1),
        WordOp::Left | WordOp::Right => u64::from(right) * u64::from(left),
        WordOp::Both | WordOp::Either => {
            u64::from(left.saturating_sub(1) + right.saturating_sub(1) + 1)
        }
    }
}

/// Recursion goes as deep as the expression nests.
#[cycle(cells)]
fn cells_at(scope: &CheckedModule, expr: &Expr, width: u32) -> u64
    requires fit { AreFit (module_facts scope.now) (expression expr.now) }
    requires width { width ≤ 65536 }
    ensures { result ≡ capped (cell_count (ranges_in (module_facts scope.now)) (expression expr.now) width) }
{
    match expr {
        Expr::Not(count, operand) => {
            let inner = cells_at(scope, operand, width);
            if is_odd(*count) {
                inner.saturating_add(u64::from(width))
            } else {
                inner
            }
        }
        Expr::Chain(first, rest) => {
            cells_at(scope, first, width).saturating_add(operand_cells(scope, rest, width))
        }
        Expr::Cond(all, last) => {
            arm_cells(scope, all, width).saturating_add(cells_at(scope, last, width))
        }
        Expr::Concat(all) => part_cells(scope, all),
        Expr::Repeat(_, all) => part_cells(scope, all),
        Expr::Fold(op, operand) => {
            let own = width_of(scope, operand);
            cells_at(scope, operand, own).saturating_add(fold_cells(*op, own))
        }
        Expr::Words(first, rest) => {
            let own = width_of(scope, first);
            let left = cells_at(scope, first, taken_at(scope, own, rest, 0, width));
            left.saturating_add(level_cells(scope, own, rest, width))
        }
        _ => 0,
    }
}

#[cycle(cells)]
fn operand_cells(scope: &CheckedModule, rest: &[(Op, Expr)], width: u32) -> u64
    requires fit { All (λ x. AreFit (module_facts scope.now) x.1) (map operand_view rest.now) }
    requires width { width ≤ 65536 }
    ensures { result
        ≡ capped (sum_by (operand_cells (ranges_in (module_facts scope.now)) width) (map operand_view rest.now)) }
{
    let mut total = 0u64;
    for (op, operand) in rest {
        let inner = cells_at(scope, operand, width);
        total = total.saturating_add(inner.saturating_add(u64::from(op_cells(*op) * width)));
    }
    total
}

/// `left` is the own width of the operands before the first operator.
#[cycle(cells)]
fn level_cells(scope: &CheckedModule, left: u32, rest: &[(WordOp, Expr)], width: u32) -> u64
    requires fit { All (λ x. AreFit (module_facts scope.now) x.1) (map operand_view rest.now) }
    requires level { IsOneLevel (word_operands (map operand_view rest.now)) }
    requires bounded { left ≤ 65536 }
    requires width { width ≤ 65536 }
    ensures { result
        ≡ capped (words_cells (ranges_in (module_facts scope.now)) left (map operand_view rest.now) width) }
{
    let mut total = 0u64;
    let mut own = left;
    let mut next = 0usize;
    for (op, operand) in rest {
        next += 1;
        let at = widths_at(scope, *op, operand, own, rest, next, width);
        let inner = cells_at(scope, operand, at.second);
        total = total.saturating_add(inner.saturating_add(word_cells(*op, at.first, at.second)));
        own = at.own;
    }
    total
}

/// For each arm the ors of its condition, one less than it has bits, and a choice for each bit of the result.
#[cycle(cells)]
fn arm_cells(scope: &CheckedModule, all: &[(Expr, Expr)], width: u32) -> u64
    requires fit { All (λ x. AreFit (module_facts scope.now) x.0 × AreFit (module_facts scope.now) x.1)
        (map arm_view all.now) }
    requires width { width ≤ 65536 }
    ensures { result ≡ capped (sum_by (arm_cells (ranges_in (module_facts scope.now)) width) (map arm_view all.now)) }
{
    let mut total = 0u64;
    for (condition, value) in all {
        let own = width_of(scope, condition);
        let inner = cells_at(scope, condition, own).saturating_add(cells_at(scope, value, width));
        total = total.saturating_add(inner.saturating_add(u64::from(own - 1 + width)));
    }
    total
}

#[cycle(cells)]
fn part_cells(scope: &CheckedModule, all: &[Expr]) -> u64
    requires fit { All (AreFit (module_facts scope.now)) (map expression all.now) }
    ensures { result ≡ capped (sum_by (own_cells (ranges_in (module_facts scope.now))) (map expression all.now)) }
{
    let mut total = 0u64;
    for part in all {
        let own = width_of(scope, part);
        total = total.saturating_add(cells_at(scope, part, own));
    }
    total
}
