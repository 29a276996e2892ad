//! Expressions as steps on bits, one operator step for each cell, with nothing folded or shared. The cells are pinned
//! as terms; left open are their order, how many steps are constants or bits of nets, and which of several equal cells
//! an operator reads. That something reads each cell is not said: the last carry of a sum is a cell that nothing reads,
//! and it counts.

ghost use Rattle.std.specs.Prelude.{◌≡◌, ◌≤◌, ◌+◌, ◌-◌, ◌*◌, ◌^◌, Bool, true, false, List, length, map, sum, sum_by};
ghost use Rattle.std.specs.Prelude.{All, IfOk};
ghost use Rattle.bb_ast.specs.Syntax.{Net, Part};
ghost use Rattle.bb_ast.specs.Inside.Views.{expression, operand_view, arm_view};
ghost use Rattle.bb_names.specs.declared.net.NetInfo.{NetInfo};
ghost use Rattle.bb_names.specs.Inside.Checked.{module_facts};
ghost use Rattle.bb_names.specs.Ranges.{has_bits, distance, range_width, place_of};
ghost use Rattle.bb_names.specs.Widths.{own_width};
ghost use Rattle.bb_expr.specs.declared.step.BitStep.{BitStep};
ghost use Rattle.bb_expr.specs.Cells.{MadeTerms, without_cells, made, cell_count};
ghost use Rattle.bb_expr.specs.Inside.Fit.{HasNet, AreFit, ranges_in};
ghost use Rattle.bb_expr.specs.Inside.Growing.{Adds, beside, chained_on, arms_on, most_steps};
ghost use Rattle.bb_expr.specs.Inside.Levels.{AreReady, words_on};
ghost use Rattle.bb_expr.specs.Lists.{extended};
ghost use Rattle.bb_expr.specs.Lowered.{IsLowered, HasValue};
ghost use Rattle.bb_expr.specs.Inside.Shares.{own_cells, operand_cells, arm_cells};
ghost use Rattle.bb_expr.specs.Inside.Occurrences.{OccursAt, nets_at, ranges_at};
ghost use Rattle.bb_expr.specs.Terms.{Const};

use crate::cell_count::{cells, is_odd};
use crate::circuits::{fold, word};
use crate::laws;
use crate::leaves::{net, number, part, plain_number};
use crate::operands::{taken_at, widths_at};
use crate::operators::{any_bit, copied, inverted, operate, select};
use crate::rows::extended;
use crate::step::{BitStep, Lowered};
use crate::width::{total_width, width_of};
use bb_ast::{Expr, Op, WordOp};
use bb_bits::NoMemory;
use bb_names::{Checked, CheckedModule};
use std::alloc::Global;

/// At a width that is at least the expression's own. The operators among the steps are exactly the cells of the
/// expression, so that the number of cells is known before they are made.
pub fn lower(
    alloc: Global,
    checked: &Checked,
    module: u32,
    expr: &Expr,
    width: u32,
) -> Result<Lowered, NoMemory>
    requires occurs { OccursAt checked.now «module» (expression expr.now) }
    requires own { own_width (ranges_at checked.now «module») (expression expr.now) ≤ width }
    requires width { width ≤ 65536 }
    requires cells { cell_count (ranges_at checked.now «module») (expression expr.now) width ≤ 2000000 }

    ensures lowered { IfOk result (λ l. IsLowered (nets_at checked.now «module») (ranges_at checked.now «module»)
        (expression expr.now) width l.steps.items l.bits.items) }
    ensures value { IfOk result (λ l. HasValue (nets_at checked.now «module») (ranges_at checked.now «module»)
        (expression expr.now) width l.steps.items l.bits.items) }

    // A caller's list of cells has room for so many steps only. Each use of a net or a number adds steps, and the cells
    // of an operator on words at most two constants.
    ensures few { IfOk result (λ l.
        length l.steps.items ≤ width + 3 * cell_count (ranges_at checked.now «module») (expression expr.now) width) }
{
    laws::occurrences_are_fit();
    laws::made_has_value();
    let count = cells(checked, module, expr, width);
    let scope = &checked.modules()[module as usize];
    // Enough for the whole, so the list never grows.
    let mut steps = Vec::with_capacity(alloc, width as usize + 3 * count as usize)?;
    let bits = lower_at(alloc, scope, &mut steps, expr, width)?;
    Ok(Lowered { steps, bits })
}

/// Recursion goes as deep as the expression nests.
#[cycle(lowering)]
fn lower_at(
    alloc: Global,
    scope: &CheckedModule,
    steps: &mut Vec<BitStep>,
    expr: &Expr,
    width: u32,
) -> Result<Vec<u32>, NoMemory>
    requires fit { AreFit (module_facts scope.now) (expression expr.now) }
    requires own { own_width (ranges_in (module_facts scope.now)) (expression expr.now) ≤ width }
    requires width { width ≤ 65536 }
    requires room { length steps.old.items
        + most_steps width (cell_count (ranges_in (module_facts scope.now)) (expression expr.now) width)
        ≤ 2 ^ 31 }
    requires few { cell_count (ranges_in (module_facts scope.now)) (expression expr.now) width ≤ 2000000 }
    ensures { IfOk result (λ bits. Adds scope.now.nets.items
        (made (ranges_in (module_facts scope.now)) (expression expr.now) width) steps.old.items steps.new.items
        bits.items) }
{
    match expr {
        Expr::Net(name) => net(alloc, scope, steps, name, width),
        Expr::Bit(name, index) => part(alloc, scope, steps, name, *index, *index, width),
        Expr::Part(name, left, right) => part(alloc, scope, steps, name, *left, *right, width),
        Expr::Sized(bits) => number(alloc, steps, bits, width),
        Expr::Plain(value) => plain_number(alloc, steps, *value, width),
        Expr::Not(count, operand) => {
            let bits = lower_at(alloc, scope, steps, operand, width)?;
            if is_odd(*count) {
                inverted(alloc, steps, &bits)
            } else {
                Ok(bits)
            }
        }
        Expr::Chain(first, rest) => {
            let bits = lower_at(alloc, scope, steps, first, width)?;
            chain(alloc, scope, steps, bits, rest, width)
        }
        Expr::Cond(all, last) => {
            let bits = lower_at(alloc, scope, steps, last, width)?;
            conditional(alloc, scope, steps, bits, all, width)
        }
        Expr::Concat(all) => {
            let bits = side_by_side(alloc, scope, steps, all)?;
            extended(alloc, steps, &bits, width)
        }
        Expr::Repeat(count, all) => {
            let bits = side_by_side(alloc, scope, steps, all)?;
            let copies = copied(alloc, &bits, *count)?;
            extended(alloc, steps, &copies, width)
        }
        Expr::Fold(op, operand) => {
            let own = width_of(scope, operand);
            let bits = lower_at(alloc, scope, steps, operand, own)?;
            let result = fold(alloc, steps, *op, &bits)?;
            extended(alloc, steps, &result, width)
        }
        Expr::Words(first, rest) => {
            let own = width_of(scope, first);
            let taken = taken_at(scope, own, rest, 0, width);
            let bits = lower_at(alloc, scope, steps, first, taken)?;
            words(alloc, scope, steps, bits, own, rest, width)
        }
    }
}

/// A chain groups to the left, so each operand meets the bits of all those before it.
#[cycle(lowering)]
fn chain(
    alloc: Global,
    scope: &CheckedModule,
    steps: &mut Vec<BitStep>,
    first: Vec<u32>,
    rest: &[(Op, Expr)],
    width: u32,
) -> Result<Vec<u32>, NoMemory>
    requires fit { All (λ x. AreFit (module_facts scope.now) x.1) (map operand_view rest.now) }
    requires owns { All (λ x. own_width (ranges_in (module_facts scope.now)) x.1 ≤ width) (map operand_view rest.now) }
    requires width { width ≤ 65536 }
    requires first { length first.items ≡ width }
    requires room { length steps.old.items
        + 4 * sum_by (operand_cells (ranges_in (module_facts scope.now)) width) (map operand_view rest.now)
        ≤ 2 ^ 31 }
    requires few { sum_by (operand_cells (ranges_in (module_facts scope.now)) width) (map operand_view rest.now)
        ≤ 2000000 }
    ensures { (m : MadeTerms) (old : List BitStep) → Adds scope.now.nets.items m old steps.old.items first.items
        → IfOk result (λ bits. Adds scope.now.nets.items
        (chained_on (ranges_in (module_facts scope.now)) width m (map operand_view rest.now)) old
        steps.new.items bits.items) }
{
    let mut bits = first;
    for (op, operand) in rest {
        let right = lower_at(alloc, scope, steps, operand, width)?;
        bits = operate(alloc, steps, *op, &bits, &right)?;
    }
    Ok(bits)
}

/// `left` is the own width of the operands before the first operator. The bits so far are kept as wide as the next
/// operator takes them.
#[cycle(lowering)]
fn words(
    alloc: Global,
    scope: &CheckedModule,
    steps: &mut Vec<BitStep>,
    first: Vec<u32>,
    left: u32,
    rest: &[(WordOp, Expr)],
    width: u32,
) -> Result<Vec<u32>, NoMemory>
    requires { AreReady (module_facts scope.now) (map operand_view rest.now) width left (length steps.old.items)
        (length first.items) }
    ensures { (m : MadeTerms) (old : List BitStep) → Adds scope.now.nets.items m old steps.old.items first.items
        → IfOk result (λ bits. Adds scope.now.nets.items
        (words_on (ranges_in (module_facts scope.now)) m left (map operand_view rest.now) width) old
        steps.new.items bits.items) }
{
    let mut bits = first;
    let mut own = left;
    let mut next = 0usize;
    for (op, operand) in rest {
        next += 1;
        let at = widths_at(scope, *op, operand, own, rest, next, width);
        let more = lower_at(alloc, scope, steps, operand, at.second)?;
        let places = word(alloc, steps, *op, &bits, &more)?;
        bits = extended(alloc, steps, &places, at.context)?;
        own = at.own;
    }
    Ok(bits)
}

/// From the last arm on, since it is innermost: the choice of an arm reads the bits of all arms after it, and a long
/// conditional needs no recursion.
#[cycle(lowering)]
fn conditional(
    alloc: Global,
    scope: &CheckedModule,
    steps: &mut Vec<BitStep>,
    last: Vec<u32>,
    all: &[(Expr, Expr)],
    width: u32,
) -> Result<Vec<u32>, NoMemory>
    requires fit { All (λ x. AreFit (module_facts scope.now) x.0 × AreFit (module_facts scope.now) x.1)
        (map arm_view all.now) }
    requires owns { All (λ x. own_width (ranges_in (module_facts scope.now)) x.1 ≤ width) (map arm_view all.now) }
    requires width { width ≤ 65536 }
    requires some { 1 ≤ width }
    requires last { length last.items ≡ width }
    requires room { length steps.old.items
        + 4 * sum_by (arm_cells (ranges_in (module_facts scope.now)) width) (map arm_view all.now)
        ≤ 2 ^ 31 }
    requires few { sum_by (arm_cells (ranges_in (module_facts scope.now)) width) (map arm_view all.now) ≤ 2000000 }
    ensures { (m : MadeTerms) (old : List BitStep) → Adds scope.now.nets.items m old steps.old.items last.items
        → IfOk result (λ bits. Adds scope.now.nets.items
        (arms_on (ranges_in (module_facts scope.now)) width m (map arm_view all.now)) old steps.new.items
        bits.items) }
{
    let mut bits = last;
    for turn in 0..all.len() {
        let (condition, value) = &all[all.len() - 1 - turn];
        let own = width_of(scope, condition);
        let tested = lower_at(alloc, scope, steps, condition, own)?;
        let any = any_bit(steps, &tested)?;
        let chosen = lower_at(alloc, scope, steps, value, width)?;
        bits = select(alloc, steps, any, &chosen, &bits)?;
    }
    Ok(bits)
}

#[cycle(lowering)]
fn side_by_side(
    alloc: Global,
    scope: &CheckedModule,
    steps: &mut Vec<BitStep>,
    all: &[Expr],
) -> Result<Vec<u32>, NoMemory>
    requires fit { All (AreFit (module_facts scope.now)) (map expression all.now) }
    requires width { sum (map (own_width (ranges_in (module_facts scope.now))) (map expression all.now)) ≤ 65536 }
    requires room { length steps.old.items
        + most_steps (sum_by (own_width (ranges_in (module_facts scope.now))) (map expression all.now))
        (sum_by (own_cells (ranges_in (module_facts scope.now))) (map expression all.now))
        ≤ 2 ^ 31 }
    requires few { sum_by (own_cells (ranges_in (module_facts scope.now))) (map expression all.now) ≤ 2000000 }
    ensures { IfOk result (λ bits. Adds scope.now.nets.items
        (beside (ranges_in (module_facts scope.now)) (map expression all.now)) steps.old.items steps.new.items
        bits.items) }
{
    let mut bits = Vec::with_capacity(alloc, total_width(scope, all) as usize)?;
    for part in all {
        let own = width_of(scope, part);
        let more = lower_at(alloc, scope, steps, part, own)?;
        bits.extend_from_slice(&more)?;
    }
    Ok(bits)
}
