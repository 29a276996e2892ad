//! Expressions of a module lowered to steps on bits, at the width that the context asks for (IEEE 1364-2005, 5.4.1),
//! and reduced to operators.

ghost use Rattle.std.specs.Prelude.{◌≡◌, ◌≤◌, ◌<◌, max, length, Some, slice_get, IfOk};
ghost use Rattle.bb_ast.specs.Inside.Views.{expression};
ghost use Rattle.bb_names.specs.Inside.Checked.{module_facts, syntax, HasNets, IsChecked};
ghost use Rattle.bb_expr.specs.Inside.Occurrences.{OccursAt};
ghost use Rattle.bb_design.specs.Contexts.{width_of, made_in};
ghost use Rattle.bb_blast.specs.Inside.ModuleTemplates.{IsMadeIn, IsWholeIn};
ghost use Rattle.bb_blast.specs.Inside.BitBlasting.{module_in, scope_of};

use crate::logic::{Logic, logic_of};
use crate::module_context::ModuleContext;
use bb_ast::Expr;
use bb_bits::NoMemory;
use bb_expr::laws::{cells_are_counted, occurrences_are_fit};
use bb_expr::{Lowered, lower, own_width};
use bb_names::{Checked, CheckedModule};
use std::alloc::Global;

pub(crate) fn scope_at(checked: &Checked, module: u32) -> &CheckedModule
    requires there { «module» < length checked.now }
    ensures there { slice_get checked.now «module» ≡ Some (module_facts result.now) }
    ensures nets { HasNets (module_facts result.now) }
    ensures meant { module_in checked.now «module» ≡ syntax (module_facts result.now) }
    ensures checked { IsChecked checked.now }
{
    &checked.modules()[module as usize]
}

/// At the wider of its own width and `least`, as an assignment takes its right side (IEEE 1364-2005, 5.4.1).
pub(crate) fn steps_beside(
    alloc: Global,
    context: ModuleContext<'_>,
    expr: &Expr,
    least: u32,
) -> Result<Lowered, NoMemory>
    requires occurs { OccursAt context.checked.now context.«module» (expression expr.now) }
    requires least { least ≤ 65536 }
    requires few { length
        (made_in (scope_of (module_in context.checked.now context.«module»)) (expression expr.now)
        (max least (width_of (scope_of (module_in context.checked.now context.«module»))
        (expression expr.now)))).cells
        ≤ 2000000 }
    ensures made { IfOk result (λ l. IsMadeIn (module_in context.entry.checked.now context.entry.«module») l
        (expression expr.now) (λ s. max least (width_of s (expression expr.now)))) }
{
    occurrences_are_fit();
    cells_are_counted();
    // Gives the proof that checked modules have no faults.
    let _modules = context.checked.modules();
    let width = least.max(own_width(context.checked, context.module, expr));
    lower(alloc, context.checked, context.module, expr, width)
}

/// For gate inputs and port connections, to which no context gives another width.
pub(crate) fn logic_alone(
    alloc: Global,
    context: ModuleContext<'_>,
    expr: &Expr,
) -> Result<Logic, NoMemory>
    requires occurs { OccursAt context.checked.now context.«module» (expression expr.now) }
    requires few { length (made_in (scope_of (module_in context.checked.now context.«module»)) (expression expr.now)
        (width_of (scope_of (module_in context.checked.now context.«module»)) (expression expr.now))).cells ≤ 2000000 }
    ensures kept { IfOk result (λ g.
        IsWholeIn (module_in context.entry.checked.now context.entry.«module») g (expression expr.now)) }
{
    let steps = steps_beside(alloc, context, expr, 0)?;
    logic_of(alloc, &steps, steps.bits.len())
}
