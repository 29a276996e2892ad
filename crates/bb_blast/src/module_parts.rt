//! The template parts of a module, item by item in text order. Instances are numbered through all items, as their
//! callees are.

ghost use Rattle.std.specs.Prelude.{◌≡◌, ◌<◌, ◌++◌, ◌^◌, List, All, length, map, IfOk, OnOk};
ghost use Rattle.bb_ast.specs.Inside.Views.{body_view};
ghost use Rattle.bb_names.specs.Inside.Checked.{syntax};
ghost use Rattle.bb_expr.specs.Inside.Occurrences.{OccursAt, item_expressions};
ghost use Rattle.bb_design.specs.Constructs.{Construct, body_constructs};
ghost use Rattle.bb_design.specs.Hierarchy.{instances_in, instances_of};
ghost use Rattle.bb_blast.specs.Inside.BitBlasting.{IsStarted, IsStartedModule, AreCallsAt, module_in};
ghost use Rattle.bb_blast.specs.Inside.BitBlasting.{module_constructs, ArePartsIn, IsMakeableIn};

use crate::assigning::{add_all_declared, add_assignments, add_supplies, register};
use crate::calling::add_calls;
use crate::expression_steps::scope_at;
use crate::gating::add_gates;
use crate::module_context::{ModuleContext, Targets};
use crate::template::Part;
use bb_ast::Body;
use bb_bits::NoMemory;
use std::alloc::Global;

fn instance_count(body: &Body) -> usize
    ensures count { result ≡ length (instances_in (body_view body.now)) }
{
    match body {
        Body::Calls(_, calls) => calls.len(),
        _ => 0,
    }
}

// `first` is the number of the item's first instance in the module.
fn add_body(
    alloc: Global,
    context: ModuleContext<'_>,
    targets: Targets<'_>,
    first: usize,
    body: &Body,
    parts: &mut Vec<Part>,
) -> Result<(), NoMemory>
    requires own { IsStartedModule context.checked.now context.«module» context.starts.now }
    requires targets { All (IsStarted context.checked.now (map (λ list. list.items) targets.starts.now))
        targets.modules.now }
    requires few { length targets.modules.now < 2 ^ 32 }
    requires calls { AreCallsAt context.checked.now context.«module» targets.modules.now first (instances_in
        (body_view body.now)) }
    requires occurs { All (OccursAt context.checked.now context.«module») (item_expressions (body_view body.now)) }
    requires makeable { All (IsMakeableIn context) (body_constructs
        (map syntax context.checked.now) (body_view body.now)) }
    ensures parts { (before : List Construct)
        → ArePartsIn context.entry parts.old.items before
        → OnOk result (ArePartsIn context.entry parts.new.items
        (before ++ body_constructs (map syntax context.entry.checked.now) (body_view body.now))) }
{
    match body {
        Body::Nets(_, nets) => add_all_declared(alloc, context, nets, parts),
        Body::Supply(high, _, names) => add_supplies(alloc, context, *high, names, parts),
        Body::Assign(all) => add_assignments(alloc, context, all, parts),
        Body::Gates(gate, all) => add_gates(alloc, context, *gate, all, parts),
        Body::Calls(_, calls) => add_calls(alloc, context, targets, first, calls, parts),
        Body::Always(always) => {
            parts.push(register(alloc, context, always)?)?;
            Ok(())
        }
        Body::Ports(_, _) => Ok(()),
        Body::Regs(_, _) => Ok(()),
    }
}

/// `targets` has the callees of the module's instances, in text order.
pub(crate) fn parts_of(
    alloc: Global,
    context: ModuleContext<'_>,
    targets: Targets<'_>,
) -> Result<Vec<Part>, NoMemory>
    requires own { IsStartedModule context.checked.now context.«module» context.starts.now }
    requires targets { All (IsStarted context.checked.now (map (λ list. list.items) targets.starts.now))
        targets.modules.now }
    requires few { length targets.modules.now < 2 ^ 32 }
    requires calls { AreCallsAt context.checked.now context.«module» targets.modules.now 0 (instances_of
        (module_in context.checked.now context.«module»)) }
    requires makeable { All (IsMakeableIn context) (module_constructs
        (map syntax context.checked.now) (module_in context.checked.now context.«module»)) }
    ensures parts { IfOk result (λ parts. ArePartsIn context.entry
        parts.items
        (module_constructs (map syntax context.entry.checked.now) (module_in context.entry.checked.now
        context.entry.«module»))) }
{
    let items = &scope_at(context.checked, context.module).module.items;
    let mut parts = Vec::new(alloc);
    let mut first = 0;
    for item in items {
        add_body(alloc, context, targets, first, &item.body, &mut parts)?;
        first += instance_count(&item.body);
    }
    Ok(parts)
}
