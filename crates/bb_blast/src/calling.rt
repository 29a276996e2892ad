//! The template parts of port connections. A place in a list by order is looked up in the header, so both forms of
//! connections are made by the name of the port.

ghost use Rattle.std.specs.Prelude.{◌≡◌, ◌<◌, ◌+◌, ◌++◌, ◌^◌, ℕ, List, All, length, map, option_to_list, Some, IfOk};
ghost use Rattle.std.specs.Prelude.{OnOk};
ghost use Rattle.std.specs.List.{flat_map};
ghost use Rattle.bb_ast.specs.Syntax.{Order, Named};
ghost use Rattle.bb_ast.specs.Inside.Views.{optional_view, named_view, conns_view, call_view};
ghost use Rattle.bb_names.specs.Inside.Checked.{syntax};
ghost use Rattle.bb_names.specs.Sites.{module_named, pin_at};
ghost use Rattle.bb_design.specs.Constructs.{Construct, connection, connections};
ghost use Rattle.bb_design.specs.Hierarchy.{Instance, instance_of};
ghost use Rattle.bb_blast.specs.Inside.BitBlasting.{IsStarted, IsStartedModule, IsCallAt, AreCallsAt, module_in};
ghost use Rattle.bb_blast.specs.Inside.BitBlasting.{ArePartsIn, IsMakeableIn};

use crate::connecting::connected;
use crate::expression_steps::scope_at;
use crate::module_context::{InstanceContext, ModuleContext, Targets};
use crate::template::Part;
use bb_ast::{Call, Conns, Expr};
use bb_bits::{Name, NoMemory};
use std::alloc::Global;

fn add_part(parts: &mut Vec<Part>, part: Option<Part>) -> Result<(), NoMemory>
    ensures added { OnOk result (parts.new.items ≡ parts.old.items ++ option_to_list part) }
{
    if let Some(part) = part {
        parts.push(part)?;
    }
    Ok(())
}

// None where there is no such port, or the place is left open.
fn ordered(
    alloc: Global,
    context: ModuleContext<'_>,
    inner: InstanceContext<'_>,
    number: usize,
    place: &Option<Expr>,
) -> Result<Option<Part>, NoMemory>
    requires own { IsStartedModule context.checked.now context.«module» context.starts.now }
    requires target { IsStartedModule context.checked.now inner.target inner.starts.now }
    requires makeable { (i : List ℕ)
        × All (IsMakeableIn context) (connection i
        (pin_at (module_in context.checked.now inner.target) number) (optional_view place.now)) }
    ensures part { (called : Instance)
        → IsCallAt context.entry.checked.now context.entry.«module» inner.entry.instance inner.entry.target called
        → IfOk result (λ part. ArePartsIn context.entry
        (option_to_list part)
        (connection called.name (pin_at (module_in context.entry.checked.now inner.entry.target) number)
        (optional_view place.now))) }
{
    match scope_at(context.checked, inner.target)
        .module
        .heads
        .get(number)
    {
        Some(head) => connected(alloc, context, inner, &head.name, place),
        None => Ok(None),
    }
}

fn add_ordered(
    alloc: Global,
    context: ModuleContext<'_>,
    inner: InstanceContext<'_>,
    places: &[Option<Expr>],
    parts: &mut Vec<Part>,
) -> Result<(), NoMemory>
    requires own { IsStartedModule context.checked.now context.«module» context.starts.now }
    requires target { IsStartedModule context.checked.now inner.target inner.starts.now }
    requires makeable { (i : List ℕ)
        × All (IsMakeableIn context) (connections
        (Some (module_in context.checked.now inner.target)) (i, Order (map optional_view places.now))) }
    ensures parts { (called : Instance)
        → IsCallAt context.entry.checked.now context.entry.«module» inner.entry.instance inner.entry.target called
        → (before : List Construct)
        → ArePartsIn context.entry parts.old.items before
        → OnOk result (ArePartsIn context.entry parts.new.items
        (before
        ++ connections (Some (module_in context.entry.checked.now inner.entry.target)) (
          called.name,
          Order
              (map optional_view places.now),
        ))) }
{
    for k in 0..places.len() {
        let part = ordered(alloc, context, inner, k, &places[k])?;
        add_part(parts, part)?;
    }
    Ok(())
}

fn add_named(
    alloc: Global,
    context: ModuleContext<'_>,
    inner: InstanceContext<'_>,
    all: &[(Name, Option<Expr>)],
    parts: &mut Vec<Part>,
) -> Result<(), NoMemory>
    requires own { IsStartedModule context.checked.now context.«module» context.starts.now }
    requires target { IsStartedModule context.checked.now inner.target inner.starts.now }
    requires makeable { (i : List ℕ)
        × All (IsMakeableIn context) (connections
        (Some (module_in context.checked.now inner.target)) (i, Named (map named_view all.now))) }
    ensures parts { (called : Instance)
        → IsCallAt context.entry.checked.now context.entry.«module» inner.entry.instance inner.entry.target called
        → (before : List Construct)
        → ArePartsIn context.entry parts.old.items before
        → OnOk result (ArePartsIn context.entry parts.new.items
        (before
        ++ connections (Some (module_in context.entry.checked.now inner.entry.target)) (
          called.name,
          Named
              (map named_view all.now),
        ))) }
{
    for (port, place) in all {
        let part = connected(alloc, context, inner, port, place)?;
        add_part(parts, part)?;
    }
    Ok(())
}

fn add_conns(
    alloc: Global,
    context: ModuleContext<'_>,
    inner: InstanceContext<'_>,
    conns: &Conns,
    parts: &mut Vec<Part>,
) -> Result<(), NoMemory>
    requires own { IsStartedModule context.checked.now context.«module» context.starts.now }
    requires target { IsStartedModule context.checked.now inner.target inner.starts.now }
    requires makeable { (i : List ℕ)
        × All (IsMakeableIn context) (connections
        (Some (module_in context.checked.now inner.target)) (i, conns_view conns.now)) }
    ensures parts { (called : Instance)
        → IsCallAt context.entry.checked.now context.entry.«module» inner.entry.instance inner.entry.target called
        → (before : List Construct)
        → ArePartsIn context.entry parts.old.items before
        → OnOk result (ArePartsIn context.entry parts.new.items
        (before
        ++ connections (Some (module_in context.entry.checked.now inner.entry.target)) (
          called.name,
          conns_view conns.now,
        ))) }
{
    match conns {
        Conns::Order(places) => add_ordered(alloc, context, inner, places, parts),
        Conns::Named(all) => add_named(alloc, context, inner, all, parts),
    }
}

/// `first` is the number of the first of these instances among those of the module.
pub(crate) fn add_calls(
    alloc: Global,
    context: ModuleContext<'_>,
    targets: Targets<'_>,
    first: usize,
    calls: &[Call],
    parts: &mut Vec<Part>,
) -> Result<(), NoMemory>
    requires own { IsStartedModule context.checked.now context.«module» context.starts.now }
    requires targets { All (IsStarted context.checked.now (map (λ list. list.items) targets.starts.now))
        targets.modules.now }
    requires few { length targets.modules.now < 2 ^ 32 }
    requires makeable { (n : List ℕ)
        × AreCallsAt context.checked.now context.«module» targets.modules.now first (map (instance_of n)
        (map call_view calls.now))
        × All (IsMakeableIn context) (flat_map
        (connections (module_named (map syntax context.checked.now) n)) (map call_view calls.now)) }
    ensures parts { (n : List ℕ)
        → AreCallsAt context.entry.checked.now context.entry.«module» targets.entry.modules.now first
        (map (instance_of n) (map call_view calls.now))
        → (before : List Construct)
        → ArePartsIn context.entry parts.old.items before
        → OnOk result (ArePartsIn context.entry parts.new.items
        (before
        ++ flat_map (connections (module_named (map syntax context.entry.checked.now) n))
        (map call_view calls.now))) }
{
    for k in 0..calls.len() {
        let number = first + k;
        let call = &calls[k];
        let target = targets.modules[number];
        let inner = InstanceContext {
            instance: number as u32,
            target: target as u32,
            starts: &targets.starts[target],
        };
        add_conns(alloc, context, inner, &call.conns, parts)?;
    }
    Ok(())
}
