//! The template parts of assignments, registers and supply nets.
//!
//! A right side is lowered at the wider of its own width and that of the left side (IEEE 1364-2005, 5.4.1) and
//! truncated only then: a bit that is cut off may still be shifted into one that is kept.

ghost use Rattle.std.specs.Prelude.{◌++◌, List, All, map, IfOk, OnOk};
ghost use Rattle.std.specs.List.{flat_map};
ghost use Rattle.bb_ast.specs.Syntax.{Net};
ghost use Rattle.bb_ast.specs.Inside.Views.{expression, always_view, arm_view, named_view};
ghost use Rattle.bb_names.specs.Nets.{nets_of};
ghost use Rattle.bb_expr.specs.Inside.Occurrences.{OccursAt};
ghost use Rattle.bb_design.specs.Constructs.{Construct, Assignment, Register, SupplyNet, initial_construct};
ghost use Rattle.bb_blast.specs.Inside.BitBlasting.{AreStarts, IsPartAt, module_in, ArePartsIn, IsMakeableIn};

use crate::expression_steps::{scope_at, steps_beside};
use crate::left_bits::{left_bits, net_bits};
use crate::logic::logic_of;
use crate::module_context::ModuleContext;
use crate::template::Part;
use bb_ast::{Always, Expr};
use bb_bits::{Name, NoMemory};
use bb_expr::laws::occurrences_are_fit;
use bb_expr::own_width;
use std::alloc::Global;

fn assignment(
    alloc: Global,
    context: ModuleContext<'_>,
    left: &Expr,
    right: &Expr,
) -> Result<Part, NoMemory>
    requires starts { AreStarts (nets_of (module_in context.checked.now context.«module»)) context.starts.now }
    requires occurs { OccursAt context.checked.now context.«module» (expression left.now) }
    requires makeable { IsMakeableIn context (Assignment (expression left.now)
        (expression right.now)) }
    ensures part { IfOk result (λ part. IsPartAt context.entry.checked.now context.entry.«module» part
        (Assignment (expression left.now) (expression right.now))) }
{
    occurrences_are_fit();
    let scope = scope_at(context.checked, context.module);
    let bits = left_bits(alloc, scope, context.starts, left)?;
    let least = own_width(context.checked, context.module, left);
    let steps = steps_beside(alloc, context, right, least)?;
    let right = logic_of(alloc, &steps, bits.len())?;
    Ok(Part::Assignment { left: bits, right })
}

fn declared_assignment(
    alloc: Global,
    context: ModuleContext<'_>,
    name: &Name,
    right: &Expr,
) -> Result<Part, NoMemory>
    requires starts { AreStarts (nets_of (module_in context.checked.now context.«module»)) context.starts.now }
    requires makeable { IsMakeableIn context (Assignment (Net name.now)
        (expression right.now)) }
    ensures part { IfOk result (λ part. IsPartAt context.entry.checked.now context.entry.«module» part
        (Assignment (Net name.now) (expression right.now))) }
{
    let scope = scope_at(context.checked, context.module);
    let left = net_bits(alloc, scope, context.starts, name)?;
    let count = left.len();
    let steps = steps_beside(alloc, context, right, count as u32)?;
    let right = logic_of(alloc, &steps, count)?;
    Ok(Part::Assignment { left, right })
}

pub(crate) fn add_assignments(
    alloc: Global,
    context: ModuleContext<'_>,
    all: &[(Expr, Expr)],
    parts: &mut Vec<Part>,
) -> Result<(), NoMemory>
    requires starts { AreStarts (nets_of (module_in context.checked.now context.«module»)) context.starts.now }
    requires occurs { All (λ x. OccursAt context.checked.now context.«module» x.0) (map arm_view all.now) }
    requires makeable { All (λ x. IsMakeableIn context (Assignment x.0 x.1))
        (map arm_view all.now) }
    ensures parts { (before : List Construct)
        → ArePartsIn context.entry parts.old.items before
        → OnOk result (ArePartsIn context.entry parts.new.items
        (before ++ map (λ x. Assignment x.0 x.1) (map arm_view all.now))) }
{
    for (left, right) in all {
        parts.push(assignment(alloc, context, left, right)?)?;
    }
    Ok(())
}

fn add_declared(
    alloc: Global,
    context: ModuleContext<'_>,
    net: &(Name, Option<Expr>),
    parts: &mut Vec<Part>,
) -> Result<(), NoMemory>
    requires starts { AreStarts (nets_of (module_in context.checked.now context.«module»)) context.starts.now }
    requires makeable { All (IsMakeableIn context) (initial_construct (named_view net.now)) }
    ensures parts { (before : List Construct)
        → ArePartsIn context.entry parts.old.items before
        → OnOk result (ArePartsIn context.entry parts.new.items
        (before ++ initial_construct (named_view net.now))) }
{
    if let Some(right) = &net.1 {
        parts.push(declared_assignment(alloc, context, &net.0, right)?)?;
    }
    Ok(())
}

pub(crate) fn add_all_declared(
    alloc: Global,
    context: ModuleContext<'_>,
    nets: &[(Name, Option<Expr>)],
    parts: &mut Vec<Part>,
) -> Result<(), NoMemory>
    requires starts { AreStarts (nets_of (module_in context.checked.now context.«module»)) context.starts.now }
    requires makeable { All (λ x. All (IsMakeableIn context) (initial_construct x))
        (map named_view nets.now) }
    ensures parts { (before : List Construct)
        → ArePartsIn context.entry parts.old.items before
        → OnOk result (ArePartsIn context.entry parts.new.items
        (before ++ flat_map initial_construct (map named_view nets.now))) }
{
    for net in nets {
        add_declared(alloc, context, net, parts)?;
    }
    Ok(())
}

pub(crate) fn add_supplies(
    alloc: Global,
    context: ModuleContext<'_>,
    high: bool,
    names: &[Name],
    parts: &mut Vec<Part>,
) -> Result<(), NoMemory>
    requires starts { AreStarts (nets_of (module_in context.checked.now context.«module»)) context.starts.now }
    requires makeable { All (IsMakeableIn context) (map (SupplyNet high) names.now) }
    ensures parts { (before : List Construct)
        → ArePartsIn context.entry parts.old.items before
        → OnOk result (ArePartsIn context.entry parts.new.items
        (before ++ map (SupplyNet high) names.now)) }
{
    for name in names {
        let scope = scope_at(context.checked, context.module);
        let bits = net_bits(alloc, scope, context.starts, name)?;
        parts.push(Part::Supply { high, bits })?;
    }
    Ok(())
}

/// The clock is one bit: it is a net or a bit of one, and a wider net is refused before.
pub(crate) fn register(
    alloc: Global,
    context: ModuleContext<'_>,
    always: &Always,
) -> Result<Part, NoMemory>
    requires starts { AreStarts (nets_of (module_in context.checked.now context.«module»)) context.starts.now }
    requires makeable { IsMakeableIn context (Register (always_view always.now)) }
    ensures part { IfOk result (λ part.
        IsPartAt context.entry.checked.now context.entry.«module» part (Register (always_view always.now))) }
{
    occurrences_are_fit();
    let scope = scope_at(context.checked, context.module);
    let left = left_bits(alloc, scope, context.starts, &always.left)?;
    let least = own_width(context.checked, context.module, &always.left);
    let steps = steps_beside(alloc, context, &always.right, least)?;
    let right = logic_of(alloc, &steps, left.len())?;
    let clock = left_bits(alloc, scope, context.starts, &always.clock)?[0];
    Ok(Part::Register {
        left,
        right,
        clock,
        falling: always.falling,
    })
}
