//! Implicit wires (IEEE 1364-2005, 4.5): an undeclared name in a terminal, in a connection or on the left of `assign`
//! is a wire of one bit. On a right side it is a fault. An ordered set keeps each name once, in the order of first use,
//! which is where net order has it.
ghost use Rattle.std.specs.Prelude.{◌≡◌, ◌++◌, ◌∷◌, [], map, OnOk, IfOk};
ghost use Rattle.std.specs.List.{flat_map};
ghost use Rattle.bb_ast.specs.Names.{names_in};
ghost use Rattle.bb_ast.specs.Inside.Views.{expression, operand_view, arm_view, optional_view, named_view, gate_view};
ghost use Rattle.bb_ast.specs.Inside.Views.{call_view, conns_view, body_view, item_view};
ghost use Rattle.bb_names.specs.Declarations.{implicit_places, names_in_optional, names_in_conns};
ghost use Rattle.bb_names.specs.Inside.Implicit.{grown};

use crate::summary::Declared;
use bb_ast::{Body, Call, Conns, Expr, GateCall, Item, Op, WordOp};
use bb_bits::{Name, NoMemory};
use indexmap::IndexSet;
use std::alloc::Global;

fn add_name(set: &mut IndexSet<Name>, declared: &Declared, name: &Name) -> Result<(), NoMemory>
    ensures { OnOk result (set.new.keys ≡ grown declared.now.entries set.old.keys (name.now ∷ [])) }
{
    if !declared.contains_key(name) && !set.contains(name) {
        set.insert(name.clone()?)?;
    }
    Ok(())
}

#[cycle(names)]
fn add_expr(set: &mut IndexSet<Name>, declared: &Declared, expr: &Expr) -> Result<(), NoMemory>
    ensures { OnOk result (set.new.keys ≡ grown declared.now.entries set.old.keys (names_in (expression expr.now))) }
{
    match expr {
        Expr::Net(name) | Expr::Bit(name, _) | Expr::Part(name, _, _) => {
            add_name(set, declared, name)
        }
        Expr::Sized(_) | Expr::Plain(_) => Ok(()),
        Expr::Not(_, operand) => add_expr(set, declared, operand),
        Expr::Fold(_, operand) => add_expr(set, declared, operand),
        Expr::Chain(first, rest) => {
            add_expr(set, declared, first)?;
            add_operands(set, declared, rest)
        }
        Expr::Words(first, rest) => {
            add_expr(set, declared, first)?;
            add_words(set, declared, rest)
        }
        Expr::Cond(arms, last) => {
            add_arms(set, declared, arms)?;
            add_expr(set, declared, last)
        }
        Expr::Concat(parts) => add_parts(set, declared, parts),
        Expr::Repeat(_, parts) => add_parts(set, declared, parts),
    }
}

#[cycle(names)]
fn add_operands(
    set: &mut IndexSet<Name>,
    declared: &Declared,
    rest: &[(Op, Expr)],
) -> Result<(), NoMemory>
    ensures { OnOk result (set.new.keys
        ≡ grown declared.now.entries set.old.keys (flat_map (λ x. names_in x.1) (map operand_view rest.now))) }
{
    for (_, operand) in rest {
        add_expr(set, declared, operand)?;
    }
    Ok(())
}

#[cycle(names)]
fn add_words(
    set: &mut IndexSet<Name>,
    declared: &Declared,
    rest: &[(WordOp, Expr)],
) -> Result<(), NoMemory>
    ensures { OnOk result (set.new.keys
        ≡ grown declared.now.entries set.old.keys (flat_map (λ x. names_in x.1) (map operand_view rest.now))) }
{
    for (_, operand) in rest {
        add_expr(set, declared, operand)?;
    }
    Ok(())
}

#[cycle(names)]
fn add_arms(
    set: &mut IndexSet<Name>,
    declared: &Declared,
    arms: &[(Expr, Expr)],
) -> Result<(), NoMemory>
    ensures { OnOk result (set.new.keys
        ≡ grown declared.now.entries set.old.keys (flat_map (λ x. names_in x.0 ++ names_in x.1)
        (map arm_view arms.now))) }
{
    for (condition, value) in arms {
        add_expr(set, declared, condition)?;
        add_expr(set, declared, value)?;
    }
    Ok(())
}

#[cycle(names)]
fn add_parts(set: &mut IndexSet<Name>, declared: &Declared, parts: &[Expr]) -> Result<(), NoMemory>
    ensures { OnOk result (set.new.keys
        ≡ grown declared.now.entries set.old.keys (flat_map names_in (map expression parts.now))) }
{
    for part in parts {
        add_expr(set, declared, part)?;
    }
    Ok(())
}

fn add_left_sides(
    set: &mut IndexSet<Name>,
    declared: &Declared,
    all: &[(Expr, Expr)],
) -> Result<(), NoMemory>
    ensures { OnOk result (set.new.keys
        ≡ grown declared.now.entries set.old.keys (flat_map (λ x. names_in x.0) (map arm_view all.now))) }
{
    for (left, _) in all {
        add_expr(set, declared, left)?;
    }
    Ok(())
}

fn add_gates(
    set: &mut IndexSet<Name>,
    declared: &Declared,
    gates: &[GateCall],
) -> Result<(), NoMemory>
    ensures { OnOk result (set.new.keys
        ≡ grown declared.now.entries set.old.keys (flat_map (λ x. flat_map names_in x.1) (map gate_view gates.now))) }
{
    for gate in gates {
        add_parts(set, declared, gate.terms.as_slice())?;
    }
    Ok(())
}

fn add_optional(
    set: &mut IndexSet<Name>,
    declared: &Declared,
    place: &Option<Expr>,
) -> Result<(), NoMemory>
    ensures { OnOk result (set.new.keys
        ≡ grown declared.now.entries set.old.keys (names_in_optional (optional_view place.now))) }
{
    match place {
        Some(expr) => add_expr(set, declared, expr),
        None => Ok(()),
    }
}

fn add_places(
    set: &mut IndexSet<Name>,
    declared: &Declared,
    places: &[Option<Expr>],
) -> Result<(), NoMemory>
    ensures { OnOk result (set.new.keys
        ≡ grown declared.now.entries set.old.keys (flat_map names_in_optional (map optional_view places.now))) }
{
    for place in places {
        add_optional(set, declared, place)?;
    }
    Ok(())
}

fn add_named(
    set: &mut IndexSet<Name>,
    declared: &Declared,
    all: &[(Name, Option<Expr>)],
) -> Result<(), NoMemory>
    ensures { OnOk result (set.new.keys
        ≡ grown declared.now.entries set.old.keys (flat_map (λ x. names_in_optional x.1) (map named_view all.now))) }
{
    for (_, place) in all {
        add_optional(set, declared, place)?;
    }
    Ok(())
}

fn add_calls(set: &mut IndexSet<Name>, declared: &Declared, calls: &[Call]) -> Result<(), NoMemory>
    ensures { OnOk result (set.new.keys
        ≡ grown declared.now.entries set.old.keys (flat_map (λ x. names_in_conns x.1) (map call_view calls.now))) }
{
    for call in calls {
        add_conns(set, declared, &call.conns)?;
    }
    Ok(())
}

fn add_conns(set: &mut IndexSet<Name>, declared: &Declared, conns: &Conns) -> Result<(), NoMemory>
    ensures { OnOk result (set.new.keys
        ≡ grown declared.now.entries set.old.keys (names_in_conns (conns_view conns.now))) }
{
    match conns {
        Conns::Order(places) => add_places(set, declared, places),
        Conns::Named(all) => add_named(set, declared, all),
    }
}

fn add_item(set: &mut IndexSet<Name>, declared: &Declared, body: &Body) -> Result<(), NoMemory>
    ensures { OnOk result (set.new.keys
        ≡ grown declared.now.entries set.old.keys (implicit_places (body_view body.now))) }
{
    match body {
        Body::Assign(all) => add_left_sides(set, declared, all),
        Body::Gates(_, gates) => add_gates(set, declared, gates),
        Body::Calls(_, calls) => add_calls(set, declared, calls),
        _ => Ok(()),
    }
}

/// In the order in which each is first used.
pub(crate) fn add_implicit_wires(
    set: &mut IndexSet<Name>,
    declared: &Declared,
    items: &[Item],
) -> Result<(), NoMemory>
    ensures { OnOk result (set.new.keys ≡ grown declared.now.entries set.old.keys
        (flat_map (λ item. implicit_places item.body) (map item_view items.now))) }
{
    for item in items {
        add_item(set, declared, &item.body)?;
    }
    Ok(())
}
