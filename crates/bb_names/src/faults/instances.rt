//! Faults of instances (IEEE 1364-2005, 12.3.5, 12.3.6 and 12.3.9). A connection that names no port is unknown, and not
//! also a second one. Where the instance's module is not in the text, that is the only fault of its list of ports:
//! without a header nothing can be said of names and widths, but the connected expressions are still checked.
ghost use Rattle.std.specs.Prelude.{◌≡◌, ◌≤◌, ◌^◌, ◌++◌, ◌∷◌, [], ℕ, List, Some, Option, false, map, length, nat_lt};
ghost use Rattle.std.specs.Prelude.{◌&&◌, not, option_map, OnOk, IfSome};
ghost use Rattle.std.specs.Option.{option_map_or};
ghost use Rattle.bb_ast.specs.Syntax.{PlainModule, Order, Named, Calls};
ghost use Rattle.bb_ast.specs.Assignable.{is_assignable};
ghost use Rattle.bb_ast.specs.Inside.Views.{expression, optional_view, named_view, conns_view, call_view, module_view};
ghost use Rattle.bb_names.specs.Declarations.{Declaration, declared_by, instance_declaration};
ghost use Rattle.bb_names.specs.Faults.{is_input};
ghost use Rattle.bb_names.specs.Inside.Firsts.{noted, use_of, call_sites, AreSame, Notes};
ghost use Rattle.bb_bits.specs.Earlier.{has_name};
ghost use Rattle.bb_names.specs.Sites.{PortName, use_at, joined_sites, conns_sites, place_count, item_sites};
ghost use Rattle.bb_names.specs.Inside.Summaries.{Describes, Declares};

use crate::faults::expressions::{look, look_at_width};
use crate::faults::found::{Found, note};
use crate::faults::names::look_at_declared;
use crate::faults::pins::{Pin, pin_by_name, pin_by_place};
use crate::faults::roles::{Role, may_be_written};
use crate::indexed::IndexedModule;
use crate::sources::IndexedSource;
use crate::summary::{Declared, DeclaredAs};
use bb_ast::{Call, Conns, Dir, Expr};
use bb_bits::{Name, NoMemory};
use indexmap::IndexSet;
use std::alloc::Global;

fn role_at(dir: Dir) -> Role
    ensures { use_of result ≡ use_at dir }
{
    match dir {
        Dir::Input => Role::Read,
        Dir::Output => Role::Driven,
    }
}

fn is_wrong_at(dir: Dir, expr: &Expr) -> bool
    ensures { result ≡ (not (is_input dir) && not (is_assignable (expression expr.now))) }
{
    match dir {
        Dir::Input => false,
        Dir::Output => !may_be_written(expr),
    }
}

/// `pin` is none where there is no such port, which is reported elsewhere.
fn look_at_joined(
    alloc: Global,
    of: &IndexedModule,
    pin: Option<Pin<'_>>,
    expr: &Expr,
    found: &mut Found,
) -> Result<(), NoMemory>
    requires small { IfSome pin (λ p. p.width ≤ 2 ^ 32) }
    ensures noted { Notes result (module_view of.now) found.old found.new (joined_sites
        (option_map (λ p. record { name = p.name.now; dir = p.dir; width = p.width }) pin.entry)
        (Some (expression expr.now))) }
{
    let Some(pin) = pin else {
        look(alloc, of, Role::Read, expr, found)?;
        return Ok(());
    };
    note(&mut found.role, is_wrong_at(pin.dir, expr), pin.name)?;
    look_at_width(
        alloc,
        of,
        role_at(pin.dir),
        expr,
        pin.width,
        pin.name.bytes(),
        found,
    )
}

fn look_at_place(
    alloc: Global,
    of: &IndexedModule,
    pin: Option<Pin<'_>>,
    place: &Option<Expr>,
    found: &mut Found,
) -> Result<(), NoMemory>
    requires small { IfSome pin (λ p. p.width ≤ 2 ^ 32) }
    ensures noted { Notes result (module_view of.now) found.old found.new (joined_sites
        (option_map (λ p. record { name = p.name.now; dir = p.dir; width = p.width }) pin.entry)
        (optional_view place.now)) }
{
    match place {
        Some(expr) => look_at_joined(alloc, of, pin, expr, found),
        None => Ok(()),
    }
}

fn look_at_places(
    alloc: Global,
    of: &IndexedModule,
    target: Option<&IndexedModule>,
    places: &[Option<Expr>],
    found: &mut Found,
) -> Result<(), NoMemory>
    ensures noted { Notes result (module_view of.now) found.old found.new (conns_sites
        (option_map (λ t. module_view t.now) target.entry) (Order (map optional_view places.now))) }
{
    for (k, place) in places.iter().enumerate() {
        look_at_place(alloc, of, pin_by_place(target, k), place, found)?;
    }
    Ok(())
}

/// `again` says whether an earlier connection of this instance has the name.
fn look_at_port_of(
    target: &IndexedModule,
    again: bool,
    name: &Name,
    found: &mut Found,
) -> Result<(), NoMemory>
    ensures { (text : List PlainModule) (m : PlainModule) (before : List (List ℕ))
        → again ≡ has_name name.now before
        → OnOk result (found.new
        ≡ noted text m found.old (PortName (Some (module_view target.now)) before name.now ∷ [])) }
{
    note(&mut found.twice, target.is_port(name) && again, name)?;
    let nowhere = target.port_direction(name).is_none();
    note(&mut found.unknown, nowhere, name)
}

fn look_at_port(
    target: Option<&IndexedModule>,
    earlier: &mut IndexSet<Name>,
    name: &Name,
    found: &mut Found,
) -> Result<(), NoMemory>
    ensures noted { (text : List PlainModule) (m : PlainModule) (before : List (List ℕ))
        → AreSame earlier.old.keys before
        → OnOk result (found.new
        ≡ noted text m found.old (PortName (option_map (λ t. module_view t.now) target.entry) before name.now
        ∷ [])) }
    ensures names { (before : List (List ℕ)) → AreSame earlier.old.keys before
        → OnOk result (AreSame earlier.new.keys (before ++ name.now ∷ [])) }
{
    let again = earlier.contains(name);
    earlier.insert(name.clone()?)?;
    match target {
        Some(target) => look_at_port_of(target, again, name, found),
        None => Ok(()),
    }
}

fn look_at_connections(
    alloc: Global,
    of: &IndexedModule,
    target: Option<&IndexedModule>,
    earlier: &mut IndexSet<Name>,
    all: &[(Name, Option<Expr>)],
    found: &mut Found,
) -> Result<(), NoMemory>
    requires none { earlier.old.keys ≡ [] }
    ensures noted { Notes result (module_view of.now) found.old found.new (conns_sites
        (option_map (λ t. module_view t.now) target.entry) (Named (map named_view all.now))) }
{
    for (name, place) in all {
        look_at_port(target, earlier, name, found)?;
        look_at_place(alloc, of, pin_by_name(target, name), place, found)?;
    }
    Ok(())
}

fn look_at_named(
    alloc: Global,
    of: &IndexedModule,
    target: Option<&IndexedModule>,
    all: &[(Name, Option<Expr>)],
    found: &mut Found,
) -> Result<(), NoMemory>
    ensures noted { Notes result (module_view of.now) found.old found.new (conns_sites
        (option_map (λ t. module_view t.now) target.entry) (Named (map named_view all.now))) }
{
    let mut earlier = IndexSet::new(alloc);
    look_at_connections(alloc, of, target, &mut earlier, all, found)
}

/// Reported at the instance's name, since a connection too many has no port to be named by.
fn has_too_many(target: Option<&IndexedModule>, conns: &Conns) -> bool
    ensures { result
        ≡ option_map_or (λ t. nat_lt (length t.heads) (place_count (conns_view conns.now)))
        (option_map (λ t. module_view t.now) target.entry) false }
{
    match (target, conns) {
        (Some(target), Conns::Order(places)) => target.module().heads.len() < places.len(),
        _ => false,
    }
}

fn look_at_conns(
    alloc: Global,
    of: &IndexedModule,
    target: Option<&IndexedModule>,
    conns: &Conns,
    found: &mut Found,
) -> Result<(), NoMemory>
    ensures noted { Notes result (module_view of.now) found.old found.new (conns_sites
        (option_map (λ t. module_view t.now) target.entry) (conns_view conns.now)) }
{
    match conns {
        Conns::Order(places) => look_at_places(alloc, of, target, places, found),
        Conns::Named(all) => look_at_named(alloc, of, target, all, found),
    }
}

fn look_at_call(
    alloc: Global,
    of: &IndexedModule,
    target: Option<&IndexedModule>,
    earlier: &mut Declared,
    call: &Call,
    found: &mut Found,
) -> Result<(), NoMemory>
    ensures noted { (text : List PlainModule) (before : List Declaration) → Describes earlier.old.entries before
        → OnOk result (found.new
        ≡ noted text (module_view of.now) found.old (call_sites
        (option_map (λ t. module_view t.now) target.entry) before (call_view call.now))) }
    ensures declared { Declares result earlier.old.entries earlier.new.entries (instance_declaration call.now.name
        ∷ []) }
{
    look_at_declared(of, earlier, &call.name, DeclaredAs::instance(), found)?;
    note(
        &mut found.role,
        has_too_many(target, &call.conns),
        &call.name,
    )?;
    look_at_conns(alloc, of, target, &call.conns, found)
}

pub(crate) fn look_at_calls(
    alloc: Global,
    source: &IndexedSource,
    of: &IndexedModule,
    earlier: &mut Declared,
    target: &Name,
    calls: &[Call],
    found: &mut Found,
) -> Result<(), NoMemory>
    ensures noted { (before : List Declaration) → Describes earlier.old.entries before
        → OnOk result (found.new
        ≡ noted (map module_view source.now) (module_view of.now) found.old (item_sites
        (map module_view source.now) before (Calls target.now (map call_view calls.now)))) }
    ensures declared { Declares result earlier.old.entries earlier.new.entries (declared_by (Calls target.now
        (map call_view calls.now))) }
{
    let to = source.named(target);
    note(&mut found.unknown, to.is_none(), target)?;
    for call in calls {
        look_at_call(alloc, of, to, earlier, call, found)?;
    }
    Ok(())
}
