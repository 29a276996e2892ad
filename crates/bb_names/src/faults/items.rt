//! Faults of an item. `earlier` holds the declarations before the item, and takes those of the item as it goes: only a
//! second declaration is judged by what comes before it, all else by the module as a whole.
ghost use Rattle.std.specs.Prelude.{◌≡◌, ◌++◌, List, Some, None, Option, map, OnOk};
ghost use Rattle.std.specs.List.{flat_map};
ghost use Rattle.bb_ast.specs.Syntax.{PlainModule, Nets};
ghost use Rattle.bb_ast.specs.Inside.Views.{arm_view, optional_view, named_view, body_view, module_view};
ghost use Rattle.bb_names.specs.Declarations.{Declaration, declared_by};
ghost use Rattle.bb_names.specs.Inside.Firsts.{noted, Notes};
ghost use Rattle.bb_names.specs.Sites.{Read, Driven, initial_sites, sites_in, item_sites};
ghost use Rattle.bb_names.specs.Inside.Summaries.{Describes, Declares};

use crate::faults::expressions::{look, look_at_name};
use crate::faults::found::Found;
use crate::faults::gates::look_at_gates;
use crate::faults::instances::look_at_calls;
use crate::faults::names::{look_at_declared, look_at_names};
use crate::faults::registers::look_at_register;
use crate::faults::roles::Role;
use crate::indexed::IndexedModule;
use crate::net::NetKind;
use crate::sources::IndexedSource;
use crate::summary::{Declared, DeclaredAs, supply_kind_of};
use bb_ast::{Always, Body, Expr, Range};
use bb_bits::{Name, NoMemory};
use std::alloc::Global;

/// A declaration with an assignment drives its net (IEEE 1364-2005, 6.1.1).
fn look_at_initial(
    alloc: Global,
    of: &IndexedModule,
    name: &Name,
    value: &Option<Expr>,
    found: &mut Found,
) -> Result<(), NoMemory>
    ensures noted { Notes result (module_view of.now) found.old found.new (initial_sites (
      name.now,
      optional_view
          value.now,
    )) }
{
    let Some(value) = value else {
        return Ok(());
    };
    look_at_name(of, Role::Driven, name, None, found)?;
    look(alloc, of, Role::Read, value, found)?;
    Ok(())
}

fn look_at_nets(
    alloc: Global,
    of: &IndexedModule,
    earlier: &mut Declared,
    range: Option<Range>,
    nets: &[(Name, Option<Expr>)],
    found: &mut Found,
) -> Result<(), NoMemory>
    ensures noted { (text : List PlainModule) (before : List Declaration) → Describes earlier.old.entries before
        → OnOk result (found.new
        ≡ noted text (module_view of.now) found.old (item_sites text before (Nets range
        (map named_view nets.now)))) }
    ensures declared { Declares result earlier.old.entries earlier.new.entries (declared_by (Nets range
        (map named_view nets.now))) }
{
    for (name, value) in nets {
        look_at_declared(
            of,
            earlier,
            name,
            DeclaredAs::net(NetKind::Wire, range),
            found,
        )?;
        look_at_initial(alloc, of, name, value, found)?;
    }
    Ok(())
}

fn look_at_assigned(
    alloc: Global,
    of: &IndexedModule,
    all: &[(Expr, Expr)],
    found: &mut Found,
) -> Result<(), NoMemory>
    ensures noted { Notes result (module_view of.now) found.old found.new (flat_map
        (λ x. sites_in Driven x.0 ++ sites_in Read x.1) (map arm_view all.now)) }
{
    for (left, right) in all {
        look(alloc, of, Role::Driven, left, found)?;
        look(alloc, of, Role::Read, right, found)?;
    }
    Ok(())
}

pub(crate) fn look_at_item(
    alloc: Global,
    source: &IndexedSource,
    of: &IndexedModule,
    earlier: &mut Declared,
    body: &Body,
    found: &mut Found,
) -> Result<(), NoMemory>
    ensures noted { (before : List Declaration) → Describes earlier.old.entries before
        → OnOk result (found.new
        ≡ noted (map module_view source.now) (module_view of.now) found.old (item_sites
        (map module_view source.now) before (body_view body.now))) }
    ensures declared { Declares result earlier.old.entries earlier.new.entries (declared_by (body_view body.now)) }
{
    match body {
        Body::Ports(port, names) => {
            look_at_names(of, earlier, names, DeclaredAs::port(*port), found)
        }
        Body::Nets(range, nets) => look_at_nets(alloc, of, earlier, *range, nets, found),
        Body::Regs(range, names) => {
            look_at_names(
                of,
                earlier,
                names,
                DeclaredAs::net(NetKind::Reg, *range),
                found,
            )
        }
        Body::Supply(high, range, names) => {
            let d = DeclaredAs::net(supply_kind_of(*high), *range);
            look_at_names(of, earlier, names, d, found)
        }
        Body::Assign(all) => look_at_assigned(alloc, of, all, found),
        Body::Gates(gate, calls) => look_at_gates(alloc, of, *gate, calls, found),
        Body::Calls(target, calls) => {
            look_at_calls(alloc, source, of, earlier, target, calls, found)
        }
        Body::Always(register) => look_at_register(alloc, of, register, found),
    }
}
