//! All declarations of a module, by name. They are collected before any use is checked, because a declaration counts
//! for the whole module, also for uses before it (IEEE 1364-2005, 4.11 in a profile).
ghost use Rattle.std.specs.Prelude.{◌≡◌, ◌++◌, [], List, map, OnOk};
ghost use Rattle.std.specs.List.{flat_map};
ghost use Rattle.bb_ast.specs.Inside.Views.{head_view, body_view, named_view, call_view, module_view};
ghost use Rattle.bb_names.specs.Declarations.{Declaration, declared_by_head, declared_by, declarations};
ghost use Rattle.bb_names.specs.Declarations.{instance_declaration};
ghost use Rattle.bb_ast.specs.Syntax.{Nets};
ghost use Rattle.bb_names.specs.Inside.Summaries.{named, Describes};

use crate::net::NetKind;
use crate::summary::{Declared, DeclaredAs, declare, supply_kind_of};
use bb_ast::{Body, Call, Expr, Head, Module, Range};
use bb_bits::{Name, NoMemory};

fn declare_head(declared: &mut Declared, head: &Head) -> Result<(), NoMemory>
    ensures { (all : List Declaration) → Describes declared.old.entries all
        → OnOk result (Describes declared.new.entries (all ++ declared_by_head (head_view head.now))) }
{
    match head.decl {
        Some(port) => declare(declared, &head.name, DeclaredAs::port(port)),
        None => Ok(()),
    }
}

fn declare_heads(declared: &mut Declared, heads: &[Head]) -> Result<(), NoMemory>
    ensures { (all : List Declaration) → Describes declared.old.entries all
        → OnOk result (Describes declared.new.entries (all ++ flat_map declared_by_head (map head_view heads.now))) }
{
    for head in heads {
        declare_head(declared, head)?;
    }
    Ok(())
}

fn declare_names(declared: &mut Declared, names: &[Name], d: DeclaredAs) -> Result<(), NoMemory>
    ensures { (all : List Declaration) → Describes declared.old.entries all
        → OnOk result (Describes declared.new.entries (all ++ map (λ n. named n d) names.now)) }
{
    for name in names {
        declare(declared, name, d)?;
    }
    Ok(())
}

fn declare_nets(
    declared: &mut Declared,
    nets: &[(Name, Option<Expr>)],
    range: Option<Range>,
) -> Result<(), NoMemory>
    ensures { (all : List Declaration) → Describes declared.old.entries all
        → OnOk result (Describes declared.new.entries (all ++ declared_by (Nets range (map named_view nets.now)))) }
{
    for (name, _) in nets {
        declare(declared, name, DeclaredAs::net(NetKind::Wire, range))?;
    }
    Ok(())
}

fn declare_calls(declared: &mut Declared, calls: &[Call]) -> Result<(), NoMemory>
    ensures { (all : List Declaration) → Describes declared.old.entries all
        → OnOk result (Describes declared.new.entries (all
        ++ map (λ x. instance_declaration x.0) (map call_view calls.now))) }
{
    for call in calls {
        declare(declared, &call.name, DeclaredAs::instance())?;
    }
    Ok(())
}

fn declare_item(declared: &mut Declared, body: &Body) -> Result<(), NoMemory>
    ensures { (all : List Declaration) → Describes declared.old.entries all
        → OnOk result (Describes declared.new.entries (all ++ declared_by (body_view body.now))) }
{
    match body {
        Body::Ports(port, names) => declare_names(declared, names, DeclaredAs::port(*port)),
        Body::Nets(range, nets) => declare_nets(declared, nets, *range),
        Body::Regs(range, names) => {
            declare_names(declared, names, DeclaredAs::net(NetKind::Reg, *range))
        }
        Body::Supply(high, range, names) => {
            let d = DeclaredAs::net(supply_kind_of(*high), *range);
            declare_names(declared, names, d)
        }
        Body::Calls(_, calls) => declare_calls(declared, calls),
        Body::Assign(_) | Body::Gates(..) | Body::Always(_) => Ok(()),
    }
}

pub(crate) fn declare_all(declared: &mut Declared, parsed: &Module) -> Result<(), NoMemory>
    requires none { declared.old.entries ≡ [] }
    ensures { OnOk result (Describes declared.new.entries (declarations (module_view parsed.now))) }
{
    declare_heads(declared, &parsed.heads)?;
    for item in &parsed.items {
        declare_item(declared, &item.body)?;
    }
    Ok(())
}
