//! Faults of declared names and of the names of a header. A name of a header needs a direction, in the header or in any
//! item.
ghost use Rattle.std.specs.Prelude.{◌≡◌, ◌∷◌, [], List, map, take, OnOk};
ghost use Rattle.std.specs.List.{flat_map};
ghost use Rattle.bb_ast.specs.Syntax.{PlainHead, PlainModule};
ghost use Rattle.bb_ast.specs.Inside.Views.{module_view, head_view};
ghost use Rattle.bb_names.specs.Declarations.{Declaration, declared_by_head};
ghost use Rattle.bb_names.specs.Inside.Firsts.{noted, head_sites, Notes};
ghost use Rattle.bb_names.specs.Sites.{HeadName, Declared as DeclaredSite, declared_sites};
ghost use Rattle.bb_names.specs.Inside.Summaries.{named, Describes, Declares};
ghost use Rattle.bb_bits.specs.Earlier.{each_after};

use crate::faults::found::{Found, note};
use crate::faults::roles::is_wrong_declaration;
use crate::faults::widths::{WIDEST, width_of};
use crate::indexed::IndexedModule;
use crate::places::is_before;
use crate::summary::{Declared, DeclaredAs, declare_next, is_clash};
use bb_ast::Head;
use bb_bits::{Name, NoMemory};

pub(crate) fn look_at_declared(
    of: &IndexedModule,
    earlier: &mut Declared,
    name: &Name,
    d: DeclaredAs,
    found: &mut Found,
) -> Result<(), NoMemory>
    ensures noted { (text : List PlainModule) (before : List Declaration) → Describes earlier.old.entries before
        → OnOk result (found.new
        ≡ noted text (module_view of.now) found.old (DeclaredSite before (named name.now d) ∷ [])) }
    ensures declared { Declares result earlier.old.entries earlier.new.entries (named name.now d ∷ []) }
{
    let before = declare_next(earlier, name, d)?;
    let port = of.is_port(name);
    note(&mut found.twice, is_clash(port, before, d), name)?;
    let facts = of.facts(name);
    note(&mut found.width, WIDEST < width_of(facts.range), name)?;
    let input = of.is_input_port(name, facts);
    let wrong = is_wrong_declaration(d, facts.kind, port, input);
    note(&mut found.role, wrong, name)
}

pub(crate) fn look_at_names(
    of: &IndexedModule,
    earlier: &mut Declared,
    names: &[Name],
    d: DeclaredAs,
    found: &mut Found,
) -> Result<(), NoMemory>
    ensures noted { (text : List PlainModule) (before : List Declaration) → Describes earlier.old.entries before
        → OnOk result (found.new
        ≡ noted text (module_view of.now) found.old (declared_sites before (map (λ n. named n d) names.now))) }
    ensures declared { Declares result earlier.old.entries earlier.new.entries (map (λ n. named n d) names.now) }
{
    for name in names {
        look_at_declared(of, earlier, name, d, found)?;
    }
    Ok(())
}

fn look_at_head_name(
    of: &IndexedModule,
    place: usize,
    name: &Name,
    found: &mut Found,
) -> Result<(), NoMemory>
    ensures { Notes result (module_view of.now) found.old found.new (HeadName
        (take place (module_view of.now).heads) name.now
        ∷ []) }
{
    note(
        &mut found.twice,
        is_before(of.port_place(name), place),
        name,
    )?;
    let nowhere = of.facts(name).dir.is_none();
    note(&mut found.unknown, nowhere, name)
}

fn look_at_head_port(
    of: &IndexedModule,
    earlier: &mut Declared,
    head: &Head,
    found: &mut Found,
) -> Result<(), NoMemory>
    ensures noted { (text : List PlainModule) (before : List Declaration) → Describes earlier.old.entries before
        → OnOk result (found.new
        ≡ noted text (module_view of.now) found.old (declared_sites before (declared_by_head
        (head_view head.now)))) }
    ensures declared { Declares result earlier.old.entries earlier.new.entries (declared_by_head (head_view head.now)) }
{
    match head.decl {
        Some(port) => look_at_declared(of, earlier, &head.name, DeclaredAs::port(port), found),
        None => Ok(()),
    }
}

fn look_at_head(
    of: &IndexedModule,
    earlier: &mut Declared,
    place: usize,
    head: &Head,
    found: &mut Found,
) -> Result<(), NoMemory>
    ensures noted { (text : List PlainModule) (prefix : List PlainHead)
        → take place (module_view of.now).heads ≡ prefix
        → Describes earlier.old.entries (flat_map declared_by_head prefix)
        → OnOk result (found.new
        ≡ noted text (module_view of.now) found.old (head_sites prefix (head_view head.now))) }
    ensures declared { Declares result earlier.old.entries earlier.new.entries (declared_by_head (head_view head.now)) }
{
    look_at_head_name(of, place, &head.name, found)?;
    look_at_head_port(of, earlier, head, found)
}

pub(crate) fn look_at_heads(
    of: &IndexedModule,
    earlier: &mut Declared,
    found: &mut Found,
) -> Result<(), NoMemory>
    ensures noted { (text : List PlainModule) → Describes earlier.old.entries []
        → OnOk result (found.new
        ≡ noted text (module_view of.now) found.old (each_after head_sites (module_view of.now).heads)) }
    ensures declared { Describes earlier.old.entries []
        → OnOk result (Describes earlier.new.entries (flat_map declared_by_head (module_view of.now).heads)) }
{
    for (place, head) in of.module().heads.iter().enumerate() {
        look_at_head(of, earlier, place, head, found)?;
    }
    Ok(())
}
