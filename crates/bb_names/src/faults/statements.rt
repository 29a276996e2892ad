//! The first fault of a statement and of a module. Checking ends with the first statement that has one, so no fault has
//! to be separated from the consequences of an earlier one.
ghost use Rattle.std.specs.Prelude.{◌≡◌, [], List, Some, None, map, take, slice_get, MatchResult, OnOk};
ghost use Rattle.std.specs.List.{flat_map};
ghost use Rattle.bb_ast.specs.Inside.Views.{body_view, module_view};
ghost use Rattle.bb_names.specs.Declarations.{Declaration, declared_by, declared_by_head};
ghost use Rattle.bb_names.specs.Faults.{statement_faults, module_faults};
ghost use Rattle.bb_names.specs.Inside.Firsts.{noted, first_fault, Answers};
ghost use Rattle.bb_names.specs.Sites.{header_sites, item_sites};
ghost use Rattle.bb_names.specs.Inside.Summaries.{Describes, Declares};

use crate::fault::NameFault;
use crate::faults::found::{Found, note};
use crate::faults::items::look_at_item;
use crate::faults::names::look_at_heads;
use crate::indexed::IndexedModule;
use crate::places::is_before;
use crate::sources::IndexedSource;
use crate::summary::Declared;
use bb_ast::Item;
use bb_bits::NoMemory;
use indexmap::IndexMap;
use std::alloc::Global;

fn answer(found: Found, line: u32) -> Result<(), NameFault>
    ensures { MatchResult result (λ _. first_fault line found ≡ None) (λ fault. first_fault line found ≡ Some fault) }
{
    match found.into_fault(line) {
        Some(fault) => Err(fault),
        None => Ok(()),
    }
}

fn look_at_header(
    source: &IndexedSource,
    of: &IndexedModule,
    place: usize,
    earlier: &mut Declared,
    found: &mut Found,
) -> Result<(), NoMemory>
    requires none { Describes earlier.old.entries [] }
    ensures noted { OnOk result (found.new ≡ noted (map module_view source.now) (module_view of.now) found.old
        (header_sites (take place (map module_view source.now)) (module_view of.now))) }
    ensures declared { OnOk result (Describes earlier.new.entries (flat_map declared_by_head
        (module_view of.now).heads)) }
{
    let name = &of.module().name;
    note(&mut found.twice, is_before(source.place(name), place), name)?;
    look_at_heads(of, earlier, found)
}

fn check_header(
    source: &IndexedSource,
    of: &IndexedModule,
    place: usize,
    earlier: &mut Declared,
) -> Result<(), NameFault>
    requires place { slice_get (map module_view source.now) place ≡ Some (module_view of.now) }
    requires none { Describes earlier.old.entries [] }
    ensures answers { Answers result (statement_faults (map module_view source.now) (module_view of.now)
        (module_view of.now).line (header_sites (take place (map module_view source.now)) (module_view of.now))) }
    ensures declared { OnOk result (Describes earlier.new.entries (flat_map declared_by_head
        (module_view of.now).heads)) }
{
    let mut found = Found::none();
    look_at_header(source, of, place, earlier, &mut found)?;
    answer(found, of.module().line)
}

fn check_item(
    alloc: Global,
    source: &IndexedSource,
    of: &IndexedModule,
    earlier: &mut Declared,
    item: &Item,
) -> Result<(), NameFault>
    ensures answers { (before : List Declaration) → Describes earlier.old.entries before
        → Answers result (statement_faults (map module_view source.now) (module_view of.now) item.now.line
        (item_sites (map module_view source.now) before (body_view item.now.body))) }
    ensures declared { Declares result earlier.old.entries earlier.new.entries (declared_by (body_view item.now.body)) }
{
    let mut found = Found::none();
    look_at_item(alloc, source, of, earlier, &item.body, &mut found)?;
    answer(found, item.line)
}

fn check_statements(
    alloc: Global,
    source: &IndexedSource,
    of: &IndexedModule,
    place: usize,
    earlier: &mut Declared,
) -> Result<(), NameFault>
    requires place { slice_get (map module_view source.now) place ≡ Some (module_view of.now) }
    requires none { Describes earlier.old.entries [] }
    ensures answers { Answers result (module_faults (map module_view source.now)
        (take place (map module_view source.now)) (module_view of.now)) }
{
    check_header(source, of, place, earlier)?;
    for item in &of.module().items {
        check_item(alloc, source, of, earlier, item)?;
    }
    Ok(())
}

/// `place` is the module's own, by which earlier modules of its name are seen.
pub(crate) fn check_module(
    alloc: Global,
    source: &IndexedSource,
    of: &IndexedModule,
    place: usize,
) -> Result<(), NameFault>
    requires place { slice_get (map module_view source.now) place ≡ Some (module_view of.now) }
    ensures answers { Answers result (module_faults (map module_view source.now)
        (take place (map module_view source.now)) (module_view of.now)) }
{
    let mut earlier = IndexMap::with_capacity(alloc, of.name_count())?;
    check_statements(alloc, source, of, place, &mut earlier)
}
