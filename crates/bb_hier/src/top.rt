//! The top module: the named one, or the only module that no module instantiates. With several such modules there is no
//! default, since any choice would silently leave a design unchecked.

ghost use Rattle.std.specs.Prelude.{◌≡◌, ◌||◌, ◌<◌, ℕ, List, not, map, length, filter, slice_get, IfOk, IfSome, OnOk};
ghost use Rattle.std.specs.Prelude.{option_copied};
ghost use Rattle.std.specs.List.{list_any};
ghost use Rattle.std.specs.Option.{option_and_then};
ghost use Rattle.bb_bits.specs.Names.{same_name};
ghost use Rattle.bb_ast.specs.Inside.Views.{body_view, item_view};
ghost use Rattle.bb_names.specs.Inside.Checked.{module_facts, syntax};
ghost use Rattle.bb_names.specs.Sites.{module_named};
ghost use Rattle.bb_design.specs.Hierarchy.{instances_in, instances_of, is_instantiated, roots, the_only, top_of};

use bb_ast::{Body, Item};
use bb_bits::{Name, NoMemory};
use bb_names::{Checked, CheckedModule};
use indexmap::IndexSet;
use std::alloc::Global;

fn add_target(item: &Item, targets: &mut IndexSet<Name>) -> Result<(), NoMemory>
    ensures ok { OnOk result ((n : List ℕ)
        → list_any (same_name n) targets.new.keys
        ≡ (list_any (same_name n) targets.old.keys
        || list_any (λ i. same_name i.target n) (instances_in (body_view item.now.body)))) }
{
    match &item.body {
        Body::Calls(target, calls) if !calls.is_empty() => {
            targets.insert(target.clone()?)?;
        }
        _ => {}
    }
    Ok(())
}

fn add_targets(items: &[Item], targets: &mut IndexSet<Name>) -> Result<(), NoMemory>
    ensures ok { OnOk result ((n : List ℕ)
        → list_any (same_name n) targets.new.keys
        ≡ (list_any (same_name n) targets.old.keys
        || list_any (λ item. list_any (λ i. same_name i.target n) (instances_in item.body))
        (map item_view items.now))) }
{
    for item in items {
        add_target(item, targets)?;
    }
    Ok(())
}

fn targets(alloc: Global, modules: &[CheckedModule]) -> Result<IndexSet<Name>, NoMemory>
    ensures ok { IfOk result (λ targets. (n : List ℕ)
        → list_any (same_name n) targets.keys ≡ is_instantiated (map syntax (map module_facts modules.now)) n) }
{
    let mut targets = IndexSet::new(alloc);
    for checked in modules {
        add_targets(&checked.module.items, &mut targets)?;
    }
    Ok(targets)
}

fn place_named(modules: &[CheckedModule], name: &[u8]) -> Option<usize>
    ensures there { IfSome result (λ k. k < length modules.now) }
    ensures place { option_and_then (slice_get (map syntax (map module_facts modules.now))) result
        ≡ module_named (map syntax (map module_facts modules.now)) name.now }
{
    for k in 0..modules.len() {
        if modules[k].module.name.bytes() == name {
            return Some(k);
        }
    }
    None
}

// None where there is no such module or a second one.
fn place_outside(modules: &[CheckedModule], targets: &IndexSet<Name>) -> Option<usize>
    ensures there { IfSome result (λ k. k < length modules.now) }
    ensures place { option_and_then (slice_get (map syntax (map module_facts modules.now))) result
        ≡ the_only (filter (λ m. not (list_any (same_name m.name) targets.now.keys)) (map syntax
        (map module_facts modules.now))) }
{
    let mut found = None;
    for k in 0..modules.len() {
        if !targets.contains(&modules[k].module.name) {
            if found.is_some() {
                return None;
            }
            found = Some(k);
        }
    }
    found
}

fn root(alloc: Global, modules: &[CheckedModule]) -> Result<Option<usize>, NoMemory>
    ensures there { IfOk result (λ found. IfSome found (λ k. k < length modules.now)) }
    ensures place { IfOk result (λ found. option_and_then (slice_get (map syntax (map module_facts modules.now)))
        found
        ≡ the_only (roots (map syntax (map module_facts modules.now)))) }
{
    let targets = targets(alloc, modules)?;
    Ok(place_outside(modules, &targets))
}

/// None where no module has the given name; or, without a name, where no module or more than one is instantiated
/// nowhere.
pub fn place_of_top(
    alloc: Global,
    checked: &Checked,
    name: Option<&[u8]>,
) -> Result<Option<usize>, NoMemory>
    ensures there { IfOk result (λ found. IfSome found (λ k. k < length checked.now)) }
    ensures place { IfOk result (λ found. option_and_then (slice_get (map syntax checked.now)) found
        ≡ top_of (map syntax checked.now) (option_copied name.entry)) }
{
    match name {
        Some(name) => Ok(place_named(checked.modules(), name)),
        None => root(alloc, checked.modules()),
    }
}
