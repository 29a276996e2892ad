//! Which module instantiates which, by their places in the text. Names are looked up here, once; what follows compares
//! numbers.

ghost use Rattle.std.specs.Prelude.{◌≡◌, ◌++◌, ℕ, List, map, replicate, IfOk, OnOk};
ghost use Rattle.std.specs.List.{filter_map, flat_map};
ghost use Rattle.std.specs.Map.{lookup};
ghost use Rattle.bb_bits.specs.Names.{same_name};
ghost use Rattle.bb_ast.specs.Inside.Views.{body_view, item_view};
ghost use Rattle.bb_names.specs.Inside.Checked.{module_facts, syntax};
ghost use Rattle.bb_design.specs.Inside.Callees.{place_named, callees};
ghost use Rattle.bb_design.specs.Hierarchy.{instances_in, instances_of};

use bb_ast::{Body, Item};
use bb_bits::{Name, NoMemory};
use bb_names::{Checked, CheckedModule};
use indexmap::IndexMap;
use std::alloc::Global;

// A later module of the same name is a fault and changes nothing.
fn places(alloc: Global, modules: &[CheckedModule]) -> Result<IndexMap<Name, usize>, NoMemory>
    ensures ok { IfOk result (λ places. (n : List ℕ)
        → lookup (same_name n) places.entries ≡ place_named (map syntax (map module_facts modules.now)) n) }
{
    let mut places = IndexMap::new(alloc);
    for k in 0..modules.len() {
        let name = &modules[k].module.name;
        if !places.contains_key(name) {
            places.insert(name.clone()?, k)?;
        }
    }
    Ok(places)
}

fn place_of(places: &IndexMap<Name, usize>, name: &Name) -> Option<usize>
    ensures { result ≡ lookup (same_name name.now) places.now.entries }
{
    places.get(name).copied()
}

fn repeat(place: usize, times: usize, list: &mut Vec<usize>) -> Result<(), NoMemory>
    ensures ok { OnOk result (list.new.items ≡ list.old.items ++ replicate times place) }
{
    for _ in 0..times {
        list.push(place)?;
    }
    Ok(())
}

fn add_callees(
    places: &IndexMap<Name, usize>,
    item: &Item,
    list: &mut Vec<usize>,
) -> Result<(), NoMemory>
    ensures ok { OnOk result (list.new.items
        ≡ list.old.items
        ++ filter_map (λ i. lookup (same_name i.target) places.now.entries) (instances_in
        (body_view item.now.body))) }
{
    if let Body::Calls(target, calls) = &item.body {
        if let Some(place) = place_of(places, target) {
            repeat(place, calls.len(), list)?;
        }
    }
    Ok(())
}

fn callees_in(
    alloc: Global,
    places: &IndexMap<Name, usize>,
    items: &[Item],
) -> Result<Vec<usize>, NoMemory>
    ensures ok { IfOk result (λ list. list.items
        ≡ filter_map (λ i. lookup (same_name i.target) places.now.entries) (flat_map
        (λ item. instances_in item.body) (map item_view items.now))) }
{
    let mut list = Vec::new(alloc);
    for item in items {
        add_callees(places, item, &mut list)?;
    }
    Ok(list)
}

fn all_callees(
    alloc: Global,
    places: &IndexMap<Name, usize>,
    modules: &[CheckedModule],
) -> Result<Vec<Vec<usize>>, NoMemory>
    ensures ok { IfOk result (λ all. map (λ list. list.items) all.items
        ≡ map (λ m. filter_map (λ i. lookup (same_name i.target) places.now.entries) (instances_of m))
        (map syntax (map module_facts modules.now))) }
{
    let mut all = Vec::new(alloc);
    for checked in modules {
        all.push(callees_in(alloc, places, &checked.module.items)?)?;
    }
    Ok(all)
}

/// One place for each instance, in text order; `Call` items that list several instances give several.
pub(crate) fn callees_of(alloc: Global, checked: &Checked) -> Result<Vec<Vec<usize>>, NoMemory>
    ensures ok { IfOk result (λ all.
        map (λ list. list.items) all.items ≡ map (callees (map syntax checked.now)) (map syntax checked.now)) }
{
    let modules = checked.modules();
    let places = places(alloc, modules)?;
    let all = all_callees(alloc, &places, modules)?;
    Ok(all)
}
