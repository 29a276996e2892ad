//! Module summaries (`ModuleSummary`): what all scopes of a module have in common, found once a module, so that a scope
//! costs only the instances in it.

ghost use Rattle.std.specs.Prelude.{◌≡◌, ◌-◌, ◌^◌, ◌++◌, All, map, min, sum_by, IfOk, OnOk};
ghost use Rattle.std.specs.List.{AllZip, flat_map};
ghost use Rattle.bb_ast.specs.Inside.Views.{body_view, item_view};
ghost use Rattle.bb_names.specs.Inside.Checked.{module_facts, syntax, HasNets};
ghost use Rattle.bb_names.specs.Ranges.{range_width};
ghost use Rattle.bb_design.specs.Hierarchy.{instances_in};
ghost use Rattle.bb_hier.specs.Inside.ModuleSummaries.{IsModuleSummary};

use crate::depth::calls_in;
use bb_ast::{Item, Range};
use bb_bits::{Name, NoMemory};
use bb_names::{CheckedModule, NetInfo};
use std::alloc::Global;

/// `names` has the instances in text order, `bits` the bits of all nets, and `empty` says that a scope of it is a black
/// box, unless it is the top.
#[derive(Debug, Drop)]
pub struct ModuleSummary {
    pub names: Vec<Name>,
    pub bits: u64,
    pub empty: bool,
}

fn width_of(range: Option<Range>) -> u64
    ensures { result ≡ range_width range }
{
    match range {
        Some(range) => u64::from(range.left.abs_diff(range.right)) + 1,
        None => 1,
    }
}

// Saturates at 2^64 - 1, which no bound on designs admits.
fn bits_of(nets: &[NetInfo]) -> u64
    ensures { result ≡ min (sum_by (λ net. range_width net.range) nets.now) (2 ^ 64 - 1) }
{
    let mut bits = 0u64;
    for net in nets {
        bits = bits.saturating_add(width_of(net.range));
    }
    bits
}

fn add_names(item: &Item, names: &mut Vec<Name>) -> Result<(), NoMemory>
    ensures ok { OnOk result (names.new.items
        ≡ names.old.items ++ map (λ i. i.name) (instances_in (body_view item.now.body))) }
{
    for call in calls_in(item) {
        names.push(call.name.clone()?)?;
    }
    Ok(())
}

fn names_in(alloc: Global, items: &[Item]) -> Result<Vec<Name>, NoMemory>
    ensures ok { IfOk result (λ names.
        names.items ≡ map (λ i. i.name) (flat_map (λ item. instances_in item.body) (map item_view items.now))) }
{
    let mut names = Vec::new(alloc);
    for item in items {
        add_names(item, &mut names)?;
    }
    Ok(names)
}

fn summary_of(alloc: Global, of: &CheckedModule) -> Result<ModuleSummary, NoMemory>
    requires nets { HasNets (module_facts of.now) }
    ensures summary { IfOk result (IsModuleSummary (syntax (module_facts of.now))) }
{
    let names = names_in(alloc, &of.module.items)?;
    Ok(ModuleSummary {
        names,
        bits: bits_of(&of.nets),
        empty: of.empty,
    })
}

/// One summary for each module of the text, by its index.
pub fn module_summaries(
    alloc: Global,
    modules: &[CheckedModule],
) -> Result<Vec<ModuleSummary>, NoMemory>
    requires nets { All HasNets (map module_facts modules.now) }
    ensures module_summaries { IfOk result (λ all.
        AllZip IsModuleSummary (map syntax (map module_facts modules.now)) all.items) }
{
    let mut all = Vec::with_capacity(alloc, modules.len())?;
    for of in modules {
        all.push(summary_of(alloc, of)?)?;
    }
    Ok(all)
}
