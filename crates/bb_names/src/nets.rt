//! The nets of a module in net order. The names go into an ordered map first, which drops repeats and keeps the order
//! of insertion; its keys are then the nets in order. So that each name is a net once, and at which place, is one fact
//! about the map.
ghost use Rattle.std.specs.Prelude.{◌≡◌, ◌<◌, ◌-◌, ◌^◌, min, ◌∷◌, [], ◌&&◌, is_none, map, length, IfOk, OnOk};
ghost use Rattle.std.specs.List.{flat_map, list_all};
ghost use Rattle.bb_ast.specs.Inside.Views.{module_view, body_view, head_view, item_view, named_view, optional_view};
ghost use Rattle.bb_names.specs.Declarations.{is_port};
ghost use Rattle.bb_names.specs.Nets.{net_names, net_of, nets_of, is_of_empty, is_empty};
ghost use Rattle.bb_bits.specs.Names.{placed};
ghost use Rattle.bb_names.specs.Inside.NetLists.{all_placed, nets_declared_by};

use crate::indexed::IndexedModule;
use crate::net::NetInfo;
use bb_ast::{Body, Expr, Head, Item};
use bb_bits::{Name, NoMemory};
use indexmap::IndexMap;
use std::alloc::Global;

type NetIndex = IndexMap<Name, u32>;

#[derive(Drop)]
pub(crate) struct Nets {
    pub all: Vec<NetInfo>,
    pub index: NetIndex,
}

fn net(of: &IndexedModule, name: &Name) -> Result<NetInfo, NoMemory>
    ensures { IfOk result (λ net. net ≡ net_of (module_view of.now) name.now) }
{
    let facts = of.facts(name);
    Ok(NetInfo {
        name: name.clone()?,
        range: facts.range,
        kind: facts.kind,
        port: of.port_direction(name),
    })
}

/// The next place. It saturates, so that an insertion needs no bound; with fewer than 2^32 names, which `nets_in`
/// requires, it is exact.
fn place_after(count: usize) -> u32
    ensures { result ≡ min count (2 ^ 32 - 1) }
{
    if count < u32::MAX as usize {
        count as u32
    } else {
        u32::MAX
    }
}

fn add_name(index: &mut NetIndex, name: &Name) -> Result<(), NoMemory>
    ensures { OnOk result (index.new.entries ≡ all_placed index.old.entries (name.now ∷ [])) }
{
    if !index.contains_key(name) {
        let place = place_after(index.len());
        index.insert(name.clone()?, place)?;
    }
    Ok(())
}

fn add_heads(index: &mut NetIndex, heads: &[Head]) -> Result<(), NoMemory>
    ensures { OnOk result (index.new.entries
        ≡ all_placed index.old.entries (map (λ head. head.name) (map head_view heads.now))) }
{
    for head in heads {
        add_name(index, &head.name)?;
    }
    Ok(())
}

fn add_names(index: &mut NetIndex, more: &[Name]) -> Result<(), NoMemory>
    ensures { OnOk result (index.new.entries ≡ all_placed index.old.entries more.now) }
{
    for name in more {
        add_name(index, name)?;
    }
    Ok(())
}

fn add_wires(index: &mut NetIndex, all: &[(Name, Option<Expr>)]) -> Result<(), NoMemory>
    ensures { OnOk result (index.new.entries ≡ all_placed index.old.entries (map (λ x. x.0) (map named_view all.now))) }
{
    for (name, _) in all {
        add_name(index, name)?;
    }
    Ok(())
}

fn add_item(index: &mut NetIndex, body: &Body) -> Result<(), NoMemory>
    ensures { OnOk result (index.new.entries ≡ all_placed index.old.entries (nets_declared_by (body_view body.now))) }
{
    match body {
        Body::Ports(_, more) => add_names(index, more),
        Body::Regs(_, more) => add_names(index, more),
        Body::Supply(_, _, more) => add_names(index, more),
        Body::Nets(_, all) => add_wires(index, all),
        // An instance is no net.
        Body::Calls(..) => Ok(()),
        Body::Assign(_) | Body::Gates(..) | Body::Always(_) => Ok(()),
    }
}

fn add_items(index: &mut NetIndex, items: &[Item]) -> Result<(), NoMemory>
    ensures { OnOk result (index.new.entries
        ≡ all_placed index.old.entries (flat_map (λ item. nets_declared_by item.body) (map item_view items.now))) }
{
    for item in items {
        add_item(index, &item.body)?;
    }
    Ok(())
}

fn add_all(index: &mut NetIndex, of: &IndexedModule) -> Result<(), NoMemory>
    requires none { index.old.entries ≡ [] }
    requires few { length (net_names (module_view of.now)) < 2 ^ 32 }
    ensures { OnOk result (index.new.entries ≡ placed 0 (net_names (module_view of.now))) }
{
    add_heads(index, &of.module().heads)?;
    add_items(index, &of.module().items)?;
    add_names(index, of.implicit().as_slice())
}

fn add_nets(all: &mut Vec<NetInfo>, of: &IndexedModule, index: &NetIndex) -> Result<(), NoMemory>
    requires none { all.old.items ≡ [] }
    ensures { OnOk result (all.new.items ≡ map (net_of (module_view of.now)) (map (λ e. e.0) index.now.entries)) }
{
    for name in index.keys() {
        all.push(net(of, name)?)?;
    }
    Ok(())
}

/// Room for all names is made once.
fn fill(nets: &mut Nets, of: &IndexedModule) -> Result<(), NoMemory>
    requires none { nets.old.all.items ≡ [] }
    requires index { nets.old.index.entries ≡ [] }
    requires few { length (net_names (module_view of.now)) < 2 ^ 32 }
    ensures nets { OnOk result (nets.new.all.items ≡ nets_of (module_view of.now)) }
    ensures index { OnOk result (nets.new.index.entries ≡ placed 0 (net_names (module_view of.now))) }
{
    nets.index.reserve(of.name_count())?;
    add_all(&mut nets.index, of)?;
    nets.all.reserve_exact(nets.index.len())?;
    add_nets(&mut nets.all, of, &nets.index)
}

pub(crate) fn nets_in(alloc: Global, of: &IndexedModule) -> Result<Nets, NoMemory>
    requires few { length (net_names (module_view of.now)) < 2 ^ 32 }
    ensures nets { IfOk result (λ nets. nets.all.items ≡ nets_of (module_view of.now)) }
    ensures index { IfOk result (λ nets. nets.index.entries ≡ placed 0 (map (λ net. net.name) nets.all.items)) }
{
    let mut nets = Nets {
        all: Vec::new(alloc),
        index: IndexMap::new(alloc),
    };
    fill(&mut nets, of)?;
    Ok(nets)
}

fn is_plain_port(of: &IndexedModule, name: &Name, value: &Option<Expr>) -> bool
    ensures { result ≡ (is_none (optional_view value.now) && is_port (module_view of.now) name.now) }
{
    value.is_none() && of.is_port(name)
}

fn are_ports(of: &IndexedModule, all: &[(Name, Option<Expr>)]) -> bool
    ensures { result ≡ list_all (λ x. is_none x.1 && is_port (module_view of.now) x.0) (map named_view all.now) }
{
    for (name, value) in all {
        if !is_plain_port(of, name, value) {
            return false;
        }
    }
    true
}

fn are_port_names(of: &IndexedModule, names: &[Name]) -> bool
    ensures { result ≡ list_all (is_port (module_view of.now)) names.now }
{
    for name in names {
        if !of.is_port(name) {
            return false;
        }
    }
    true
}

/// A port may be declared again as `wire` or `reg`, which adds nothing to a black box; a wire with an assignment does.
fn is_item_of_empty(of: &IndexedModule, body: &Body) -> bool
    ensures { result ≡ is_of_empty (module_view of.now) (body_view body.now) }
{
    match body {
        Body::Ports(..) => true,
        Body::Nets(_, all) => are_ports(of, all),
        Body::Regs(_, names) => are_port_names(of, names),
        _ => false,
    }
}

/// Such a module is a black box: one whose contents are looked for.
pub(crate) fn is_empty_module(of: &IndexedModule) -> bool
    ensures { result ≡ is_empty (module_view of.now) }
{
    for item in &of.module().items {
        if !is_item_of_empty(of, &item.body) {
            return false;
        }
    }
    true
}
