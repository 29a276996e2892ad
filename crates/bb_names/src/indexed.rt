//! Modules with an index of their names: each use of a name is one look-up, where the definitions search the
//! declarations of the module anew.
ghost use Rattle.std.specs.Prelude.{◌≡◌, [], map, option_to_list, IfOk, OnOk};
ghost use Rattle.std.specs.List.{list_any, position_from};
ghost use Rattle.bb_bits.specs.Names.{same_name};
ghost use Rattle.bb_ast.specs.Inside.Views.{head_view, module_view};
ghost use Rattle.bb_names.specs.Declarations.{direction_of, implicit_names, is_instance, is_known, is_port, kind_of};
ghost use Rattle.bb_names.specs.Declarations.{range_of, port_direction};
ghost use Rattle.bb_names.specs.Faults.{is_input, is_input_port};
ghost use Rattle.bb_names.specs.Inside.Indexed.{head_names, ArePlaces, IsIndexed};
ghost use Rattle.bb_bits.specs.Earlier.{once};

use crate::declaring::declare_all;
use crate::implicit::add_implicit_wires;
use crate::net::NetKind;
use crate::places::{Places, note_place};
use crate::summary::{Declared, summary_of};
use bb_ast::{Dir, Expr, Head, Module, Range};
use bb_bits::{Name, NoMemory};
use indexmap::{IndexMap, IndexSet};
use std::alloc::Global;
use std::marker::Model;

#[derive(Clone, Copy)]
pub(crate) struct NetFacts {
    /// Declared anywhere in the module, or an implicit wire.
    pub known: bool,
    pub instance: bool,
    pub range: Option<Range>,
    pub kind: NetKind,
    pub dir: Option<Dir>,
}

/// What the whole module says, also after the statement that is being checked.
#[derive(Drop)]
struct NameIndex {
    ports: Places,
    declared: Declared,
    implicit: IndexSet<Name>,
}

#[derive(Drop)]
pub(crate) struct IndexedModule {
    module: Module,
    names: NameIndex,
}

impl Model for IndexedModule {
    ghost use Rattle.std.specs.Coded.{codes};
    ghost use Rattle.bb_ast.specs.contracts.expr.Expr as e;
    ghost use Rattle.bb_ast.specs.declared.module.Module.{Module};
    ghost use Rattle.bb_ast.specs.Inside.Views.{module_view};
    ghost use Rattle.bb_names.specs.Inside.Indexed.{IsIndexed};

    ghost Value = { Module };

    ghost coded = { Prim.hlevel (codes, e.the_row.coded) };

    ghost view = { λ m. m.module };

    ghost invariant = { λ m. IsIndexed (module_view m.module)
        m.names.ports.entries m.names.declared.entries m.names.implicit.keys };
}

impl NameIndex {
    fn new(alloc: Global) -> NameIndex
        ensures ports { result.ports.entries ≡ [] }
        ensures declared { result.declared.entries ≡ [] }
        ensures implicit { result.implicit.keys ≡ [] }
    {
        NameIndex {
            ports: IndexMap::new(alloc),
            declared: IndexMap::new(alloc),
            implicit: IndexSet::new(alloc),
        }
    }
}

fn note_ports(ports: &mut Places, heads: &[Head]) -> Result<(), NoMemory>
    requires none { ports.old.entries ≡ [] }
    ensures { OnOk result (ArePlaces ports.new.entries (map (λ head. head.name) (map head_view heads.now))) }
{
    for (place, head) in heads.iter().enumerate() {
        note_place(ports, &head.name, place)?;
    }
    Ok(())
}

fn note_names(names: &mut NameIndex, parsed: &Module) -> Result<(), NoMemory>
    requires ports { names.old.ports.entries ≡ [] }
    requires declared { names.old.declared.entries ≡ [] }
    requires implicit { names.old.implicit.keys ≡ [] }
    ensures { OnOk result (IsIndexed (module_view parsed.now)
        names.new.ports.entries names.new.declared.entries names.new.implicit.keys) }
{
    note_ports(&mut names.ports, &parsed.heads)?;
    declare_all(&mut names.declared, parsed)?;
    add_implicit_wires(&mut names.implicit, &names.declared, &parsed.items)
}

fn is_input_direction(dir: Option<Dir>) -> bool
    ensures { result ≡ list_any is_input (option_to_list dir) }
{
    dir == Some(Dir::Input)
}

impl IndexedModule {
    pub(crate) fn new(alloc: Global, parsed: Module) -> Result<IndexedModule, NoMemory>
        ensures { IfOk result (λ m. m ≡ parsed) }
    {
        let mut names = NameIndex::new(alloc);
        note_names(&mut names, &parsed)?;
        Ok(IndexedModule {
            module: parsed,
            names,
        })
    }

    pub(crate) fn module(&self) -> &Module
        ensures { result.now ≡ self.now }
    {
        &self.module
    }

    pub(crate) fn into_module(self) -> Module
        ensures { result ≡ self }
    {
        self.module
    }

    /// In the order of first use.
    pub(crate) fn implicit(&self) -> &IndexSet<Name>
        ensures { result.now.keys ≡ once (implicit_names (module_view self.now)) }
    {
        &self.names.implicit
    }

    /// Only for reserving room: it saturates, and nothing is promised of it.
    pub(crate) fn name_count(&self) -> usize {
        self.names
            .declared
            .len()
            .saturating_add(self.names.implicit.len())
    }

    pub(crate) fn port_place(&self, name: &Name) -> Option<usize>
        ensures { result ≡ position_from (same_name name.now) 0 (head_names (module_view self.now)) }
    {
        self.names.ports.get(name).copied()
    }

    pub(crate) fn is_port(&self, name: &Name) -> bool
        ensures { result ≡ is_port (module_view self.now) name.now }
    {
        self.names.ports.contains_key(name)
    }

    /// An instance's name is known, but has neither kind nor direction.
    pub(crate) fn facts(&self, name: &Name) -> NetFacts
        ensures known { result.known ≡ is_known (module_view self.now) name.now }
        ensures instance { result.instance ≡ is_instance (module_view self.now) name.now }
        ensures range { result.range ≡ range_of (module_view self.now) name.now }
        ensures kind { result.kind ≡ kind_of (module_view self.now) name.now }
        ensures dir { result.dir ≡ direction_of (module_view self.now) name.now }
    {
        match summary_of(&self.names.declared, name) {
            Some(s) if s.instance => NetFacts {
                known: true,
                instance: true,
                range: s.range,
                kind: NetKind::Wire,
                dir: None,
            },
            Some(s) => NetFacts {
                known: true,
                instance: false,
                range: s.range,
                kind: s.kind.unwrap_or(NetKind::Wire),
                dir: s.dir,
            },
            None => NetFacts {
                known: self.names.implicit.contains(name),
                instance: false,
                range: None,
                kind: NetKind::Wire,
                dir: None,
            },
        }
    }

    /// None also for a name with a direction that is in no header.
    pub(crate) fn port_direction(&self, name: &Name) -> Option<Dir>
        ensures { result ≡ port_direction (module_view self.now) name.now }
    {
        if self.is_port(name) {
            self.facts(name).dir
        } else {
            None
        }
    }

    /// Takes the facts of the name, so that the map is not searched twice.
    pub(crate) fn is_input_port(&self, name: &Name, facts: NetFacts) -> bool
        requires { facts.dir ≡ direction_of (module_view self.now) name.now }
        ensures { result ≡ is_input_port (module_view self.now) name.now }
    {
        is_input_direction(facts.dir) && self.is_port(name)
    }
}
