//! The modules of a source by their names. A source with as many instances as modules would otherwise be searched once
//! for each instance.
ghost use Rattle.std.specs.Prelude.{◌≡◌, ◌++◌, ◌∷◌, [], List, length, map, option_map, IfOk, OnOk};
ghost use Rattle.std.specs.Vec.{vec_len};
ghost use Rattle.std.specs.List.{position_from};
ghost use Rattle.bb_bits.specs.Names.{same_name};
ghost use Rattle.bb_ast.specs.Inside.Views.{module_view};
ghost use Rattle.bb_names.specs.Inside.Indexed.{ArePlaces};
ghost use Rattle.bb_names.specs.Sites.{module_named};

use crate::indexed::IndexedModule;
use crate::places::{Places, note_place};
use bb_ast::{Module, Source};
use bb_bits::{Name, NoMemory};
use indexmap::IndexMap;
use std::alloc::Global;
use std::marker::Model;

/// `places` has the first module of each name; a later one of the same name is a fault at its header.
#[derive(Drop)]
pub(crate) struct IndexedSource {
    modules: Vec<IndexedModule>,
    places: Places,
}

impl Model for IndexedSource {
    ghost use Rattle.std.specs.Prelude.{List, map};
    ghost use Rattle.std.specs.Coded.{codes};
    ghost use Rattle.bb_names.specs.Inside.Indexed.{ArePlaces};
    ghost use Rattle.bb_ast.specs.contracts.expr.Expr as e;
    ghost use Rattle.bb_ast.specs.declared.module.Module.{Module};

    ghost Value = { List Module };

    ghost coded = { Prim.hlevel (codes, e.the_row.coded) };

    ghost view = { λ s. s.modules.items };

    ghost invariant = { λ s. ArePlaces s.places.entries (map (λ m. m.name) s.modules.items) };
}

fn add_module(
    alloc: Global,
    modules: &mut Vec<IndexedModule>,
    places: &mut Places,
    parsed: Module,
) -> Result<(), NoMemory>
    requires len { vec_len modules.old ≡ length modules.old.items }
    ensures modules { OnOk result (modules.new.items ≡ modules.old.items ++ parsed ∷ []) }
    ensures len { OnOk result (vec_len modules.new ≡ length modules.new.items) }
    ensures places { ArePlaces places.old.entries (map (λ m. m.name) modules.old.items)
        → OnOk result (ArePlaces places.new.entries (map (λ m. m.name) modules.new.items)) }
{
    note_place(places, &parsed.name, modules.len())?;
    modules.push(IndexedModule::new(alloc, parsed)?)?;
    Ok(())
}

impl IndexedSource {
    pub(crate) fn new(alloc: Global, source: Source) -> Result<IndexedSource, NoMemory>
        ensures { IfOk result (λ s. s ≡ source.modules.items) }
    {
        let mut modules = Vec::new(alloc);
        let mut places = IndexMap::new(alloc);
        for parsed in source.modules {
            add_module(alloc, &mut modules, &mut places, parsed)?;
        }
        Ok(IndexedSource { modules, places })
    }

    pub(crate) fn modules(&self) -> &[IndexedModule]
        ensures { result.now ≡ self.now }
    {
        &self.modules
    }

    pub(crate) fn into_modules(self) -> Vec<IndexedModule>
        ensures { result.items ≡ self }
    {
        self.modules
    }

    pub(crate) fn place(&self, name: &Name) -> Option<usize>
        ensures { result ≡ position_from (same_name name.now) 0 (map (λ m. m.name) self.now) }
    {
        self.places.get(name).copied()
    }

    pub(crate) fn named(&self, name: &Name) -> Option<&IndexedModule>
        ensures { option_map (λ m. module_view m.now) result ≡ module_named (map module_view self.now) name.now }
    {
        match self.place(name) {
            Some(place) => self.modules.get(place),
            None => None,
        }
    }
}
