//! A source without faults. The nets are kept with it, since every later stage numbers bits by them, while the index
//! that found the faults is dropped module by module. Of its text a checked module keeps that it is well formed and no
//! larger than the longest text that is read, both said of syntax: so another reader, or syntax that was never text,
//! serves as well.

ghost use Rattle.std.specs.Prelude.{◌≡◌, ◌<◌, ◌^◌, length, map, IfOk};
ghost use Rattle.bb_ast.specs.Inside.Views.{module_view};
ghost use Rattle.bb_names.specs.Inside.Checked.{module_facts, syntax, AreFormedAndSmall, HasNets, IsChecked};
ghost use Rattle.bb_names.specs.Faults.{IsSound};
ghost use Rattle.bb_names.specs.Nets.{net_names};

use crate::indexed::IndexedModule;
use crate::net::NetInfo;
use crate::nets::{is_empty_module, nets_in};
use crate::sources::IndexedSource;
use bb_ast::Module;
use bb_bits::{Name, NoMemory};
use indexmap::IndexMap;
use std::alloc::Global;
use std::marker::Model;

/// Net order: the ports in the order of the header, then the other declared nets in text order, then the implicit
/// wires. `index` has the place of each net by its name; `empty` says that the module declares its ports and nothing
/// else, which makes it a black box.
#[derive(Drop)]
pub struct CheckedModule {
    pub module: Module,
    pub nets: Vec<NetInfo>,
    pub index: IndexMap<Name, u32>,
    pub empty: bool,
}

/// In the order of the source.
#[derive(Drop)]
pub struct Checked {
    modules: Vec<CheckedModule>,
}

impl Model for Checked {
    ghost use Rattle.std.specs.Prelude.{List, map};
    ghost use Rattle.std.specs.Coded.{codes};
    ghost use Rattle.bb_ast.specs.contracts.expr.Expr as e;
    ghost use Rattle.bb_names.specs.Inside.Checked.{ModuleFacts, module_facts, IsChecked};

    ghost Value = { List ModuleFacts };

    ghost coded = { Prim.hlevel (codes, e.the_row.coded) };

    ghost view = { λ c. map module_facts c.modules.items };

    ghost invariant = { λ c. IsChecked (map module_facts c.modules.items) };
}

fn checked_module(alloc: Global, of: IndexedModule) -> Result<CheckedModule, NoMemory>
    requires few { length (net_names (module_view of)) < 2 ^ 32 }
    ensures source { IfOk result (λ c. c.module ≡ of) }
    ensures nets { IfOk result (λ c. HasNets (module_facts c)) }
{
    let nets = nets_in(alloc, &of)?;
    let empty = is_empty_module(&of);
    Ok(CheckedModule {
        module: of.into_module(),
        nets: nets.all,
        index: nets.index,
        empty,
    })
}

impl Checked {
    pub(crate) fn new(alloc: Global, source: IndexedSource) -> Result<Checked, NoMemory>
        requires read { AreFormedAndSmall (map module_view source) }
        requires sound { IsSound (map module_view source) }
        ensures ok { IfOk result (λ checked. map syntax checked ≡ map module_view source) }
    {
        let mut modules = Vec::new(alloc);
        for of in source.into_modules() {
            modules.push(checked_module(alloc, of)?)?;
        }
        Ok(Checked { modules })
    }

    /// In the order of the source. Each has its nets, and no rule on names is broken.
    pub fn modules(&self) -> &[CheckedModule]
        ensures modules { map module_facts result.now ≡ self.now }
        ensures checked { IsChecked self.now }
    {
        &self.modules
    }
}
