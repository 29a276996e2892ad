//! A shortcut before further checks: each check makes the specification's cells anew, so if these alone exceed the
//! budget, all checks do. It comes only after a check reported `Nodes`, and before another by BDDs; at the start,
//! most pairs would pay for it in vain.

ghost use Rattle.std.specs.Prelude.{◌≡◌, ◌≤◌, true, false, IfOk};
ghost use Rattle.bb_bits.specs.Truth.{IsBeadOfAny};
ghost use Rattle.bb_bits.specs.TruthSets.{HasMoreThan};
ghost use Rattle.bb_sym.specs.Functions.{specification_functions};

use crate::RungFault;
use crate::cells::net_cells;
use bb_bits::{NoMemory, truth};
use bb_dd::Diagrams;
use bb_net::Pair;
use bb_uniq::laws;
use std::alloc::Global;

/// True exactly where the cells alone have more than `nodes` beads, over the inputs only.
pub fn specification_exceeds(
    alloc: Global,
    pair: &Pair,
    nodes: u32,
    cache: u32,
) -> Result<bool, NoMemory>
    requires nodes { nodes ≤ 50000000 }
    requires cache_least { 1 ≤ cache }
    requires cache_most { cache ≤ 1048576 }
    ensures exceeds { IfOk result (λ exceeds.
        exceeds ≡ true → HasMoreThan (IsBeadOfAny (specification_functions pair.now.spec pair.now.imp)) nodes) }
    ensures within { IfOk result (λ exceeds.
        exceeds ≡ false → HasMoreThan (IsBeadOfAny (specification_functions pair.now.spec pair.now.imp)) nodes → ⊥) }
{
    truth::sizes();
    laws::sequences();
    let spec = pair.spec();
    let inputs = pair.imp().inputs();
    let mut d = Diagrams::start(alloc, inputs, nodes, cache)?;
    match net_cells(alloc, &mut d, spec, 0, &[]) {
        Ok(_) => {
            d.is_canonical();
            Ok(false)
        }
        Err(RungFault::Nodes) => Ok(true),
        Err(RungFault::NoMemory) => Err(NoMemory),
    }
}
