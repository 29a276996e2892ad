//! Sharing classes of boxes: each box has the class of its key, its path or, with `shared`, its module. Nothing else of
//! a pair depends on sharing.
ghost use Rattle.std.specs.Prelude.{◌≢◌, ◌<◌, ◌^◌, AllPairs, length, map, IfOk};
ghost use Rattle.bb_net.specs.Kinds.{AreKinds};
ghost use Rattle.bb_net.specs.Pairs.{BoxTexts, box_key};

use bb_bits::{Name, NoMemory};
use bb_net::{BoxName, keys_are_shown, kinds_are_shown, kinds_may_differ, own_kinds};
use indexmap::IndexSet;
use std::alloc::Global;

// An insertion-ordered set gives each module the place of its first appearance, which is its class.
fn module_kinds(alloc: Global, boxes: &[BoxName]) -> Result<Vec<u32>, NoMemory>
    requires small { length boxes.now < 2 ^ 32 }
    ensures kinds { IfOk result (λ kinds. AreKinds (map (λ (b : BoxTexts). b.module) boxes.now) kinds.items) }
{
    keys_are_shown();
    kinds_are_shown::<Name>();
    let mut modules: IndexSet<Name> = IndexSet::new(alloc);
    let mut kinds = Vec::with_capacity(alloc, boxes.len())?;
    for named in boxes {
        let (kind, _) = modules.insert_full(named.module().clone()?)?;
        kinds.push(kind as u32)?;
    }
    Ok(kinds)
}

/// Without sharing each box is of a class of its own, as paths differ.
pub(crate) fn kinds_of(alloc: Global, boxes: &[BoxName], shared: bool) -> Result<Vec<u32>, NoMemory>
    requires small { length boxes.now < 2 ^ 32 }
    requires apart { AllPairs ◌≢◌ (map (λ (b : BoxTexts). b.path) boxes.now) }
    ensures kinds { IfOk result (λ kinds. AreKinds (map (box_key shared) boxes.now) kinds.items) }
{
    kinds_may_differ();
    if shared {
        module_kinds(alloc, boxes)
    } else {
        own_kinds(alloc, boxes.len() as u32)
    }
}
