//! An invariant is kept where no event violates it: where the netlist of its violations is always 0.

ghost use Rattle.std.specs.Prelude.{◌≡◌, ◌<◌, ◌≤◌, Bool, Vec, length, IfOk, IfSome};
ghost use Rattle.std.specs.Global.{Global};
ghost use Rattle.bb_invariant.specs.Invariance.{IsTooLarge};
ghost use Rattle.bb_invariant.specs.declared.deciding.Invariance.TheVariants as answers;
ghost use Rattle.bb_unroll.specs.Events.{CanBeUnrolled, IsBrokenAt, IsKept};
ghost use Rattle.bb_unroll.specs.Unrolled.{unrolled_inputs};

use crate::comparing::compare;
use bb_bits::NoMemory;
use bb_net::{Flat, value_exists};
use bb_unroll::laws::violations_are_seen;
use bb_unroll::{never, violation};
use std::alloc::Global;

/// What is found out about an invariant.
#[derive(Debug, Drop)]
pub enum Invariance {
    /// Each event keeps it.
    Kept,
    /// The event with these bits does not: those of the inputs of the unrolled specification, in their order.
    Broken(Vec<bool>),
    /// The BDDs would need more nodes than their bound, and the expansion gives up.
    Open,
}

/// `invariant` and `care` are places of cells of the specification; with a care cell only events count at which it is
/// 1 as they come.
pub fn check_invariant(
    alloc: Global,
    spec: &Flat,
    invariant: u32,
    care: Option<u32>,
    nodes: u32,
    cache: u32,
    clauses: u32,
) -> Result<Invariance, NoMemory>
    requires can { CanBeUnrolled spec.now }
    requires inputs { unrolled_inputs spec.now ≤ 2048 }
    requires invariant { invariant < length spec.now.net.cells }
    requires care { IfSome care (λ c. c < length spec.now.net.cells) }
    requires nodes { nodes ≤ 50000000 }
    requires cache_least { 1 ≤ cache }
    requires cache_most { cache ≤ 1048576 }
    requires clauses { clauses ≤ 8000000 }
    ensures kept { IfOk result (λ answer. answer ≡ answers.Kept → IsKept spec.now invariant care) }
    ensures broken { IfOk result (λ answer. (x : Vec Bool Global) → answer ≡ answers.Broken x
        → IsBrokenAt spec.now invariant care x.items) }
    ensures open { IfOk result (λ answer. answer ≡ answers.Open
        → IsTooLarge spec.now invariant care nodes clauses) }
{
    violations_are_seen();
    value_exists();
    let violation = violation(alloc, spec, invariant, care)?;
    let never = never(alloc, violation.inputs())?;
    never.keeps_its_order();
    violation.keeps_its_order();
    compare(alloc, never, violation, nodes, cache, clauses)
}
