//! Equivalence of two netlists without boxes. BDDs come first, since they are quick where they are small.

ghost use Rattle.std.specs.Prelude.{◌≡◌, ◌≤◌, length, IfOk};
ghost use Rattle.bb_miter.specs.Inside.Equivalence.{AreComparable};
ghost use Rattle.bb_invariant.specs.Inside.Answers.{AreTooLarge, IsAnswer};

use crate::deciding::Invariance;
use crate::solving::by_solver;
use bb_bits::NoMemory;
use bb_miter::difference;
use bb_net::Net;
use bb_sym::RungFault;
use std::alloc::Global;

/// `Kept` where they are equivalent, `Broken` with a vector at which they differ. `nodes` and `cache` bound the BDDs,
/// `clauses` the solver after them.
pub(crate) fn compare(
    alloc: Global,
    spec: Net,
    imp: Net,
    nodes: u32,
    cache: u32,
    clauses: u32,
) -> Result<Invariance, NoMemory>
    requires comparable { AreComparable spec imp }
    requires output { length imp.outs ≡ 1 }
    requires spec_cells { length spec.cells ≤ 8000000 }
    requires imp_cells { length imp.cells ≤ 8000000 }
    requires nodes { nodes ≤ 50000000 }
    requires cache_least { 1 ≤ cache }
    requires cache_most { cache ≤ 1048576 }
    requires clauses { clauses ≤ 8000000 }
    ensures answer { IfOk result (IsAnswer spec imp (AreTooLarge spec imp nodes clauses)) }
{
    match difference(alloc, &spec, &imp, nodes, cache) {
        Ok(Some(x)) => Ok(Invariance::Broken(x)),
        Ok(None) => Ok(Invariance::Kept),
        Err(RungFault::Nodes) => by_solver(alloc, spec, imp, clauses),
        Err(RungFault::NoMemory) => Err(NoMemory),
    }
}
