//! Equivalence of two netlists without boxes by the SAT solver. The check by expansion decides it: where there is no
//! table to choose, its clauses are those of the implementation alone, and a refutation names the vectors over which
//! they have no model.

ghost use Rattle.std.specs.Prelude.{◌≡◌, ◌≤◌, [], length, IfOk};
ghost use Rattle.bb_expand.specs.GivenUp.{NeedsMoreClauses};
ghost use Rattle.bb_miter.specs.Inside.Equivalence.{AreComparable};
ghost use Rattle.bb_invariant.specs.Inside.Answers.{IsAnswer};

use crate::deciding::Invariance;
use crate::simulating::differing_vector;
use bb_bits::{Name, NoMemory};
use bb_expand::{ExpandFault, Expanded, expand, refutations_show_vectors};
use bb_net::{Net, OutName, Pair, value_goes_by_boxes};
use std::alloc::Global;

/// `Open` where the expansion gives up: the clauses over all vectors exceed `clauses`, and those over some required
/// samples do too, or the expansion's own BDDs are too large.
pub(crate) fn by_solver(
    alloc: Global,
    spec: Net,
    imp: Net,
    clauses: u32,
) -> Result<Invariance, NoMemory>
    requires comparable { AreComparable spec imp }
    requires output { length imp.outs ≡ 1 }
    requires spec_cells { length spec.cells ≤ 8000000 }
    requires imp_cells { length imp.cells ≤ 8000000 }
    requires clauses { clauses ≤ 8000000 }
    ensures answer { IfOk result (IsAnswer spec imp (NeedsMoreClauses spec imp [] clauses)) }
{
    let pair = pair_of(alloc, spec, imp)?;
    by_expansion(alloc, &pair, clauses)
}

fn by_expansion(alloc: Global, pair: &Pair, clauses: u32) -> Result<Invariance, NoMemory>
    requires no_box { pair.now.imp.boxes ≡ [] }
    requires no_kind { pair.now.kinds ≡ [] }
    requires clauses { clauses ≤ 8000000 }
    ensures answer { IfOk result
        (IsAnswer pair.now.spec pair.now.imp (NeedsMoreClauses pair.now.spec pair.now.imp [] clauses)) }
{
    value_goes_by_boxes();
    refutations_show_vectors();
    let (spec, imp) = (pair.spec(), pair.imp());
    match expand(alloc, pair, clauses) {
        Ok(Expanded::Repair(_)) => Ok(Invariance::Kept),
        Ok(Expanded::Error { vectors, .. }) => {
            let x = differing_vector(alloc, spec, imp, &vectors)?;
            Ok(Invariance::Broken(x))
        }
        Err(ExpandFault::Clauses) => Ok(Invariance::Open),
        Err(ExpandFault::Wide) => unreachable!(),
        Err(ExpandFault::NoMemory) => Err(NoMemory),
    }
}

// A pair has names. No report shows those of this one.
fn pair_of(alloc: Global, spec: Net, imp: Net) -> Result<Pair, NoMemory>
    requires comparable { AreComparable spec imp }
    requires output { length imp.outs ≡ 1 }
    requires spec_cells { length spec.cells ≤ 8000000 }
    requires imp_cells { length imp.cells ≤ 8000000 }
    ensures spec { IfOk result (λ pair. pair.spec ≡ spec) }
    ensures imp { IfOk result (λ pair. pair.imp ≡ imp) }
    ensures kinds { IfOk result (λ pair. pair.kinds ≡ []) }
{
    let ins = input_names(alloc, imp.inputs())?;
    let text = Name::of(alloc, b"violation")?;
    let outs = vec![in alloc; OutName { next: false, text }]?;
    Ok(Pair::of(spec, imp, ins, outs, Vec::new(alloc), Vec::new(alloc)))
}

fn input_names(alloc: Global, count: u32) -> Result<Vec<Name>, NoMemory>
    ensures count { IfOk result (λ names. length names.items ≡ count) }
{
    let mut names = Vec::with_capacity(alloc, count as usize)?;
    for _ in 0..count {
        names.push(Name::of(alloc, b"input")?)?;
    }
    Ok(names)
}
