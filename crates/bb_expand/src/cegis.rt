//! The CEGIS loop. It begins with no samples and tables of zeros. An iteration looks for vectors at which the tables
//! fail; the first becomes a required sample (`distinguishing`), others are added while there is room, and the solver
//! gives tables that agree at all samples. The loop ends since required samples only become more, and no two are the
//! same. What was weighed: one vector an iteration keeps fewer samples, but the solver then has to guess what many
//! samples would settle.

ghost use Rattle.std.specs.Prelude.{◌≡◌, ◌^◌, ◌<◌, ◌≤◌, IfOk, OnOk, IsErrOf};
ghost use Rattle.bb_net.specs.Completions.{table_bits, HaveSmallTables};
ghost use Rattle.bb_net.specs.Kinds.{representatives};
ghost use Rattle.bb_expand.specs.ClauseCounts.{clause_total};
ghost use Rattle.bb_expand.specs.declared.expanded.ExpandFault.TheVariants as fault;
ghost use Rattle.bb_expand.specs.Expanded.{IsExpanded};
ghost use Rattle.bb_expand.specs.GivenUp.{NeedsMoreClauses};

use crate::counterexamples::{failing_vectors, may_be_filled};
use crate::counting::{is_within_budget, per_vector};
use crate::expanded::{ExpandFault, Expanded};
use crate::iterations::{refuted, tables_of, zero_tables};
use crate::samples::{SampleSet, no_samples};
use crate::sampling::hold_failures;
use bb_cdcl::Solved;
use bb_net::Pair;
use bb_subst::laws::{distinguishing_vectors_are_distinct, vectors_are_few};
use std::alloc::Global;

// Mixed with the number of required samples, so each iteration draws other patterns.
const SEED: u64 = 0x9e37_79b9_7f4a_7c15;

// A cap on the samples of the first iteration.
const FIRST: u64 = 128;

// The first iteration looks for one vector a table bit, within a quarter of the budget, since zero tables are wrong
// nearly everywhere. Later ones look for as many as there are samples: while samples double, all iterations together
// cost about twice the last.
fn wanted(pair: &Pair, bits: u32, clauses: u32, samples: usize) -> usize
    ensures { 1 ≤ result }
{
    let room = u64::from(clauses) / 4 / per_vector(pair.imp()).max(1);
    let first = room.min(FIRST).min(u64::from(bits)).max(1);
    samples.max(first as usize)
}

// `Wide` is tested first, so it comes whatever the budget. There is no bound on cells: a filled netlist has at most one
// cell more for each table bit, and no search needs such a bound.
fn admit(pair: &Pair, clauses: u32) -> Result<u32, ExpandFault>
    requires budget { clauses ≤ 8000000 }
    ensures bits { IfOk result (λ bits. bits ≡ table_bits (representatives pair.now.kinds pair.now.imp.boxes)) }
    ensures small { OnOk result (HaveSmallTables (representatives pair.now.kinds pair.now.imp.boxes)) }
    ensures large { OnOk result (2 ^ 20 < table_bits pair.now.imp.boxes → clause_total pair.now.imp ≤ clauses) }
    ensures wide { IsErrOf result fault.Wide → 2 ^ 24 < table_bits (representatives pair.now.kinds pair.now.imp.boxes) }
    ensures wide_back { 2 ^ 24 < table_bits (representatives pair.now.kinds pair.now.imp.boxes)
        → IsErrOf result fault.Wide }
    ensures clauses { IsErrOf result fault.Clauses
        → HaveSmallTables (representatives pair.now.kinds pair.now.imp.boxes)
        × NeedsMoreClauses pair.now.spec pair.now.imp pair.now.kinds clauses }
{
    let Some(bits) = pair.table_bits() else {
        return Err(ExpandFault::Wide);
    };
    if !may_be_filled(pair.imp()) && !is_within_budget(pair, clauses) {
        return Err(ExpandFault::Clauses);
    }
    Ok(bits)
}

/// Decides whether some tables agree, one for each sharing class (`kinds`) of boxes.
///
/// `Wide` comes exactly where the tables of all classes have more than 2^24 bits, and before any search. `Clauses`
/// comes only where the clauses over all vectors exceed `clauses`, and for some required samples either their clauses
/// do, or tables that agree at all of them are too large to be tried. It never has to come: which samples are required
/// depends on the tables that the solver finds.
pub fn expand(alloc: Global, pair: &Pair, clauses: u32) -> Result<Expanded, ExpandFault>
    requires budget { clauses ≤ 8000000 }
    ensures ok { IfOk result (IsExpanded pair.now.spec pair.now.imp pair.now.kinds clauses) }
    ensures wide { IsErrOf result fault.Wide → 2 ^ 24 < table_bits (representatives pair.now.kinds pair.now.imp.boxes) }
    ensures wide_back { 2 ^ 24 < table_bits (representatives pair.now.kinds pair.now.imp.boxes)
        → IsErrOf result fault.Wide }
    ensures clauses { IsErrOf result fault.Clauses
        → HaveSmallTables (representatives pair.now.kinds pair.now.imp.boxes)
        × NeedsMoreClauses pair.now.spec pair.now.imp pair.now.kinds clauses }
{
    vectors_are_few();
    distinguishing_vectors_are_distinct();
    let bits = admit(pair, clauses)?;
    let mut samples = no_samples(alloc, pair, bits)?;
    let mut tables = zero_tables(alloc, pair, bits)?;
    loop {
        let seed = samples.distinguishing.len() as u64 ^ SEED;
        let wanted = wanted(pair, bits, clauses, samples.vectors.len());
        let failing = failing_vectors(alloc, pair, &tables, clauses, seed, wanted)?;
        if failing.is_empty() {
            return Ok(Expanded::Repair(tables));
        }
        let SampleSet {
            vectors,
            distinguishing,
            solver,
        } = hold_failures(alloc, pair, bits, clauses, samples, &tables, &failing)?;
        match solver.solve()? {
            Solved::Sat(model, solver) => {
                samples = SampleSet {
                    vectors,
                    distinguishing,
                    solver,
                };
                tables = tables_of(alloc, pair, &samples, &model)?;
            }
            Solved::Unsat(cnf, refutation) => return Ok(refuted(pair, vectors, cnf, refutation)),
        }
    }
}
