//! The two ends of an iteration: the tables that it starts from, and what it makes of the solver's answer.

ghost use Rattle.std.specs.Prelude.{◌≡◌, ℕ, All, map, vec_items, IfOk};
ghost use Rattle.bb_cnf.specs.Chains.{IsRefutation};
ghost use Rattle.bb_cnf.specs.Truth.{IsModel};
ghost use Rattle.bb_subst.specs.Distinguishing.{AreEquivalentAt};
ghost use Rattle.bb_net.specs.Completions.{table_bits, HaveSmallTables};
ghost use Rattle.bb_net.specs.Kinds.{representatives, per_box};
ghost use Rattle.bb_net.specs.Values.{FitBoxes};
ghost use Rattle.bb_expand.specs.declared.samples.SampleSet.{SampleSet as SampleVectors};
ghost use Rattle.bb_expand.specs.Expanded.{IsExpanded};
ghost use Rattle.bb_expand.specs.Expansions.{expansion};
ghost use Rattle.bb_expand.specs.Inside.Sampling.{IsSampleSet, sample_vectors};

use crate::expanded::Expanded;
use crate::laws::{expansions_and_tables, laws_below};
use crate::samples::SampleSet;
use crate::tables::read_tables;
use bb_bits::{NoMemory, Table};
use bb_cnf::laws::refutations;
use bb_cnf::{Cnf, Refutation};
use bb_net::Pair;
use std::alloc::Global;

// Zeros, as an unconstrained model would be, so no solver has to run before the first search for failures.
pub(crate) fn zero_tables(alloc: Global, pair: &Pair, bits: u32) -> Result<Vec<Table>, NoMemory>
    requires small { HaveSmallTables (representatives pair.now.kinds pair.now.imp.boxes) }
    requires bits { bits ≡ table_bits (representatives pair.now.kinds pair.now.imp.boxes) }
    ensures fit { IfOk result (λ tables. FitBoxes tables.items (representatives pair.now.kinds pair.now.imp.boxes)) }
    ensures spread { IfOk result (λ tables. FitBoxes (per_box pair.now.kinds tables.items) pair.now.imp.boxes) }
{
    laws_below();
    let _ = pair.imp();
    let zeros = vec![in alloc; false; bits as usize]?;
    let tables = read_tables(alloc, pair, &zeros)?;
    Ok(tables)
}

// They agree at all samples, not necessarily elsewhere.
pub(crate) fn tables_of(
    alloc: Global,
    pair: &Pair,
    samples: &SampleSet,
    model: &[bool],
) -> Result<Vec<Table>, NoMemory>
    requires small { HaveSmallTables (representatives pair.now.kinds pair.now.imp.boxes) }
    requires expands { samples.now.solver
        ≡ expansion pair.now.spec pair.now.imp pair.now.kinds (sample_vectors samples.now) }
    requires holds { IsModel model.now samples.now.solver }
    ensures fit { IfOk result (λ tables. FitBoxes tables.items (representatives pair.now.kinds pair.now.imp.boxes)) }
    ensures spread { IfOk result (λ tables. FitBoxes (per_box pair.now.kinds tables.items) pair.now.imp.boxes) }
    ensures agree { IfOk result (λ tables. All
        (AreEquivalentAt pair.now.spec pair.now.imp (per_box pair.now.kinds tables.items))
        (sample_vectors samples.now)) }
{
    laws_below();
    let _ = samples;
    let _ = pair.imp();
    let tables = read_tables(alloc, pair, model)?;
    Ok(tables)
}

// The vectors are moved into the answer, since the refutation numbers its clauses by their order.
pub(crate) fn refuted(
    pair: &Pair,
    vectors: Vec<Vec<bool>>,
    cnf: Cnf,
    refutation: Refutation,
) -> Expanded
    requires refuted { IsRefutation cnf.clauses refutation.steps.items }
    ensures error { (budget : ℕ) (samples : SampleVectors)
        → IsSampleSet pair.now.spec pair.now.imp pair.now.kinds budget samples
        → sample_vectors samples ≡ map vec_items vectors.items → samples.solver ≡ cnf
        → IsExpanded pair.now.spec pair.now.imp pair.now.kinds budget result }
{
    laws_below();
    expansions_and_tables();
    refutations();
    let _ = pair.imp();
    Expanded::Error {
        vectors,
        cnf,
        refutation,
    }
}
