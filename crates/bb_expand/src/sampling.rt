//! Which vectors stay samples. Required ones always do: they are the list that `ExpandFault::Clauses` is about, so a
//! check that gives up has the cause that its clause states. The others only speed the loop up, and are dropped when
//! the clauses of the next required one would exceed the budget; the solver then starts anew over the required ones.

ghost use Rattle.std.specs.Prelude.{◌≡◌, ◌+◌, ◌<◌, ◌≤◌, ◌++◌, ◌∷◌, [], All, Contains, length, map, vec_items, IfOk};
ghost use Rattle.std.specs.Prelude.{IsErrOf, true, false};
ghost use Rattle.bb_subst.specs.Distinguishing.{AreEquivalentAt, AreDistinguishing};
ghost use Rattle.bb_net.specs.Equivalence.{IsVector};
ghost use Rattle.bb_net.specs.Completions.{table_bits, HaveSmallTables};
ghost use Rattle.bb_net.specs.Kinds.{representatives, per_box};
ghost use Rattle.bb_net.specs.Values.{FitBoxes};
ghost use Rattle.bb_expand.specs.ClauseCounts.{clauses_per_vector};
ghost use Rattle.bb_expand.specs.declared.expanded.ExpandFault.TheVariants as fault;
ghost use Rattle.bb_expand.specs.Expansions.{expansion};
ghost use Rattle.bb_expand.specs.GivenUp.{NeedsMoreClauses};
ghost use Rattle.bb_expand.specs.Inside.Sampling.{IsSampleSet, distinguishing_vectors, sample_vectors};
ghost use Rattle.bb_expand.specs.Inside.Failures.{AreDistinctWith, FailsAt};

use crate::counting::per_vector;
use crate::expanded::ExpandFault;
use crate::laws::expansions_and_tables;
use crate::samples::{SampleSet, no_samples, with_vector};
use bb_bits::{NoMemory, Table};
use bb_cnf::Cnf;
use bb_net::{Net, Pair};
use bb_subst::laws::{distinguishing_vectors_are_distinct, vectors_are_few};
use std::alloc::Global;

// The subtraction cannot underflow: the samples are within the budget.
fn has_room(imp: &Net, cnf: &Cnf, clauses: u32) -> bool
    requires within { length cnf.now.clauses ≤ clauses }
    ensures yes { result ≡ true → length cnf.now.clauses + clauses_per_vector imp.now ≤ clauses }
    ensures no { result ≡ false → clauses < length cnf.now.clauses + clauses_per_vector imp.now }
{
    per_vector(imp) <= u64::from(clauses) - cnf.clauses.len() as u64
}

fn hold(
    alloc: Global,
    pair: &Pair,
    clauses: u32,
    samples: SampleSet,
    x: &[bool],
) -> Result<SampleSet, NoMemory>
    requires budget { clauses ≤ 8000000 }
    requires small { HaveSmallTables (representatives pair.now.kinds pair.now.imp.boxes) }
    requires samples { IsSampleSet pair.now.spec pair.now.imp pair.now.kinds clauses samples }
    requires each { AreDistinctWith (IsVector pair.now.imp) (sample_vectors samples ++ x.now ∷ []) }
    requires room { length samples.solver.clauses + clauses_per_vector pair.now.imp ≤ clauses }
    ensures vectors { IfOk result (λ new. sample_vectors new ≡ sample_vectors samples ++ x.now ∷ []) }
    ensures distinguishing { IfOk result (λ new. new.distinguishing.items ≡ samples.distinguishing.items) }
    ensures samples { IfOk result (IsSampleSet pair.now.spec pair.now.imp pair.now.kinds clauses) }
{
    expansions_and_tables();
    let _ = clauses;
    let new = with_vector(alloc, pair, samples, x)?;
    Ok(new)
}

fn add_distinguishing(
    alloc: Global,
    pair: &Pair,
    clauses: u32,
    samples: SampleSet,
    x: &[bool],
) -> Result<SampleSet, NoMemory>
    requires budget { clauses ≤ 8000000 }
    requires small { HaveSmallTables (representatives pair.now.kinds pair.now.imp.boxes) }
    requires samples { IsSampleSet pair.now.spec pair.now.imp pair.now.kinds clauses samples }
    requires each { AreDistinctWith (IsVector pair.now.imp) (sample_vectors samples ++ x.now ∷ []) }
    requires room { length samples.solver.clauses + clauses_per_vector pair.now.imp ≤ clauses }
    requires distinguishing { AreDistinguishing pair.now.spec pair.now.imp pair.now.kinds (distinguishing_vectors
        samples
        ++ x.now ∷ []) }
    ensures vectors { IfOk result (λ new. sample_vectors new ≡ sample_vectors samples ++ x.now ∷ []) }
    ensures distinguishing { IfOk result (λ new.
        distinguishing_vectors new ≡ distinguishing_vectors samples ++ x.now ∷ []) }
    ensures samples { IfOk result (IsSampleSet pair.now.spec pair.now.imp pair.now.kinds clauses) }
{
    let mut new = hold(alloc, pair, clauses, samples, x)?;
    new.distinguishing.push(Vec::from_slice(alloc, x)?)?;
    Ok(new)
}

// Stops at the first that does not fit. Nothing is lost: a vector that still matters is found again.
fn hold_others(
    alloc: Global,
    pair: &Pair,
    clauses: u32,
    mut samples: SampleSet,
    vectors: &[Vec<bool>],
) -> Result<SampleSet, NoMemory>
    requires budget { clauses ≤ 8000000 }
    requires small { HaveSmallTables (representatives pair.now.kinds pair.now.imp.boxes) }
    requires samples { IsSampleSet pair.now.spec pair.now.imp pair.now.kinds clauses samples }
    requires each { AreDistinctWith (IsVector pair.now.imp) (sample_vectors samples ++ map vec_items vectors.now) }
    ensures distinguishing { IfOk result (λ new. new.distinguishing.items ≡ samples.distinguishing.items) }
    ensures samples { IfOk result (IsSampleSet pair.now.spec pair.now.imp pair.now.kinds clauses) }
{
    for x in vectors {
        if !has_room(pair.imp(), samples.solver.cnf(), clauses) {
            return Ok(samples);
        }
        samples = hold(alloc, pair, clauses, samples, x)?;
    }
    Ok(samples)
}

// A new solver, since this one cannot remove clauses; what it learned is lost.
fn distinguishing_alone(
    alloc: Global,
    pair: &Pair,
    bits: u32,
    clauses: u32,
    distinguishing: Vec<Vec<bool>>,
) -> Result<SampleSet, NoMemory>
    requires budget { clauses ≤ 8000000 }
    requires bits { bits ≡ table_bits (representatives pair.now.kinds pair.now.imp.boxes) }
    requires small { HaveSmallTables (representatives pair.now.kinds pair.now.imp.boxes) }
    requires distinguishing { AreDistinguishing pair.now.spec pair.now.imp pair.now.kinds (map vec_items
        distinguishing.items) }
    requires within { length (expansion pair.now.spec pair.now.imp pair.now.kinds (map vec_items
        distinguishing.items)).clauses
        ≤ clauses }
    ensures vectors { IfOk result (λ new. sample_vectors new ≡ map vec_items distinguishing.items) }
    ensures distinguishing { IfOk result (λ new. new.distinguishing.items ≡ distinguishing.items) }
    ensures samples { IfOk result (IsSampleSet pair.now.spec pair.now.imp pair.now.kinds clauses) }
{
    expansions_and_tables();
    distinguishing_vectors_are_distinct();
    let mut alone = no_samples(alloc, pair, bits)?;
    for x in &distinguishing {
        alone = hold(alloc, pair, clauses, alone, x)?;
    }
    alone.distinguishing = distinguishing;
    Ok(alone)
}

// Gives up only where the required samples and one more exceed the budget.
fn make_room(
    alloc: Global,
    pair: &Pair,
    bits: u32,
    clauses: u32,
    samples: SampleSet,
) -> Result<SampleSet, ExpandFault>
    requires budget { clauses ≤ 8000000 }
    requires bits { bits ≡ table_bits (representatives pair.now.kinds pair.now.imp.boxes) }
    requires small { HaveSmallTables (representatives pair.now.kinds pair.now.imp.boxes) }
    requires samples { IsSampleSet pair.now.spec pair.now.imp pair.now.kinds clauses samples }
    ensures room { IfOk result (λ new. length new.solver.clauses + clauses_per_vector pair.now.imp ≤ clauses) }
    ensures among { IfOk result (λ new. All (Contains (sample_vectors samples)) (sample_vectors new)) }
    ensures distinguishing { IfOk result (λ new. new.distinguishing.items ≡ samples.distinguishing.items) }
    ensures samples { IfOk result (IsSampleSet pair.now.spec pair.now.imp pair.now.kinds clauses) }
    ensures wide { IsErrOf result fault.Wide → ⊥ }
    ensures clauses { IsErrOf result fault.Clauses
        → clauses
        < length (expansion pair.now.spec pair.now.imp pair.now.kinds (distinguishing_vectors samples)).clauses
        + clauses_per_vector pair.now.imp }
{
    expansions_and_tables();
    distinguishing_vectors_are_distinct();
    if has_room(pair.imp(), samples.solver.cnf(), clauses) {
        return Ok(samples);
    }
    let alone = distinguishing_alone(alloc, pair, bits, clauses, samples.distinguishing)?;
    if !has_room(pair.imp(), alone.solver.cnf(), clauses) {
        return Err(ExpandFault::Clauses);
    }
    Ok(alone)
}

// The first failure becomes required, so the loop makes progress even where nothing else fits.
pub(crate) fn hold_failures(
    alloc: Global,
    pair: &Pair,
    bits: u32,
    clauses: u32,
    samples: SampleSet,
    tables: &[Table],
    failures: &[Vec<bool>],
) -> Result<SampleSet, ExpandFault>
    requires budget { clauses ≤ 8000000 }
    requires bits { bits ≡ table_bits (representatives pair.now.kinds pair.now.imp.boxes) }
    requires small { HaveSmallTables (representatives pair.now.kinds pair.now.imp.boxes) }
    requires samples { IsSampleSet pair.now.spec pair.now.imp pair.now.kinds clauses samples }
    requires fit { FitBoxes tables.now (representatives pair.now.kinds pair.now.imp.boxes) }
    requires agree { All (AreEquivalentAt pair.now.spec pair.now.imp (per_box pair.now.kinds tables.now))
        (sample_vectors samples) }
    requires some { 0 < length failures.now }
    requires failures { AreDistinctWith (FailsAt pair.now.spec pair.now.imp (per_box pair.now.kinds tables.now))
        (map vec_items failures.now) }
    ensures more { IfOk result (λ new. length (distinguishing_vectors samples) < length (distinguishing_vectors new)) }
    ensures samples { IfOk result (IsSampleSet pair.now.spec pair.now.imp pair.now.kinds clauses) }
    ensures wide { IsErrOf result fault.Wide → ⊥ }
    ensures clauses { IsErrOf result fault.Clauses
        → NeedsMoreClauses pair.now.spec pair.now.imp pair.now.kinds clauses }
{
    expansions_and_tables();
    vectors_are_few();
    distinguishing_vectors_are_distinct();
    let _ = tables;
    let samples = make_room(alloc, pair, bits, clauses, samples)?;
    let samples = add_distinguishing(alloc, pair, clauses, samples, &failures[0])?;
    let samples = hold_others(alloc, pair, clauses, samples, &failures[1..])?;
    Ok(samples)
}
