//! The counterexample search of an iteration, cheapest first: simulation of 64 patterns at a time; the miter; BDDs, and
//! where they are too large the solver on both netlists; then all vectors, where their clauses are within the budget.
//! It works on two netlists and not on a pair: a pair owns its netlists and texts, so a filled one would copy the
//! specification in each iteration.

ghost use Rattle.std.specs.Prelude.{◌≡◌, ◌<◌, ◌≤◌, ◌^◌, ◌∷◌, [], true, false, map, vec_items, IfOk, IfSome, IfNone};
ghost use Rattle.std.specs.Prelude.{IsErrOf};
ghost use Rattle.bb_bits.specs.Truth.{IsBeadOfAny};
ghost use Rattle.bb_bits.specs.TruthSets.{HasMoreThan};
ghost use Rattle.bb_miter.specs.Inside.Equivalence.{AreComparable, AreEquivalent, DiffersAt};
ghost use Rattle.bb_net.specs.Equivalence.{TablesMakeEquivalent};
ghost use Rattle.bb_net.specs.Completions.{table_bits};
ghost use Rattle.bb_net.specs.Kinds.{per_box};
ghost use Rattle.bb_net.specs.Values.{FitBoxes};
ghost use Rattle.bb_sym.specs.Functions.{output_functions};
ghost use Rattle.bb_expand.specs.ClauseCounts.{clause_total};
ghost use Rattle.bb_expand.specs.declared.expanded.ExpandFault.TheVariants as fault;
ghost use Rattle.bb_expand.specs.GivenUp.{FillTooLarge};
ghost use Rattle.bb_expand.specs.Inside.Failures.{AreDistinctWith, FailsAt};

use crate::counting::is_within_budget;
use crate::enumeration::first_failure;
use crate::expanded::ExpandFault;
use crate::free::by_solver;
use crate::outputs::by_miter;
use crate::search_result::SearchResult;
use bb_bits::{NoMemory, Table};
use bb_miter::{difference, differing_patterns};
use bb_net::{Net, Pair};
use bb_subst::laws::filled_are_right;
use bb_subst::substitute;
use bb_sym::RungFault;
use std::alloc::Global;

// Node limits of the BDDs. A multiplier of ten bits, which the solver leaves open, has some 4,000,000 nodes.
const NODES: u32 = 1_000_000;

const NODES_AT_LAST: u32 = 8_000_000;

const CACHE: u32 = 65_536;

// Bounds memory: 200,000 learned clauses took 516 MB.
const LEARNED_AT_LAST: u32 = 100_000;

const FILLED_BITS: u32 = 1 << 20;

/// Counts a table once for each box: it is filled in at each, while tables that are printed count once for a sharing
/// class.
pub(crate) fn may_be_filled(imp: &Net) -> bool
    ensures yes { result ≡ true → table_bits imp.now.boxes ≤ 2 ^ 20 }
    ensures no { result ≡ false → 2 ^ 20 < table_bits imp.now.boxes }
{
    imp.table_bits().is_some_and(|bits| bits <= FILLED_BITS)
}

fn search_by_large_diagrams(
    alloc: Global,
    spec: &Net,
    filled: &Net,
) -> Result<Option<Vec<bool>>, RungFault>
    requires comparable { AreComparable spec.now filled.now }
    requires nodes { HasMoreThan (IsBeadOfAny (output_functions spec.now filled.now)) 1000000 }
    ensures found { IfOk result (λ found. IfSome found (λ x. DiffersAt spec.now filled.now x.items)) }
    ensures none { IfOk result (λ found. IfNone found (AreEquivalent spec.now filled.now)) }
    ensures nodes { IsErrOf result RungFault.Nodes
        → HasMoreThan (IsBeadOfAny (output_functions spec.now filled.now)) 1000000 }
{
    difference(alloc, spec, filled, NODES_AT_LAST, CACHE)
}

// The larger BDDs come last: they decide what the solver leaves open, such as a multiplier of ten bits.
fn search_at_last(
    alloc: Global,
    spec: &Net,
    filled: &Net,
    clauses: u32,
) -> Result<Option<Vec<bool>>, RungFault>
    requires comparable { AreComparable spec.now filled.now }
    requires budget { clauses ≤ 8000000 }
    requires nodes { HasMoreThan (IsBeadOfAny (output_functions spec.now filled.now)) 1000000 }
    ensures found { IfOk result (λ found. IfSome found (λ x. DiffersAt spec.now filled.now x.items)) }
    ensures none { IfOk result (λ found. IfNone found (AreEquivalent spec.now filled.now)) }
    ensures nodes { IsErrOf result RungFault.Nodes
        → HasMoreThan (IsBeadOfAny (output_functions spec.now filled.now)) 1000000 }
{
    match by_solver(alloc, spec, filled, clauses, LEARNED_AT_LAST)? {
        SearchResult::At(x) => Ok(Some(x)),
        SearchResult::Nowhere => Ok(None),
        SearchResult::GivenUp => search_by_large_diagrams(alloc, spec, filled),
    }
}

fn search_by_diagrams(
    alloc: Global,
    spec: &Net,
    filled: &Net,
    clauses: u32,
) -> Result<Option<Vec<bool>>, RungFault>
    requires comparable { AreComparable spec.now filled.now }
    requires budget { clauses ≤ 8000000 }
    ensures found { IfOk result (λ found. IfSome found (λ x. DiffersAt spec.now filled.now x.items)) }
    ensures none { IfOk result (λ found. IfNone found (AreEquivalent spec.now filled.now)) }
    ensures nodes { IsErrOf result RungFault.Nodes
        → HasMoreThan (IsBeadOfAny (output_functions spec.now filled.now)) 1000000 }
{
    match difference(alloc, spec, filled, NODES, CACHE) {
        Err(RungFault::Nodes) => search_at_last(alloc, spec, filled, clauses),
        answer => answer,
    }
}

fn search_one(
    alloc: Global,
    spec: &Net,
    filled: &Net,
    clauses: u32,
) -> Result<Option<Vec<bool>>, RungFault>
    requires comparable { AreComparable spec.now filled.now }
    requires budget { clauses ≤ 8000000 }
    ensures found { IfOk result (λ found. IfSome found (λ x. DiffersAt spec.now filled.now x.items)) }
    ensures none { IfOk result (λ found. IfNone found (AreEquivalent spec.now filled.now)) }
    ensures nodes { IsErrOf result RungFault.Nodes
        → HasMoreThan (IsBeadOfAny (output_functions spec.now filled.now)) 1000000 }
{
    match by_miter(alloc, spec, filled, clauses)? {
        SearchResult::At(x) => Ok(Some(x)),
        SearchResult::Nowhere => Ok(None),
        SearchResult::GivenUp => search_by_diagrams(alloc, spec, filled, clauses),
    }
}

fn list_of(alloc: Global, found: Option<Vec<bool>>) -> Result<Vec<Vec<bool>>, NoMemory>
    ensures some { IfSome found (λ x. IfOk result (λ vectors. map vec_items vectors.items ≡ x.items ∷ [])) }
    ensures none { IfNone found (IfOk result (λ vectors. vectors.items ≡ [])) }
{
    let mut vectors = Vec::new(alloc);
    if let Some(x) = found {
        vectors.push(x)?;
    }
    Ok(vectors)
}

// Several vectors from patterns, else one from the exact search. An empty answer proves that the netlists are
// equivalent.
fn find_counterexample(
    alloc: Global,
    spec: &Net,
    filled: &Net,
    clauses: u32,
    seed: u64,
    wanted: usize,
) -> Result<Vec<Vec<bool>>, RungFault>
    requires comparable { AreComparable spec.now filled.now }
    requires budget { clauses ≤ 8000000 }
    requires wanted { 1 ≤ wanted }
    ensures found { IfOk result (λ found. AreDistinctWith (DiffersAt spec.now filled.now) (map vec_items found.items)) }
    ensures none { IfOk result (λ found. found.items ≡ [] → AreEquivalent spec.now filled.now) }
    ensures nodes { IsErrOf result RungFault.Nodes
        → HasMoreThan (IsBeadOfAny (output_functions spec.now filled.now)) 1000000 }
{
    let drawn = differing_patterns(alloc, spec, filled, seed, wanted)?;
    if !drawn.is_empty() {
        return Ok(drawn);
    }
    let found = search_one(alloc, spec, filled, clauses)?;
    let vectors = list_of(alloc, found)?;
    Ok(vectors)
}

// Empty only where the tables agree.
fn by_filling(
    alloc: Global,
    pair: &Pair,
    tables: &[Table],
    clauses: u32,
    seed: u64,
    wanted: usize,
) -> Result<Vec<Vec<bool>>, RungFault>
    requires budget { clauses ≤ 8000000 }
    requires wanted { 1 ≤ wanted }
    requires fit { FitBoxes (per_box pair.now.kinds tables.now) pair.now.imp.boxes }
    requires few { table_bits pair.now.imp.boxes ≤ 2 ^ 20 }
    ensures found { IfOk result (λ found. AreDistinctWith
        (FailsAt pair.now.spec pair.now.imp (per_box pair.now.kinds tables.now)) (map vec_items found.items)) }
    ensures none { IfOk result (λ found.
        found.items ≡ [] → TablesMakeEquivalent pair.now.spec pair.now.imp (per_box pair.now.kinds tables.now)) }
    ensures nodes { IsErrOf result RungFault.Nodes
        → FillTooLarge pair.now.spec pair.now.imp (per_box pair.now.kinds tables.now) }
{
    filled_are_right();
    let filled = substitute(alloc, pair.imp(), tables, pair.kinds())?;
    let _ = filled.inputs();
    find_counterexample(alloc, pair.spec(), &filled, clauses, seed, wanted)
}

// Empty only where the tables agree. If the boxes cannot be filled, or BDDs are too large, all vectors are tried, since
// few clauses over all vectors mean few vectors; beyond the budget the answer is `Clauses`.
pub(crate) fn failing_vectors(
    alloc: Global,
    pair: &Pair,
    tables: &[Table],
    clauses: u32,
    seed: u64,
    wanted: usize,
) -> Result<Vec<Vec<bool>>, ExpandFault>
    requires budget { clauses ≤ 8000000 }
    requires wanted { 1 ≤ wanted }
    requires fit { FitBoxes (per_box pair.now.kinds tables.now) pair.now.imp.boxes }
    requires large { 2 ^ 20 < table_bits pair.now.imp.boxes → clause_total pair.now.imp ≤ clauses }
    ensures found { IfOk result (λ found. AreDistinctWith
        (FailsAt pair.now.spec pair.now.imp (per_box pair.now.kinds tables.now)) (map vec_items found.items)) }
    ensures none { IfOk result (λ found.
        found.items ≡ [] → TablesMakeEquivalent pair.now.spec pair.now.imp (per_box pair.now.kinds tables.now)) }
    ensures wide { IsErrOf result fault.Wide → ⊥ }
    ensures clauses { IsErrOf result fault.Clauses
        → (clauses < clause_total pair.now.imp)
        × FillTooLarge pair.now.spec pair.now.imp (per_box pair.now.kinds tables.now) }
{
    if may_be_filled(pair.imp()) {
        match by_filling(alloc, pair, tables, clauses, seed, wanted) {
            Ok(found) => return Ok(found),
            Err(RungFault::NoMemory) => return Err(ExpandFault::NoMemory),
            Err(RungFault::Nodes) if !is_within_budget(pair, clauses) => {
                return Err(ExpandFault::Clauses);
            }
            Err(RungFault::Nodes) => {}
        }
    }
    let found = first_failure(alloc, pair, tables)?;
    let vectors = list_of(alloc, found)?;
    Ok(vectors)
}
