//! Samples from simulation, cheapest first: several vectors at once are wanted, since with few at a time the solver has
//! to guess what many would settle. With at most twelve inputs all vectors come after the drawn patterns: a single
//! failing vector is seldom drawn.

ghost use Rattle.std.specs.Prelude.{◌≡◌, ◌≢◌, ◌≤◌, [], All, AllPairs, length, map, vec_items, IfOk, OnOk};
ghost use Rattle.bb_miter.specs.Inside.Equivalence.{AreComparable, DiffersAt, SameAt};
ghost use Rattle.bb_tern.specs.Patterns.{patterns as drawn_patterns};

use crate::vectors::{list_of, vectors};
use bb_bits::NoMemory;
use bb_net::Net;
use bb_tern::{differ_at, laws, patterns};
use indexmap::IndexSet;
use std::alloc::Global;

/// One lane for each bit of a word.
const LANES: usize = 64;

/// Drawn patterns come after those in which at most one bit differs from the others.
const DRAWN: u32 = 512;

/// At most `wanted` vectors, pairwise different. Empty only where all outputs agree at all patterns of a simulation, of
/// which 512 are drawn from `seed`; that proves nothing.
pub fn differing_patterns(
    alloc: Global,
    spec: &Net,
    imp: &Net,
    seed: u64,
    wanted: usize,
) -> Result<Vec<Vec<bool>>, NoMemory>
    requires comparable { AreComparable spec.now imp.now }
    requires wanted { 1 ≤ wanted }
    ensures differ { IfOk result (λ vectors. All (DiffersAt spec.now imp.now) (map vec_items vectors.items)) }
    ensures distinct { IfOk result (λ vectors. AllPairs ◌≢◌ (map vec_items vectors.items)) }
    ensures few { IfOk result (λ vectors. length vectors.items ≤ wanted) }
    ensures none { IfOk result (λ vectors.
        vectors.items ≡ [] → All (SameAt spec.now imp.now) (drawn_patterns imp.now.inputs 512 seed)) }
{
    laws::patterns_are_vectors();
    let mut found = IndexSet::new(alloc);
    let drawn = patterns(alloc, imp.inputs(), DRAWN, seed)?;
    add_differing(alloc, spec, imp, &drawn, wanted, &mut found)?;
    add_others(alloc, spec, imp, wanted, &mut found)?;
    let vectors = list_of(alloc, found)?;
    Ok(vectors)
}

// The list of all vectors is made only where too few were found.
fn add_others(
    alloc: Global,
    spec: &Net,
    imp: &Net,
    wanted: usize,
    found: &mut IndexSet<Vec<bool>>,
) -> Result<(), NoMemory>
    requires comparable { AreComparable spec.now imp.now }
    requires wanted { 1 ≤ wanted }
    requires differ { All (DiffersAt spec.now imp.now) (map vec_items found.old.keys) }
    requires few { length found.old.keys ≤ wanted }
    ensures differ { OnOk result (All (DiffersAt spec.now imp.now) (map vec_items found.new.keys)) }
    ensures few { OnOk result (length found.new.keys ≤ wanted) }
    ensures none { OnOk result (found.new.keys ≡ [] → found.old.keys ≡ []) }
{
    if found.len() >= wanted {
        return Ok(());
    }
    let others = vectors(alloc, imp.inputs())?;
    add_differing(alloc, spec, imp, &others, wanted, found)
}

// In order, until `wanted` are found; the set drops repeated patterns.
fn add_differing(
    alloc: Global,
    spec: &Net,
    imp: &Net,
    patterns: &[Vec<bool>],
    wanted: usize,
    found: &mut IndexSet<Vec<bool>>,
) -> Result<(), NoMemory>
    requires comparable { AreComparable spec.now imp.now }
    requires inputs { All (λ p. length p.items ≡ imp.now.inputs) patterns.now }
    requires wanted { 1 ≤ wanted }
    requires differ { All (DiffersAt spec.now imp.now) (map vec_items found.old.keys) }
    requires few { length found.old.keys ≤ wanted }
    ensures differ { OnOk result (All (DiffersAt spec.now imp.now) (map vec_items found.new.keys)) }
    ensures few { OnOk result (length found.new.keys ≤ wanted) }
    ensures none { OnOk result (found.new.keys ≡ []
        → (found.old.keys ≡ []) × All (SameAt spec.now imp.now) (map vec_items patterns.now)) }
{
    let mut start = 0;
    while start < patterns.len() && found.len() < wanted {
        let end = patterns.len().min(start + LANES);
        add_differing_among(alloc, spec, imp, &patterns[start..end], wanted, found)?;
        start = end;
    }
    Ok(())
}

fn add_differing_among(
    alloc: Global,
    spec: &Net,
    imp: &Net,
    patterns: &[Vec<bool>],
    wanted: usize,
    found: &mut IndexSet<Vec<bool>>,
) -> Result<(), NoMemory>
    requires comparable { AreComparable spec.now imp.now }
    requires count { length patterns.now ≤ 64 }
    requires inputs { All (λ p. length p.items ≡ imp.now.inputs) patterns.now }
    requires wanted { 1 ≤ wanted }
    requires differ { All (DiffersAt spec.now imp.now) (map vec_items found.old.keys) }
    requires few { length found.old.keys ≤ wanted }
    ensures differ { OnOk result (All (DiffersAt spec.now imp.now) (map vec_items found.new.keys)) }
    ensures few { OnOk result (length found.new.keys ≤ wanted) }
    ensures none { OnOk result (found.new.keys ≡ []
        → (found.old.keys ≡ []) × All (SameAt spec.now imp.now) (map vec_items patterns.now)) }
{
    let marks = differ_at(alloc, spec, imp, patterns)?;
    for (k, pattern) in patterns.iter().enumerate() {
        if marks[k] && found.len() < wanted {
            found.insert(Vec::from_slice(alloc, pattern)?)?;
        }
    }
    Ok(())
}
