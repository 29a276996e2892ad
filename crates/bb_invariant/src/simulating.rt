//! The solver refutes clauses over several vectors, and at one of them the outputs differ: simulation finds it.

ghost use Rattle.std.specs.Prelude.{◌≡◌, ◌≤◌, length, map, vec_items, All, IfOk, IfSome, IfNone};
ghost use Rattle.bb_miter.specs.Inside.Equivalence.{AreComparable, DiffersAt, SameAt};
ghost use Rattle.bb_invariant.specs.Inside.Answers.{SomeDiffer};

use bb_bits::NoMemory;
use bb_net::Net;
use bb_tern::differ_at;
use std::alloc::Global;

/// One vector for each bit of a word.
const LANES: usize = 64;

/// The first of the vectors at which some output differs; there must be one.
pub(crate) fn differing_vector(
    alloc: Global,
    spec: &Net,
    imp: &Net,
    vectors: &[Vec<bool>],
) -> Result<Vec<bool>, NoMemory>
    requires comparable { AreComparable spec.now imp.now }
    requires inputs { All (λ x. length x.items ≡ imp.now.inputs) vectors.now }
    requires some { SomeDiffer spec.now imp.now (map vec_items vectors.now) }
    ensures differs { IfOk result (λ x. DiffersAt spec.now imp.now x.items) }
{
    let mut start = 0;
    while start < vectors.len() {
        let end = vectors.len().min(start + LANES);
        if let Some(x) = differing_among(alloc, spec, imp, &vectors[start..end])? {
            return Ok(x);
        }
        start = end;
    }
    unreachable!()
}

fn differing_among(
    alloc: Global,
    spec: &Net,
    imp: &Net,
    vectors: &[Vec<bool>],
) -> Result<Option<Vec<bool>>, NoMemory>
    requires comparable { AreComparable spec.now imp.now }
    requires count { length vectors.now ≤ 64 }
    requires inputs { All (λ x. length x.items ≡ imp.now.inputs) vectors.now }
    ensures found { IfOk result (λ found. IfSome found (λ x. DiffersAt spec.now imp.now x.items)) }
    ensures none { IfOk result (λ found. IfNone found (All (SameAt spec.now imp.now) (map vec_items vectors.now))) }
{
    let marks = differ_at(alloc, spec, imp, vectors)?;
    for (k, vector) in vectors.iter().enumerate() {
        if marks[k] {
            let vector = Vec::from_slice(alloc, vector)?;
            return Ok(Some(vector));
        }
    }
    Ok(None)
}
