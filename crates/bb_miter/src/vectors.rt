//! All vectors of few inputs, for netlists that simulation can exhaust.

ghost use Rattle.std.specs.Prelude.{◌≡◌, ◌≢◌, All, AllPairs, length, map, vec_items, IfOk};

use bb_bits::NoMemory;
use indexmap::IndexSet;
use std::alloc::Global;

// 2^12 vectors are at most as many as the patterns that a simulation may draw.
const FEW: u32 = 12;

/// Empty where there are more than `FEW` inputs.
pub(crate) fn vectors(alloc: Global, inputs: u32) -> Result<Vec<Vec<bool>>, NoMemory>
    ensures { IfOk result (λ vectors. All (λ x. length x.items ≡ inputs) vectors.items) }
{
    let mut vectors = Vec::new(alloc);
    if inputs <= FEW {
        for number in 0..1u32 << inputs {
            vectors.push(vector(alloc, inputs, number)?)?;
        }
    }
    Ok(vectors)
}

// Bit `i` of `number` is input `i`. Any order would do, since all are tried.
fn vector(alloc: Global, inputs: u32, number: u32) -> Result<Vec<bool>, NoMemory>
    ensures { IfOk result (λ x. length x.items ≡ inputs) }
{
    let mut x = vec![in alloc; false; inputs as usize]?;
    let mut rest = number;
    for bit in x.iter_mut() {
        *bit = rest % 2 == 1;
        rest /= 2;
    }
    Ok(x)
}

/// In order of insertion, so that runs repeat.
pub(crate) fn list_of(alloc: Global, found: IndexSet<Vec<bool>>) -> Result<Vec<Vec<bool>>, NoMemory>
    ensures vectors { IfOk result (λ vectors. vectors.items ≡ found.keys) }
    ensures distinct { IfOk result (λ vectors. AllPairs ◌≢◌ (map vec_items vectors.items)) }
{
    let mut vectors = Vec::with_capacity(alloc, found.len())?;
    for x in found {
        vectors.push(x)?;
    }
    Ok(vectors)
}
