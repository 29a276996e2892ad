//! Two-valued comparison of two nets, for filled netlists. It returns all lanes that differ and not the first, since
//! the search for samples wants many.

ghost use Rattle.std.specs.Prelude.{◌≡◌, ◌<◌, ◌≤◌, ℕ, [], Some, MatchBool, length, map, vec_items, All, IfOk};
ghost use Rattle.bb_net.specs.Equivalence.{SomeWrong, AllRight};
ghost use Rattle.bb_net.specs.Values.{bit_of, flat};
ghost use Rattle.bb_tern.specs.Inside.Lanes.{lane, bits_in, pattern_at, HasBits, ReportsWrong};

use crate::lanes::{or_word, xor_word};
use crate::packing::pack;
use crate::passing::{has_lane, write_words};
use bb_bits::NoMemory;
use bb_net::{Net, value_exists};
use std::alloc::Global;

/// Entry `k` is for pattern `k`; at most 64. Box outputs count as 0.
pub fn differ_at(
    alloc: Global,
    spec: &Net,
    imp: &Net,
    patterns: &[Vec<bool>],
) -> Result<Vec<bool>, NoMemory>
    requires count { length patterns.now ≤ 64 }
    requires inputs { All (λ p. length p.items ≡ imp.now.inputs) patterns.now }
    requires same { spec.now.inputs ≡ imp.now.inputs }
    requires outputs { length spec.now.outs ≡ length imp.now.outs }
    ensures len { IfOk result (λ marks. length marks.items ≡ length patterns.now) }
    ensures marks { IfOk result (λ marks. (k : ℕ) → k < length patterns.now
        → MatchBool (bit_of marks.items k)
        (SomeWrong spec.now imp.now (pattern_at (map vec_items patterns.now) k) (flat imp.now
        (pattern_at (map vec_items patterns.now) k) []))
        (AllRight spec.now imp.now (pattern_at (map vec_items patterns.now) k) (flat imp.now
        (pattern_at (map vec_items patterns.now) k) []))) }
{
    let wanted = words(alloc, spec, patterns)?;
    let given = words(alloc, imp, patterns)?;
    let lanes = differing_lanes(spec.outs(), imp.outs(), &wanted, &given);
    let marks = first_lanes(alloc, lanes, patterns.len())?;
    Ok(marks)
}

/// A word for each cell, its lowest bit at the first pattern; at most 64 patterns. Box outputs count as 0.
pub fn words(alloc: Global, net: &Net, patterns: &[Vec<bool>]) -> Result<Vec<u64>, NoMemory>
    requires count { length patterns.now ≤ 64 }
    requires inputs { All (λ p. length p.items ≡ net.now.inputs) patterns.now }
    ensures len { IfOk result (λ words. length words.items ≡ length net.now.cells) }
    ensures bits { IfOk result (λ words. (k : ℕ) → k < length patterns.now
        → HasBits words.items (length net.now.cells) k (bit_of (flat net.now
        (pattern_at (map vec_items patterns.now) k) []))) }
{
    value_exists();
    let cells = net.cells();
    let mut ins = vec![in alloc; 0; net.inputs() as usize]?;
    let mut out = vec![in alloc; 0; cells.len()]?;
    pack(patterns, &mut ins);
    write_words(cells, &ins, &mut out);
    Ok(out)
}

fn differing_lanes(spec_outs: &[u32], imp_outs: &[u32], wanted: &[u64], given: &[u64]) -> u64
    requires same { length spec_outs.now ≡ length imp_outs.now }
    requires spec_cells { All (λ place. place < length wanted.now) spec_outs.now }
    requires imp_cells { All (λ place. place < length given.now) imp_outs.now }
    ensures { (k : ℕ) → k < 64
        → ReportsWrong (bits_in wanted.now k) (λ place. Some (bits_in given.now k place)) spec_outs.now imp_outs.now
        (length imp_outs.now) result k }
{
    let mut lanes = 0;
    for (j, place) in imp_outs.iter().enumerate() {
        let word = xor_word(wanted[spec_outs[j] as usize], given[*place as usize]);
        lanes = or_word(lanes, word);
    }
    lanes
}

// Lanes beyond `count` have no pattern and are dropped.
fn first_lanes(alloc: Global, word: u64, count: usize) -> Result<Vec<bool>, NoMemory>
    requires { count ≤ 64 }
    ensures len { IfOk result (λ marks. length marks.items ≡ count) }
    ensures marks { IfOk result (λ marks. (k : ℕ) → k < count → bit_of marks.items k ≡ lane word k) }
{
    let mut marks = Vec::with_capacity(alloc, count)?;
    for k in 0..count {
        marks.push(has_lane(word, k))?;
    }
    Ok(marks)
}
