//! Candidate classes for SAT sweeping: cells with the same signature over simulated patterns, or with the complement. A
//! signature is a hash of the bits and not the bits, so memory is one word a cell; a collision costs one failed
//! candidate. No proof uses the classes, since the solver refutes each merge.

ghost use Rattle.std.specs.Prelude.{◌≡◌, ◌≤◌, true, All, length};

use bb_bits::NoMemory;
use bb_net::Net;
use bb_tern::{patterns, words};
use indexmap::IndexMap;
use std::alloc::Global;

// Drawn patterns come after those in which at most one bit differs from the others.
const DRAWN: u32 = 1024;

const SEED: u64 = 0x2545_f491_4f6c_dd1d;

// The width of one pass of `bb_tern`.
const LANES: usize = 64;

/// A cell by its place in the swept netlist; with `inverse`, its complement is meant.
#[derive(Clone, Copy, Debug)]
pub(crate) struct Candidate {
    pub place: u32,
    pub inverse: bool,
}

#[derive(Clone, Copy, Debug)]
struct First {
    place: u32,
    phase: bool,
}

/// Cells are entered in order, so `firsts` has the lowest place of each class and merging goes towards the inputs.
#[derive(Debug, Drop)]
pub(crate) struct Classes {
    // Equal bits have equal numbers; unequal bits may, too.
    signatures: Vec<u64>,
    // The bit of each cell at the first pattern. A cell that is 1 there is entered as its complement, so that both
    // phases fall into one class.
    phases: Vec<bool>,
    places: Vec<u32>,
    firsts: IndexMap<u64, First>,
}

fn are_vectors(vectors: &[Vec<bool>], inputs: u32) -> bool
    ensures { result ≡ true → All (λ x. length x.items ≡ inputs) vectors.now }
{
    vectors.iter().all(|x| x.len() == inputs as usize)
}

// A multiplicative hash step (Knuth TAOCP 3, 6.4), then high bits folded into low ones.
fn mixed(signature: u64, word: u64) -> u64 {
    let next = (signature ^ word).wrapping_mul(11_400_714_819_323_198_485);
    next ^ (next >> 29)
}

fn add_words(signatures: &mut [u64], phases: &[bool], words: &[u64]) {
    for (k, signature) in signatures.iter_mut().enumerate() {
        let word = words.get(k).copied().unwrap_or(0);
        let inverse = phases.get(k).copied().unwrap_or(false);
        *signature = mixed(*signature, if inverse { !word } else { word });
    }
}

// Pattern 0 is the lowest bit of a word.
fn first_bits(alloc: Global, words: &[u64]) -> Result<Vec<bool>, NoMemory> {
    let mut bits = Vec::with_capacity(alloc, words.len())?;
    for word in words {
        bits.push(word % 2 == 1)?;
    }
    Ok(bits)
}

impl Classes {
    /// The phase is fixed by the first drawn pattern, since a later change would invalidate all signatures.
    pub(crate) fn of(alloc: Global, net: &Net) -> Result<Classes, NoMemory>
        requires { net.now.inputs ≤ 2048 }
    {
        let drawn = patterns(alloc, net.inputs(), DRAWN, SEED)?;
        let first = words(alloc, net, &drawn[..1])?;
        let mut classes = Classes {
            signatures: vec![in alloc; 0; net.cells().len()]?,
            phases: first_bits(alloc, &first)?,
            places: Vec::with_capacity(alloc, net.cells().len())?,
            firsts: IndexMap::new(alloc),
        };
        classes.simulate(alloc, net, &drawn)?;
        Ok(classes)
    }

    // Vectors of another length are ignored, so that callers need no contract about them.
    fn simulate(
        &mut self,
        alloc: Global,
        net: &Net,
        patterns: &[Vec<bool>],
    ) -> Result<(), NoMemory> {
        if !are_vectors(patterns, net.inputs()) {
            return Ok(());
        }
        let mut start = 0;
        while start < patterns.len() {
            let end = patterns.len().min(start + LANES);
            let words = words(alloc, net, &patterns[start..end])?;
            add_words(&mut self.signatures, &self.phases, &words);
            start = end;
        }
        Ok(())
    }

    /// None where no earlier cell has the signature: the cell then is the first of its class.
    pub(crate) fn candidate(&self, number: usize) -> Option<Candidate> {
        let first = self.firsts.get(self.signatures.get(number)?)?;
        let inverse = first.phase != *self.phases.get(number)?;
        Some(Candidate {
            place: first.place,
            inverse,
        })
    }

    fn set_first(&mut self, number: usize, place: u32) -> Result<(), NoMemory> {
        let signature = self.signatures.get(number).copied().unwrap_or(0);
        let phase = self.phases.get(number).copied().unwrap_or(false);
        if self.firsts.get(&signature).is_none() {
            self.firsts.insert(signature, First { place, phase })?;
        }
        Ok(())
    }

    pub(crate) fn enter(&mut self, place: u32) -> Result<(), NoMemory> {
        let number = self.places.len();
        self.places.push(place)?;
        self.set_first(number, place)
    }

    /// Counterexamples of failed candidates split their classes. The first cells are found anew, since signatures
    /// changed.
    pub(crate) fn refine(
        &mut self,
        alloc: Global,
        net: &Net,
        patterns: &[Vec<bool>],
    ) -> Result<(), NoMemory> {
        self.simulate(alloc, net, patterns)?;
        self.firsts = IndexMap::new(alloc);
        for number in 0..self.places.len() {
            let place = self.places.get(number).copied().unwrap_or(0);
            self.set_first(number, place)?;
        }
        Ok(())
    }
}
