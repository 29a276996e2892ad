//! Sharing classes of a pair's boxes: the first member of each class, and the bits of one table a class.
//!
//! Classes are numbered by first appearance, so a box begins a class exactly where its class is the number of classes
//! so far. One pass without a set finds them.

ghost use Rattle.std.specs.Prelude.{◌≡◌, ◌<◌, ◌≤◌, ◌^◌, length, IfOk, IfSome, IfNone};
ghost use Rattle.bb_net.specs.Completions.{table_bits};
ghost use Rattle.bb_net.specs.Kinds.{AreNumberedInOrder, FitKinds, first_places, representatives};

use crate::tables::{MOST_BITS, box_bits};
use crate::{BoxPins, Pair};
use bb_bits::NoMemory;
use std::alloc::Global;

impl Pair {
    /// Numbers of boxes, increasing: one for each sharing class.
    pub fn first_boxes(&self, alloc: Global) -> Result<Vec<u32>, NoMemory>
        ensures firsts { IfOk result (λ firsts. firsts.items ≡ first_places self.now.kinds) }
    {
        first_of_kinds(alloc, self.kinds())
    }

    /// Counts one table for each sharing class; None exactly where the tables have more than 2^24 bits together.
    pub fn table_bits(&self) -> Option<u32>
        ensures some { IfSome result (λ bits. bits ≡ table_bits (representatives self.now.kinds self.now.imp.boxes)) }
        ensures small { IfSome result (λ bits. bits ≤ 2 ^ 24) }
        ensures none { IfNone result (2 ^ 24 < table_bits (representatives self.now.kinds self.now.imp.boxes)) }
    {
        count_kind_bits(self.kinds(), self.imp().boxes())
    }
}

// A class first appears where its number is the number of classes before it.
fn first_of_kinds(alloc: Global, kinds: &[u32]) -> Result<Vec<u32>, NoMemory>
    requires ordered { AreNumberedInOrder kinds.now }
    requires few { length kinds.now < 2 ^ 32 }
    ensures firsts { IfOk result (λ firsts. firsts.items ≡ first_places kinds.now) }
{
    let mut firsts = Vec::new(alloc);
    for (b, kind) in kinds.iter().enumerate() {
        if *kind as usize == firsts.len() {
            firsts.push(b as u32)?;
        }
    }
    Ok(firsts)
}

fn count_kind_bits(kinds: &[u32], boxes: &[BoxPins]) -> Option<u32>
    requires fit { FitKinds kinds.now boxes.now }
    ensures some { IfSome result (λ bits. bits ≡ table_bits (representatives kinds.now boxes.now)) }
    ensures small { IfSome result (λ bits. bits ≤ 2 ^ 24) }
    ensures none { IfNone result (2 ^ 24 < table_bits (representatives kinds.now boxes.now)) }
{
    let mut bits = 0;
    let mut count = 0;
    for (b, kind) in kinds.iter().enumerate() {
        if *kind as usize == count {
            count += 1;
            bits += box_bits(&boxes[b])?;
            if bits > MOST_BITS {
                return None;
            }
        }
    }
    Some(bits as u32)
}
