//! Copying a netlist into a hashed one, with a hook that may replace each copied cell. Hashing alone and SAT sweeping
//! are then one loop.

ghost use Rattle.std.specs.Prelude.{◌≡◌, ◌+◌, ◌*◌, ◌<◌, ◌^◌, [], length, IfOk, OnOk};
ghost use Rattle.bb_strash.specs.Inside.Extensions.{bit, Extends, Gives};
ghost use Rattle.bb_strash.specs.Inside.Copies.{AreCopied};

use crate::bit_laws::bits;
use crate::hashed::Hashed;
use bb_bits::NoMemory;
use bb_net::Net;
use bb_subst::moved;
use std::alloc::Global;

/// Chooses another cell for a copied one; the contract demands that both have the same bit at every vector.
pub trait Merger {
    /// `number` is the cell in the source, `place` its copy.
    fn merge(
        &mut self,
        alloc: Global,
        hashed: &mut Hashed,
        number: usize,
        place: u32,
    ) -> Result<u32, NoMemory>
        requires none { hashed.old.boxes ≡ [] }
        requires there { place < length hashed.old.cells }
        requires room { length hashed.old.cells + 10 < 2 ^ 32 }
        ensures extends { OnOk result (Extends hashed.old hashed.new 10) }
        ensures gives { IfOk result (λ other. Gives hashed.new other (λ x. bit hashed.old x place)) };
}

/// Structural hashing alone.
#[derive(Clone, Copy, Debug)]
pub struct Unmerged;

impl Merger for Unmerged {
    fn merge(
        &mut self,
        alloc: Global,
        hashed: &mut Hashed,
        number: usize,
        place: u32,
    ) -> Result<u32, NoMemory> {
        let _ = (alloc, number);
        let _ = hashed.net();
        Ok(place)
    }
}

/// The answer gives the new place of each cell, in source order. Later cells read merged places, so merges accumulate
/// from the inputs on.
pub fn copy<M: Merger>(
    alloc: Global,
    hashed: &mut Hashed,
    source: &Net,
    merger: &mut M,
) -> Result<Vec<u32>, NoMemory>
    requires inputs { hashed.old.inputs ≡ source.now.inputs }
    requires none { hashed.old.boxes ≡ [] }
    requires source { source.now.boxes ≡ [] }
    requires room { length hashed.old.cells + 15 * length source.now.cells < 2 ^ 32 }
    ensures extends { OnOk result (Extends hashed.old hashed.new (15 * length source.now.cells)) }
    ensures copied { IfOk result (λ places. AreCopied source.now (length source.now.cells) hashed.new places.items) }
{
    bits();
    let _ = hashed.net();
    let cells = source.cells();
    let mut places = Vec::with_capacity(alloc, cells.len())?;
    for (number, cell) in cells.iter().enumerate() {
        let copied = hashed.add(moved(&places, *cell))?;
        let place = merger.merge(alloc, hashed, number, copied)?;
        places.push(place)?;
    }
    Ok(places)
}
