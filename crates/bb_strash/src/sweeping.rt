//! A copy of a netlist in which a `Merger` replaces cells. Cells that are no longer read stay in the copy; they cost
//! memory only, since searches work on cones of outputs.

ghost use Rattle.std.specs.Prelude.{◌≡◌, ◌<◌, [], map, slice_index, IfOk, IfSome};
ghost use Rattle.bb_strash.specs.Inside.Miters.{HasOutputsOf};

use crate::bit_laws::bits;
use crate::copying::{Merger, copy};
use crate::hashed::Hashed;
use crate::joining::MOST;
use bb_bits::NoMemory;
use bb_net::Net;
use bb_subst::place_of;
use std::alloc::Global;

fn new_places(alloc: Global, places: &[u32], old: &[u32]) -> Result<Vec<u32>, NoMemory>
    ensures { IfOk result (λ new. new.items ≡ map (slice_index places.now) old.now) }
{
    let mut new = Vec::with_capacity(alloc, old.len())?;
    for k in old {
        new.push(place_of(places, *k))?;
    }
    Ok(new)
}

/// Same outputs at every vector. None beyond 2^25 cells.
pub fn swept<M: Merger>(alloc: Global, net: &Net, merger: &mut M) -> Result<Option<Net>, NoMemory>
    requires none { net.now.boxes ≡ [] }
    ensures { IfOk result (λ found. IfSome found (HasOutputsOf net.now)) }
{
    bits();
    net.keeps_its_order();
    if net.cells().len() > MOST {
        return Ok(None);
    }
    let mut hashed = Hashed::start(alloc, net.inputs())?;
    let _ = hashed.net();
    let places = copy(alloc, &mut hashed, net, merger)?;
    let outs = new_places(alloc, &places, net.outs())?;
    let swept = hashed.finish(outs)?;
    Ok(Some(swept))
}
