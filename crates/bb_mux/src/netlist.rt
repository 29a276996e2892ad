//! Diagrams as one netlist with an output for each, over one memo of places, so that they share nodes. The memo is a
//! vector with an entry for each node: less than the store takes, and nothing is hashed. Outputs come last, since what
//! is proved of added cells is that outputs stay.

ghost use Rattle.std.specs.Prelude.{◌≡◌, ◌+◌, ◌*◌, ◌<◌, ◌≤◌, ◌^◌, [], ℕ, List, Bool, All, length, map, replicate, take};
ghost use Rattle.std.specs.Prelude.{slice_get, None, Some, IfOk, OnOk};
ghost use Rattle.std.specs.List.{AllZip};
ghost use Rattle.bb_bits.specs.Truth.{truth_at};
ghost use Rattle.bb_uniq.specs.Inside.Nodes.{IsRef};
ghost use Rattle.bb_uniq.specs.Inside.Meaning.{truth_of};
ghost use Rattle.bb_net.specs.Equivalence.{out_bit};
ghost use Rattle.bb_net.specs.Values.{flat};
ghost use Rattle.bb_strash.specs.Inside.Extensions.{Extends};
ghost use Rattle.bb_mux.specs.Inside.Functions.{DependsOnFirst, Computes, HasFewCells};
ghost use Rattle.bb_mux.specs.Inside.Walks.{AreWalked};

use crate::walk::place_of;
use bb_bits::NoMemory;
use bb_dd::{Diagrams, Ref};
use bb_net::Net;
use bb_strash::bits;
use std::alloc::Global;

fn no_places(alloc: Global, count: usize) -> Result<Vec<Option<u32>>, NoMemory>
    ensures { IfOk result (λ places. places.items ≡ replicate count None) }
{
    let places = vec![in alloc; None; count]?;
    Ok(places)
}

fn places_of(
    alloc: Global,
    d: &Diagrams,
    roots: &[Ref],
    net: &mut Net,
    places: &mut [Option<u32>],
) -> Result<Vec<u32>, NoMemory>
    requires refs { All (λ r. IsRef d.now.store r.0) roots.now }
    requires depends { All (λ r. DependsOnFirst d.now.store.vars net.old.inputs (truth_of d.now.store r.0)) roots.now }
    requires walked { AreWalked d.now.store (map (λ r. truth_of d.now.store r.0) roots.now) net.old places.old }
    ensures extends { OnOk result ((most : ℕ) × Extends net.old net.new most) }
    ensures computed { IfOk result (λ outs. AllZip (λ r. Computes d.now.store net.new r.0) roots.now outs.items) }
    ensures few { OnOk result (HasFewCells (map (λ r. truth_of d.now.store r.0) roots.now) net.new) }
{
    bits();
    net.keeps_its_order();
    let mut outs = Vec::with_capacity(alloc, roots.len())?;
    for r in roots {
        let place = place_of(d, *r, net, places)?;
        outs.push(place)?;
    }
    Ok(outs)
}

fn with_outs(net: Net, outs: &[u32]) -> Result<Net, NoMemory>
    requires there { All (λ place. place < length net.cells) outs.now }
    requires none { net.outs ≡ [] }
    ensures { IfOk result (λ all. all ≡ record net { outs = outs.now }) }
{
    let mut net = net;
    for out in outs {
        net.add_out(*out)?;
    }
    Ok(net)
}

/// A netlist without boxes: input `i` is variable `i`, output `j` the function of root `j`.
///
/// Nodes that roots share stand once. The functions depend on none but the first `inputs` variables.
///
/// # Errors
///
/// `NoMemory` alone.
pub fn netlist_of(alloc: Global, d: &Diagrams, roots: &[Ref], inputs: u32) -> Result<Net, NoMemory>
    requires refs { All (λ r. IsRef d.now.store r.0) roots.now }
    requires depends { All (λ r. DependsOnFirst d.now.store.vars inputs (truth_of d.now.store r.0)) roots.now }
    requires inputs { inputs ≤ d.now.store.vars }
    requires room { inputs + 2 + 2 * length d.now.store.nodes < 2 ^ 32 }

    ensures inputs { IfOk result (λ net. net.inputs ≡ inputs) }
    ensures boxes { IfOk result (λ net. net.boxes ≡ []) }
    ensures outs { IfOk result (λ net. length net.outs ≡ length roots.now) }

    // Each output has the bit of its root at every point.
    ensures values { IfOk result (λ net. (point : List Bool) (j : ℕ) (r : Ref) → length point ≡ d.now.store.vars
        → slice_get roots.now j ≡ Some r
        → out_bit net (flat net (take inputs point) []) j ≡ truth_at (truth_of d.now.store r.0) point) }

    // Beside constants and inputs there are at most two cells for each bead.
    ensures few { IfOk result (HasFewCells (map (λ r. truth_of d.now.store r.0) roots.now)) }
{
    let mut net = Net::start(alloc, inputs)?;
    let mut places = no_places(alloc, d.len() as usize + 2)?;
    let outs = places_of(alloc, d, roots, &mut net, places.as_mut_slice())?;
    with_outs(net, &outs)
}
