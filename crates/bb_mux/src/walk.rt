//! The depth-first walk of a diagram. Each node gets its place once, after its children, so shared nodes are shared
//! cells and the walk is linear. The recursion is no deeper than there are variables, at most 2,048.

ghost use Rattle.std.specs.Prelude.{IfOk, OnOk};
ghost use Rattle.bb_uniq.specs.Inside.Nodes.{IsRef};
ghost use Rattle.bb_uniq.specs.Inside.Meaning.{truth_of};
ghost use Rattle.bb_mux.specs.Inside.Functions.{DependsOnFirst, Computes};
ghost use Rattle.bb_mux.specs.Inside.Walks.{IsWalked, Walks};

use crate::choices::add_choice;
use bb_bits::{NoMemory, truth};
use bb_dd::{Diagrams, Ref, View};
use bb_net::Net;
use bb_strash::bits;
use bb_uniq::laws;

/// The place of the cell that computes `r`. A leaf has its own number as place, since the constants come first.
pub(crate) fn place_of(
    d: &Diagrams,
    r: Ref,
    net: &mut Net,
    places: &mut [Option<u32>],
) -> Result<u32, NoMemory>
    requires r { IsRef d.now.store r.0 }
    requires depends { DependsOnFirst d.now.store.vars net.old.inputs (truth_of d.now.store r.0) }
    requires walked { IsWalked d.now.store net.old places.old }
    ensures place { IfOk result (Computes d.now.store net.new r.0) }
    ensures walks { OnOk result (Walks d.now.store (truth_of d.now.store r.0) net.old net.new places.old places.new) }
{
    truth::tables();
    truth::beads();
    truth::sizes();
    laws::stores();
    laws::steps();
    bits();
    d.is_canonical();
    // Proves that there are no more beads than nodes.
    let _ = d.len();
    net.keeps_its_order();
    if let Some(place) = places[r.0 as usize] {
        return Ok(place);
    }
    let View::Node { var, lo, hi } = d.view(r) else {
        return Ok(r.0);
    };
    let low = place_of(d, lo, net, places)?;
    let high = place_of(d, hi, net, places)?;
    let place = add_choice(net, var + 2, high, low)?;
    places[r.0 as usize] = Some(place);
    Ok(place)
}
