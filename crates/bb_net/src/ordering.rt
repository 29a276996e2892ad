//! Levelization: cells in any order are put in topological order, or a combinational loop is reported.
//!
//! Kahn's algorithm and not a depth-first search: there is no recursion, and cells that never get a place show that
//! there is a loop. The loop is then searched for apart (`walks`), so a sound design pays nothing for its report.

mod advancing;
mod beginning;
mod components;
mod numbering;
mod placing;
mod ranks;
mod walks;

ghost use Rattle.std.specs.Prelude.{◌≡◌, ◌<◌, ◌++◌, [], ℕ, All, length, map, IfOk, IfErr, IfSome, IfNone, OnOk};
ghost use Rattle.std.specs.BinaryHeap.{heap_items};
ghost use Rattle.bb_net.specs.Loose.{IsLoose};
ghost use Rattle.bb_net.specs.Orders.{IsOrderOf, OrderKeepsValues, OrderHasNoWalk, OrderExists};
ghost use Rattle.bb_net.specs.Inside.NetFaults.{IsFaultOf};
ghost use Rattle.bb_net.specs.Inside.Placings.{IsAt, IsOpen, IsPlaced, IsPlacing, given_place};

use crate::ordering::advancing::look_at_all;
use crate::ordering::beginning::{begin, everyone};
use crate::ordering::numbering::place_boxes;
use crate::ordering::placing::Placing;
use crate::ordering::walks::least_on_walk;
use crate::{Loose, Net};
use bb_bits::NoMemory;
use std::alloc::AllocError;
pub use walks::dependences;

/// The cells in topological order. `boxes` has for each box of `net` its number in the list.
#[derive(Debug, Drop)]
pub struct Ordered {
    pub net: Net,
    pub boxes: Vec<u32>,
}

/// A list that is well formed has no other fault than a loop.
#[derive(Debug, Drop)]
pub enum NetFault {
    /// The least place on a combinational loop, so the report does not depend on the order of the search.
    Loop { place: u32 },
    NoMemory,
}

impl From<AllocError> for NetFault {
    ghost use Rattle.std.specs.Prelude.{◌≡◌};
    ghost use Rattle.bb_net.specs.declared.ordering.NetFault.TheVariants.{NoMemory};

    ghost from_gives = { λ _ e. e ≡ NoMemory };

    fn from(_: AllocError) -> NetFault {
        NetFault::NoMemory
    }
}

fn first_unplaced(to: &[Option<u32>]) -> Option<usize>
    ensures some { IfSome result (λ k. (k < length to.now) × IsOpen to.now k) }
    ensures none { IfNone result ((k : ℕ) → k < length to.now → IsPlaced to.now k) }
{
    for (k, place) in to.iter().enumerate() {
        if place.is_none() {
            return Some(k);
        }
    }
    None
}

// A cell without a place implies a loop, so the arm of `None` is dead.
fn closed_walk(loose: &Loose, s: &Placing) -> Result<NetFault, NoMemory>
    requires placing { IsPlacing loose.now s.now [] [] }
    requires settled { s.now.fresh.items ≡ [] }
    requires none_ready { heap_items s.now.ready ≡ [] }
    requires open { (k : ℕ) × (k < length loose.now.cells) × IsOpen s.now.to.items k }
    ensures fault { IfOk result (IsFaultOf loose.now) }
{
    match least_on_walk(loose, &s.to)? {
        Some(place) => Ok(NetFault::Loop { place }),
        None => unreachable!(),
    }
}

fn add_outs(net: &mut Net, outs: &[u32], to: &[Option<u32>]) -> Result<(), NoMemory>
    requires there { All (λ k. k < length to.now) outs.now }
    requires placed { (k place : ℕ) → IsAt to.now k place → place < length net.old.cells }
    requires whole { (k : ℕ) → k < length to.now → IsPlaced to.now k }
    ensures ok { OnOk result (net.new ≡ record net.old { outs = net.old.outs ++ map (given_place to.now) outs.now }) }
{
    for k in outs {
        net.add_out(to[*k as usize].unwrap_or(0))?;
    }
    Ok(())
}

fn finish(loose: &Loose, s: Placing) -> Result<Ordered, NoMemory>
    requires placing { IsPlacing loose.now s [] [] }
    requires settled { s.fresh.items ≡ [] }
    requires none_ready { heap_items s.ready ≡ [] }
    requires whole { (k : ℕ) → k < length loose.now.cells → IsPlaced s.to.items k }
    ensures ok { IfOk result (λ ordered. IsOrderOf loose.now ordered.net ordered.boxes.items) }
{
    let Placing {
        mut net,
        to,
        numbers,
        ..
    } = s;
    net.keeps_its_order();
    add_outs(&mut net, loose.output_places(), &to)?;
    Ok(Ordered {
        net,
        boxes: numbers,
    })
}

/// Levelizes a list, or reports the least place on a combinational loop.
///
/// This is Kahn's algorithm: a cell gets its place as soon as its operands have theirs. A cell waits for one open
/// operand at a time, and a box for one input pin, so operands need not be counted. The time is linear in cells, pins
/// and operands, but for the heap of ready boxes.
pub fn order(loose: &Loose) -> Result<Ordered, NetFault>
    requires { IsLoose loose.now }
    ensures ok { IfOk result (λ ordered. IsOrderOf loose.now ordered.net ordered.boxes.items) }
    ensures err { IfErr result (λ fault. IsFaultOf loose.now fault) }
{
    let mut s = begin(loose)?;
    look_at_all(loose, &mut s, &everyone(loose)?)?;
    place_boxes(loose, &mut s)?;
    match first_unplaced(&s.to) {
        None => Ok(finish(loose, s)?),
        Some(_) => Err(closed_walk(loose, &s)?),
    }
}

/// Levelization keeps the meaning: the values of the netlist are the only solution of the list's equations.
pub fn order_keeps_values()
    ensures { OrderKeepsValues }
{}

/// With `order_exists`: a list has an order exactly where it has no loop.
pub fn order_has_no_walk()
    ensures { OrderHasNoWalk }
{}

/// The converse of `order_has_no_walk`: a loop is the only reason to fail.
pub fn order_exists()
    ensures { OrderExists }
{}
