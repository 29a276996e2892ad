//! The initial state of levelization: only the constants and the inputs have places, and every cell and box has yet to
//! be looked at once.

ghost use Rattle.std.specs.Prelude.{◌≡◌, ◌+◌, ◌<◌, ◌≤◌, ◌^◌, ◌++◌, [], ℕ, List, replicate, length, map, IfOk, OnOk};
ghost use Rattle.std.specs.List.{range_with_len};
ghost use Rattle.bb_net.specs.Loose.{IsLoose};
ghost use Rattle.bb_net.specs.Inside.Placings.{IsAt, IsOpen, open_count, IsPlacing, AreAll};
ghost use Rattle.bb_net.specs.declared.ordering.placing.Waiter.{Waiter};
ghost use Rattle.bb_net.specs.declared.ordering.placing.Waiter.TheVariants as waiter;

use crate::ordering::placing::{Placing, Waiter, Waiters};
use crate::{Loose, Net};
use bb_bits::NoMemory;
use std::alloc::Global;
use std::collections::BinaryHeap;

// The constants and inputs keep their places, so an input has one number in the list and in the netlist.
fn first_places(alloc: Global, cells: usize, first: u32) -> Result<Vec<Option<u32>>, NoMemory>
    requires within { first ≤ cells }
    ensures whole { IfOk result (λ to. length to.items ≡ cells) }
    ensures first { IfOk result (λ to. (k : ℕ) → k < first → IsAt to.items k k) }
    ensures open { IfOk result (λ to. (k : ℕ) → first ≤ k → IsOpen to.items k) }
    ensures count { IfOk result (λ to. first + open_count to.items ≡ cells) }
{
    let mut to = vec![in alloc; None; cells]?;
    for k in 0..first {
        to[k as usize] = Some(k);
    }
    Ok(to)
}

fn nobody(alloc: Global, cells: usize) -> Result<Vec<Waiters>, NoMemory>
    ensures ok { IfOk result (λ waiting. waiting.items ≡ replicate cells []) }
{
    let mut waiting = Vec::with_capacity(alloc, cells)?;
    for _ in 0..cells {
        waiting.push(Waiters::none(alloc))?;
    }
    Ok(waiting)
}

fn all_cells(alloc: Global, cells: u32) -> Result<Vec<Waiter>, NoMemory>
    ensures ok { IfOk result (λ all. all.items ≡ map waiter.Cell (range_with_len 0 cells)) }
{
    let mut all = Vec::new(alloc);
    for k in 0..cells {
        all.push(Waiter::Cell(k))?;
    }
    Ok(all)
}

fn all_boxes(alloc: Global, boxes: u32) -> Result<Vec<Waiter>, NoMemory>
    ensures ok { IfOk result (λ all. all.items ≡ map (λ b. waiter.Box b 0) (range_with_len 0 boxes)) }
{
    let mut all = Vec::new(alloc);
    for b in 0..boxes {
        all.push(Waiter::Box(b, 0))?;
    }
    Ok(all)
}

pub(crate) fn everyone(loose: &Loose) -> Result<Vec<Waiter>, NoMemory>
    requires list { IsLoose loose.now }
    ensures ok { IfOk result (λ all. AreAll loose.now all.items) }
{
    let alloc = loose.allocator();
    let mut all = all_cells(alloc, loose.cell_count() as u32)?;
    let mut boxes = all_boxes(alloc, loose.box_count() as u32)?;
    all.append(&mut boxes)?;
    Ok(all)
}

pub(crate) fn begin(loose: &Loose) -> Result<Placing, NoMemory>
    requires list { IsLoose loose.now }
    ensures ok { IfOk result (λ s. (woken : List Waiter) → AreAll loose.now woken → IsPlacing loose.now s woken []) }
{
    let alloc = loose.allocator();
    let inputs = loose.input_count();
    Ok(Placing {
        net: Net::start(alloc, inputs)?,
        to: first_places(alloc, loose.cell_count(), inputs + 2)?,
        numbers: Vec::new(alloc),
        numbered: vec![in alloc; false; loose.box_count()]?,
        waiting: nobody(alloc, loose.cell_count())?,
        fresh: Vec::new(alloc),
        ready: BinaryHeap::new(alloc),
    })
}
