//! The choice of a window, by a heap of places (cuts and heaps, Kuehlmann and Krohm 1997): the cells of the cone with
//! the highest places. Cells read only lower places, so popping the highest first visits each cell once, in reverse
//! topological order, and any stop leaves a cut.

use bb_bits::NoMemory;
use bb_net::{Cell, Net};
use std::alloc::Global;
use std::collections::BinaryHeap;

/// Both lists from the last cell to the first.
#[derive(Debug, Drop)]
pub(crate) struct Part {
    pub leaves: Vec<u32>,
    pub gates: Vec<u32>,
}

// Inputs end every window.
fn push_operands(heap: &mut BinaryHeap<u32>, cell: Cell) -> Result<(), NoMemory> {
    match cell {
        Cell::Const(_) | Cell::Input(_) | Cell::BoxOut(_, _) => {}
        Cell::Not(a) => heap.push(a)?,
        Cell::And(a, b) | Cell::Or(a, b) | Cell::Xor(a, b) => {
            heap.push(a)?;
            heap.push(b)?;
        }
        Cell::Mux(c, t, e) => {
            heap.push(c)?;
            heap.push(t)?;
            heap.push(e)?;
        }
    }
    Ok(())
}

/// Up to `most` gates, those of the cone with the highest places.
pub(crate) fn part_of(alloc: Global, net: &Net, place: u32, most: usize) -> Result<Part, NoMemory> {
    let mut part = Part {
        leaves: Vec::new(alloc),
        gates: Vec::new(alloc),
    };
    let mut heap = BinaryHeap::new(alloc);
    heap.push(place)?;
    let mut last = None;
    // Each gate pushes at most three cells, which bounds the loop.
    let most_visits = net.cells().len().saturating_mul(3).saturating_add(1);
    for _ in 0..most_visits {
        let Some(here) = heap.pop() else {
            break;
        };
        if last == Some(here) || here <= 1 {
            continue;
        }
        last = Some(here);
        match net.cells().get(here as usize) {
            Some(Cell::Input(_)) | None => part.leaves.push(here)?,
            Some(_) if part.gates.len() >= most => part.leaves.push(here)?,
            Some(cell) => {
                push_operands(&mut heap, *cell)?;
                part.gates.push(here)?;
            }
        }
    }
    Ok(part)
}
