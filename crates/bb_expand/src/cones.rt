//! Is a cell of a netlist without boxes ever 1? The solver gets its cone, or a window of it (see `bb_strash`). A window
//! with free leaves is an over-approximation: UNSAT proves that the cell is constant 0, while a model has to be
//! confirmed by simulation of the whole netlist.

ghost use Rattle.std.specs.Prelude.{◌≡◌, ◌<◌, ◌≤◌, [], length, IfOk};
ghost use Rattle.bb_expand.specs.Inside.Cones.{IfOne, IfZero, IsZero};

use crate::free::by_solver;
use crate::search_result::SearchResult;
use bb_bits::NoMemory;
use bb_net::{Cell, Net};
use bb_strash::{bits, window_of};
use std::alloc::Global;

/// Limits of one search: gates in the window, clauses of the query, learned clauses.
#[derive(Clone, Copy, Debug)]
pub(crate) struct Effort {
    pub gates: usize,
    pub clauses: u32,
    pub learned: u32,
}

// Bounds the leaves of a window: they are the inputs of its netlist.
const INPUTS: usize = 2048;

// The second netlist of the query: its output is 0, so a difference is a 1 of the cell.
fn zero(alloc: Global, inputs: u32) -> Result<Net, NoMemory>
    requires few { inputs ≤ 2048 }
    ensures { IfOk result (IsZero inputs) }
{
    bits();
    let mut net = Net::start(alloc, inputs)?;
    net.keeps_its_order();
    net.add_out(0)?;
    net.keeps_its_order();
    Ok(net)
}

// Leaves that are no inputs are dropped: their bits follow from the inputs.
fn vector_of(alloc: Global, net: &Net, leaves: &[u32], bits: &[bool]) -> Result<Vec<bool>, NoMemory>
    ensures { IfOk result (λ x. length x.items ≡ net.now.inputs) }
{
    let mut x = vec![in alloc; false; net.inputs() as usize]?;
    for (leaf, bit) in leaves.iter().zip(bits) {
        if let Some(Cell::Input(i)) = net.cells().get(*leaf as usize) {
            if let Some(here) = x.get_mut(*i as usize) {
                *here = *bit;
            }
        }
    }
    Ok(x)
}

fn tried(alloc: Global, net: &Net, place: u32, x: Vec<bool>) -> Result<SearchResult, NoMemory>
    requires none { net.now.boxes ≡ [] }
    requires there { place < length net.now.cells }
    requires inputs { length x.items ≡ net.now.inputs }
    ensures one { IfOk result (IfOne net.now place) }
    ensures zero { IfOk result (IfZero net.now place) }
{
    let mut value = vec![in alloc; false; net.cells().len()]?;
    net.value(&x, &[], &mut value);
    if value[place as usize] {
        Ok(SearchResult::At(x))
    } else {
        Ok(SearchResult::GivenUp)
    }
}

/// Gives up beyond the effort, beyond 2,048 leaves, and where the window has a model that the simulated vector does not
/// confirm.
pub(crate) fn search_cell(
    alloc: Global,
    net: &Net,
    place: u32,
    effort: Effort,
) -> Result<SearchResult, NoMemory>
    requires none { net.now.boxes ≡ [] }
    requires there { place < length net.now.cells }
    requires budget { effort.clauses ≤ 8000000 }
    ensures one { IfOk result (IfOne net.now place) }
    ensures zero { IfOk result (IfZero net.now place) }
{
    bits();
    net.keeps_its_order();
    if place == 0 {
        return Ok(SearchResult::Nowhere);
    }
    let Some(part) = window_of(alloc, net, place, effort.gates)? else {
        return Ok(SearchResult::GivenUp);
    };
    if part.leaves.len() > INPUTS {
        return Ok(SearchResult::GivenUp);
    }
    let zero = zero(alloc, part.leaves.len() as u32)?;
    match by_solver(alloc, &part.net, &zero, effort.clauses, effort.learned)? {
        SearchResult::Nowhere => Ok(SearchResult::Nowhere),
        SearchResult::GivenUp => Ok(SearchResult::GivenUp),
        SearchResult::At(bits) => {
            let x = vector_of(alloc, net, &part.leaves, &bits)?;
            tried(alloc, net, place, x)
        }
    }
}
