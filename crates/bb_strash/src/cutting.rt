//! Windows: the cone of a cell, cut at leaves. A window treats its leaves as free inputs, so it has every behaviour of
//! the cone and perhaps more: what holds in the window holds in the netlist. The cut is a guess of `parts`; numbers are
//! tested here, so nothing is proved of the guess.

ghost use Rattle.std.specs.Prelude.{List, ◌≡◌, ◌+◌, ◌*◌, ◌<◌, ◌≤◌, ◌^◌, ◌++◌, ◌∷◌, [], ℕ, length, IfOk, IfSome, OnOk};
ghost use Rattle.std.specs.List.{range_with_len};
ghost use Rattle.bb_net.specs.Netlists.{cell_at, first_cells};
ghost use Rattle.bb_strash.specs.Inside.Extensions.{Extends};
ghost use Rattle.bb_strash.specs.Inside.Parts.{AreCut, IsMoved, IsMovedGate};
ghost use Rattle.bb_strash.specs.Inside.Windows.{IsWindow};

use crate::bit_laws::bits;
use crate::hashed::Hashed;
use crate::parts::{Part, part_of};
use bb_bits::NoMemory;
use bb_net::{Cell, Net};
use indexmap::IndexMap;
use std::alloc::Global;

/// `leaves[i]` is the cell of the whole netlist at input `i` of the window.
#[derive(Debug, Drop)]
pub struct Window {
    pub net: Net,
    pub leaves: Vec<u32>,
}

// At most five cells are added for each, so places of the window stay within 32 bits.
const MOST: usize = 1 << 27;

// In the order of the window: constants, leaves, then gates after those that they read.
fn known_cells(alloc: Global, part: &Part) -> Result<Vec<u32>, NoMemory>
    ensures { IfOk result (λ known. (more : List ℕ) × (known.items ≡ 0 ∷ 1 ∷ part.now.leaves.items ++ more)) }
{
    let mut known = Vec::with_capacity(alloc, part.gates.len())?;
    known.push(0)?;
    known.push(1)?;
    known.extend_from_slice(&part.leaves)?;
    push_gates(&mut known, &part.gates)?;
    Ok(known)
}

// The list has the last gate first; reversed, operands come before their readers.
fn push_gates(known: &mut Vec<u32>, gates: &[u32]) -> Result<(), NoMemory>
    ensures { OnOk result ((more : List ℕ) × (known.new.items ≡ known.old.items ++ more)) }
{
    for gate in gates.iter().rev() {
        known.push(*gate)?;
    }
    Ok(())
}

fn numbers(alloc: Global, known: &[u32]) -> Result<IndexMap<u32, usize>, NoMemory> {
    let mut numbers = IndexMap::with_capacity(alloc, known.len())?;
    for (number, place) in known.iter().enumerate() {
        numbers.insert(*place, number)?;
    }
    Ok(numbers)
}

// Constants are cells 0 and 1, and the leaves follow: a place equals its number there.
fn first_places(alloc: Global, count: u32) -> Result<Vec<u32>, NoMemory>
    ensures places { IfOk result (λ places. places.items ≡ range_with_len 0 count) }
{
    let mut places = Vec::with_capacity(alloc, count as usize)?;
    for k in 0..count {
        places.push(k)?;
    }
    Ok(places)
}

/// Look-up tables from cells to places in the window. Hints: `place_in` tests each.
#[derive(Clone, Copy)]
struct Known<'a> {
    cells: &'a [u32],
    numbers: &'a IndexMap<u32, usize>,
    places: &'a [u32],
}

// None for a cell that is not in the window yet.
fn place_in(known: Known, cell: u32) -> Option<u32>
    ensures { IfSome result (λ place. IsMoved known.entry.cells.now known.entry.places.now cell place) }
{
    let number = *known.numbers.get(&cell)?;
    if known.cells.get(number) == Some(&cell) {
        known.places.get(number).copied()
    } else {
        None
    }
}

// None where an operand is missing, and for inputs, which are leaves.
fn moved_gate(known: Known, gate: Cell) -> Option<Cell>
    ensures { IfSome result (λ new. IsMovedGate known.entry.cells.now known.entry.places.now gate new) }
{
    match gate {
        Cell::Const(bit) => Some(Cell::Const(bit)),
        Cell::Not(a) => Some(Cell::Not(place_in(known, a)?)),
        Cell::And(a, b) => Some(Cell::And(place_in(known, a)?, place_in(known, b)?)),
        Cell::Or(a, b) => Some(Cell::Or(place_in(known, a)?, place_in(known, b)?)),
        Cell::Xor(a, b) => Some(Cell::Xor(place_in(known, a)?, place_in(known, b)?)),
        Cell::Mux(c, t, e) => Some(Cell::Mux(
            place_in(known, c)?,
            place_in(known, t)?,
            place_in(known, e)?,
        )),
        Cell::Input(_) | Cell::BoxOut(_, _) => None,
    }
}

fn moved_at(known: Known, cells: &[Cell], place: u32) -> Option<Cell>
    ensures { IfSome result (λ new. (place < length cells.now)
        × IsMovedGate known.entry.cells.now known.entry.places.now (cell_at cells.now place) new) }
{
    moved_gate(known, *cells.get(place as usize)?)
}

// False where an operand is missing, that is, where the guess was no cut.
fn add_gates(
    hashed: &mut Hashed,
    net: &Net,
    cells: &[u32],
    numbers: &IndexMap<u32, usize>,
    leaves: &[u32],
    places: &mut Vec<u32>,
) -> Result<bool, NoMemory>
    requires none { net.now.boxes ≡ [] }
    requires begun { AreCut net.now leaves.now cells.now hashed.old places.old.items }
    requires few { length places.old.items ≤ length cells.now }
    requires plain { hashed.old.boxes ≡ [] }
    requires room { length hashed.old.cells + 5 * length cells.now < 2 ^ 32 }
    ensures cut { OnOk result (AreCut net.now leaves.now cells.now hashed.new places.new.items) }
    ensures extends { OnOk result (Extends hashed.old hashed.new (5 * length cells.now)) }
{
    bits();
    let _ = hashed.net();
    for k in places.len()..cells.len() {
        let known = Known {
            cells,
            numbers,
            places,
        };
        let Some(gate) = moved_at(known, net.cells(), cells[k]) else {
            return Ok(false);
        };
        let place = hashed.add(gate)?;
        places.push(place)?;
    }
    Ok(true)
}

#[derive(Debug, Drop)]
struct Begun {
    hashed: Hashed,
    places: Vec<u32>,
}

fn begin(alloc: Global, net: &Net, cells: &[u32], leaves: &[u32]) -> Result<Begun, NoMemory>
    requires none { net.now.boxes ≡ [] }
    requires few { length leaves.now ≤ 2 ^ 27 }
    requires known { (more : List ℕ) × (cells.now ≡ 0 ∷ 1 ∷ leaves.now ++ more) }
    ensures cut { IfOk result (λ b. AreCut net.now leaves.now cells.now b.hashed b.places.items) }
    ensures few { IfOk result (λ b. length b.places.items ≤ length cells.now) }
    ensures start { IfOk result (λ b. b.hashed
        ≡ record { inputs = length leaves.now; cells = first_cells (length leaves.now); boxes = []; outs = [] }) }
{
    bits();
    net.keeps_its_order();
    let count = leaves.len() as u32;
    let hashed = Hashed::start(alloc, count)?;
    let _ = hashed.net();
    let places = first_places(alloc, count + 2)?;
    Ok(Begun { hashed, places })
}

fn with_output(alloc: Global, hashed: Hashed, root: u32) -> Result<Net, NoMemory>
    requires there { root < length hashed.cells }
    requires none { hashed.outs ≡ [] }
    ensures net { IfOk result (λ net. net ≡ record hashed { outs = root ∷ [] }) }
{
    let mut outs = Vec::new(alloc);
    outs.push(root)?;
    hashed.finish(outs)
}

// None where the leaves are no cut of the cone.
fn cut(
    alloc: Global,
    net: &Net,
    place: u32,
    cells: &[u32],
    leaves: &[u32],
) -> Result<Option<Net>, NoMemory>
    requires none { net.now.boxes ≡ [] }
    requires few { length cells.now ≤ 2 ^ 27 }
    requires known { (more : List ℕ) × (cells.now ≡ 0 ∷ 1 ∷ leaves.now ++ more) }
    ensures { IfOk result (λ found. IfSome found (λ part. IsWindow net.now place part leaves.now)) }
{
    bits();
    net.keeps_its_order();
    let numbers = numbers(alloc, cells)?;
    let Begun {
        mut hashed,
        mut places,
    } = begin(alloc, net, cells, leaves)?;
    if !add_gates(&mut hashed, net, cells, &numbers, leaves, &mut places)? {
        return Ok(None);
    }
    let known = Known {
        cells,
        numbers: &numbers,
        places: &places,
    };
    let Some(root) = place_in(known, place) else {
        return Ok(None);
    };
    let part = with_output(alloc, hashed, root)?;
    Ok(Some(part))
}

/// At most `most` gates, the last ones of the cone; with all of them the leaves are inputs and the window is the cone.
/// None beyond 2^27 leaves or gates.
pub fn window_of(
    alloc: Global,
    net: &Net,
    place: u32,
    most: usize,
) -> Result<Option<Window>, NoMemory>
    requires none { net.now.boxes ≡ [] }
    ensures { IfOk result (λ found. IfSome found (λ w. IsWindow net.now place w.net w.leaves.items)) }
{
    let part = part_of(alloc, net, place, most)?;
    let cells = known_cells(alloc, &part)?;
    if cells.len() > MOST {
        return Ok(None);
    }
    match cut(alloc, net, place, &cells, &part.leaves)? {
        Some(net) => Ok(Some(Window {
            net,
            leaves: part.leaves,
        })),
        None => Ok(None),
    }
}
