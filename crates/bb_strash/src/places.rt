//! The unique table of gates, as an index that is not trusted: the cell at the place that it gives is compared before
//! use. So no invariant of the index is needed, and a stale entry only duplicates a gate.

ghost use Rattle.std.specs.Prelude.{◌≡◌, ◌+◌, ◌<◌, ◌^◌, [], ℕ, true, length, IfOk, IfSome, OnOk};
ghost use Rattle.bb_net.specs.Netlists.{ReadsBefore, cell_at};
ghost use Rattle.bb_strash.specs.Inside.Extensions.{Extends};

use crate::key::{Index, Key};
use bb_bits::NoMemory;
use bb_net::{Cell, Net};

fn same_cells()
    ensures { (a b : Cell) → ⟦<Cell as PartialEq>⟧.eq a b ≡ true → a ≡ b }
{}

fn is_at(net: &Net, place: u32, cell: Cell) -> bool
    ensures { result ≡ true → (place < length net.now.cells) × (cell_at net.now.cells place ≡ cell) }
{
    same_cells();
    match net.cells().get(place as usize) {
        Some(here) => *here == cell,
        None => false,
    }
}

// The comparison is what makes the index a hint.
fn known_place(net: &Net, index: &Index, key: Key, cell: Cell) -> Option<u32>
    ensures { IfSome result (λ place. (place < length net.now.cells) × (cell_at net.now.cells place ≡ cell)) }
{
    let place = *index.get(&key)?;
    if is_at(net, place, cell) {
        Some(place)
    } else {
        None
    }
}

/// Appends the gate where the index has no place for it.
pub(crate) fn place_of_gate(net: &mut Net, index: &mut Index, cell: Cell) -> Result<u32, NoMemory>
    requires none { net.old.boxes ≡ [] }
    requires reads { ReadsBefore net.old.inputs [] (length net.old.cells) cell }
    requires gate { (b p : ℕ) → cell ≡ Cell.BoxOut b p → ⊥ }
    requires room { length net.old.cells + 1 < 2 ^ 32 }
    ensures extends { OnOk result (Extends net.old net.new 1) }
    ensures occurs { IfOk result (λ place. (place < length net.new.cells) × (cell_at net.new.cells place ≡ cell)) }
{
    net.keeps_its_order();
    let key = Key::of(cell);
    if let Some(place) = known_place(net, index, key, cell) {
        return Ok(place);
    }
    let place = net.push(cell)?;
    net.keeps_its_order();
    index.insert(key, place)?;
    Ok(place)
}
