//! Fills the boxes of a netlist with tables, so that the result has no boxes: simulation, BDDs and SAT run on it as on
//! a specification.
//!
//! Each output pin becomes a multiplexer tree over its column of the table. A cell that is no output pin stays one
//! cell, and nothing else is added: checks by BDD count the nodes of all cells, so a cell too many could change their
//! result.

ghost use Rattle.std.specs.Prelude.{◌≡◌, ◌+◌, ◌^◌, ◌<◌, ◌≤◌, ◌⊎◌, ℕ, [], ◌++◌, ◌∷◌, All, length, map, slice_index};
ghost use Rattle.std.specs.Prelude.{sum_by, take, IfOk, OnOk};
ghost use Rattle.std.specs.List.{range_with_len};
ghost use Rattle.bb_net.specs.Completions.{table_bits};
ghost use Rattle.bb_net.specs.Kinds.{per_box};
ghost use Rattle.bb_net.specs.Netlists.{Netlist, ReadsBefore, IsPinAt, box_at, cell_at};
ghost use Rattle.bb_net.specs.Values.{FitBoxes, table_at};
ghost use Rattle.bb_subst.specs.Embeddings.{OccursAt};
ghost use Rattle.bb_bits.specs.Tables.{column};
ghost use Rattle.bb_subst.specs.Filled.{IsFilled};
ghost use Rattle.bb_subst.specs.Inside.Filling.{CostsAreFew, GrowsBy, HasConstants, IsFilledUpTo, cost};
ghost use Rattle.bb_subst.specs.Trees.{IsTree, IsInTree};

use crate::moving::{moved, place_of};
use crate::trees::{add_tree, column};
use bb_bits::{NoMemory, Table};
use bb_net::{BoxPins, Cell, Net, tables_are_spread};
use std::alloc::Global;

fn places_of(alloc: Global, places: &[u32], old: &[u32]) -> Result<Vec<u32>, NoMemory>
    ensures places { IfOk result (λ new. new.items ≡ map (slice_index places.now) old.now) }
{
    let mut new = Vec::with_capacity(alloc, old.len())?;
    for k in old {
        new.push(place_of(places, *k))?;
    }
    Ok(new)
}

fn add_pin(
    alloc: Global,
    net: &mut Net,
    table: &Table,
    ins: &[u32],
    places: &[u32],
    pin: u32,
) -> Result<u32, NoMemory>
    requires inputs { table.now.inputs ≡ length ins.now }
    requires pin { pin < table.now.outputs }
    requires there { All (λ k. slice_index places.now k < length net.old.cells) ins.now }
    requires constants { HasConstants net.old.cells }
    requires room { length net.old.cells + 2 ^ length ins.now < 2 ^ 32 }
    ensures grows { OnOk result (GrowsBy net.old net.new (2 ^ length ins.now)) }
    ensures tree { IfOk result (IsTree net.new.cells (map (slice_index places.now) ins.now) (column table.now pin)) }
    ensures only { IfOk result (λ root. (place : ℕ) → length net.old.cells ≤ place → place < length net.new.cells
        → IsInTree net.new.cells (map (slice_index places.now) ins.now) root place) }
{
    let column = column(alloc, table, pin)?;
    let pins = places_of(alloc, places, ins)?;
    add_tree(net, &column, &pins)
}

fn add_cell(
    alloc: Global,
    net: &mut Net,
    boxes: &[BoxPins],
    tables: &[Table],
    kinds: &[u32],
    places: &[u32],
    cell: Cell,
) -> Result<u32, NoMemory>
    requires tables { FitBoxes (per_box kinds.now tables.now) boxes.now }
    requires reads { ReadsBefore net.old.inputs boxes.now (length places.now) cell }
    requires pin { (b p : ℕ) → cell ≡ Cell.BoxOut b p
        → (b < length boxes.now) × (p < length (box_at boxes.now b).outs) }
    requires there { All (λ k. k < length net.old.cells) places.now }
    requires constants { HasConstants net.old.cells }
    requires no_box { net.old.boxes ≡ [] }
    requires room { length net.old.cells + cost boxes.now cell < 2 ^ 32 }
    ensures grows { OnOk result (GrowsBy net.old net.new (cost boxes.now cell)) }
    ensures there { IfOk result (λ place. place < length net.new.cells) }
    ensures occurs { IfOk result (OccursAt net.new.cells (slice_index places.now) cell) }
    ensures tree { IfOk result (λ place. (b p : ℕ) → cell ≡ Cell.BoxOut b p
        → IsTree net.new.cells (map (slice_index places.now) (box_at boxes.now b).ins)
        (column (table_at (per_box kinds.now tables.now) b) p) place) }
    ensures only { IfOk result (λ root. (place : ℕ) → length net.old.cells ≤ place → place < length net.new.cells
        → (place ≡ root)
        ⊎ ((b p : ℕ) × (cell ≡ Cell.BoxOut b p)
        × IsInTree net.new.cells (map (slice_index places.now) (box_at boxes.now b).ins) root place)) }
{
    match cell {
        Cell::BoxOut(b, p) => {
            tables_are_spread();
            let ins = boxes[b as usize].ins();
            let kind = kinds[b as usize];
            add_pin(alloc, net, &tables[kind as usize], ins, places, p)
        }
        gate => net.push(moved(places, gate)),
    }
}

// They keep their places, as both netlists begin with them.
fn first_places(alloc: Global, count: u32) -> Result<Vec<u32>, NoMemory>
    ensures places { IfOk result (λ places. places.items ≡ range_with_len 0 count) }
{
    let mut places = Vec::with_capacity(alloc, count as usize)?;
    for k in 0..count {
        places.push(k)?;
    }
    Ok(places)
}

fn add_cells(
    alloc: Global,
    new: &mut Net,
    old: &Net,
    tables: &[Table],
    kinds: &[u32],
    places: &mut Vec<u32>,
) -> Result<(), NoMemory>
    requires tables { FitBoxes (per_box kinds.now tables.now) old.now.boxes }
    requires room { sum_by (cost old.now.boxes) old.now.cells < 2 ^ 32 }
    requires begun { IsFilledUpTo old.now (per_box kinds.now tables.now) (old.now.inputs + 2) new.old places.old.items }
    ensures filled { OnOk result (IsFilledUpTo old.now (per_box kinds.now tables.now) (length old.now.cells) new.new
        places.new.items) }
{
    for k in old.inputs() as usize + 2..old.cells().len() {
        let cell = old.cells()[k];
        let place = add_cell(alloc, new, old.boxes(), tables, kinds, places, cell)?;
        places.push(place)?;
    }
    Ok(())
}

fn add_outs(new: &mut Net, outs: &[u32], places: &[u32]) -> Result<(), NoMemory>
    requires there { All (λ k. slice_index places.now k < length new.old.cells) outs.now }
    ensures outs { OnOk result (new.new
        ≡ record new.old { outs = new.old.outs ++ map (slice_index places.now) outs.now }) }
{
    for out in outs {
        new.add_out(place_of(places, *out))?;
    }
    Ok(())
}

// The trees take no more cells than the tables have bits, so that places stay below 2^32.
fn costs_are_few()
    ensures { CostsAreFew }
{}

/// `tables` has one for each sharing class, and `kinds` the class of each box. The netlist is copied and not changed in
/// place: the search for tables fills it again and again.
pub fn substitute(
    alloc: Global,
    net: &Net,
    tables: &[Table],
    kinds: &[u32],
) -> Result<Net, NoMemory>
    requires tables { FitBoxes (per_box kinds.now tables.now) net.now.boxes }
    requires room { length net.now.cells + table_bits net.now.boxes < 2 ^ 32 }
    ensures filled { IfOk result (λ filled. (at : ℕ → ℕ) × IsFilled net.now (per_box kinds.now tables.now) filled at) }
{
    costs_are_few();
    let mut filled = Net::start(alloc, net.inputs())?;
    let mut places = first_places(alloc, net.inputs() + 2)?;
    add_cells(alloc, &mut filled, net, tables, kinds, &mut places)?;
    add_outs(&mut filled, net.outs(), &places)?;
    Ok(filled)
}
