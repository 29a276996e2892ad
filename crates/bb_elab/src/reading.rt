//! Which bits of nets are read, found on the list of cells: a place is read where a cell that is no buffer reads it, as
//! an input pin of a box, an output or a clock; and where a buffer is read, so is the place that it buffers.
//!
//! Buffers are followed from each such place up to one that is marked already, so each is followed once and all marks
//! take linear time.

ghost use Rattle.std.specs.Prelude.{◌≡◌, ◌⊎◌, ◌+◌, ◌<◌, ◌≤◌, ◌^◌, ◌++◌, Some, slice_get, true, false, ℕ, List, Bool};
ghost use Rattle.std.specs.Prelude.{All, Contains, length, map, take, drop, slice_index_or, IfOk, OnOk};
ghost use Rattle.std.specs.List.{flat_map};
ghost use Rattle.bb_net.specs.Loose.{IsLoose};
ghost use Rattle.bb_design.specs.Hierarchy.{Design};
ghost use Rattle.bb_design.specs.Inside.Allowed.{IsBounded};
ghost use Rattle.bb_design.specs.NetBits.{Bit, net_order};
ghost use Rattle.bb_blast.specs.Inside.Placements.{AreStored};
ghost use Rattle.bb_implements.specs.Places.{Lowering, IsLowering, IsListOf};
ghost use Rattle.bb_design.specs.Reading.{IsReadBit};
ghost use Rattle.bb_implements.specs.Inside.ReadPlaces.{read_by, read_places, copy_steps, FollowsAt, IsReadPlace};
ghost use Rattle.bb_implements.specs.Inside.ReadPlaces.{AreClosed};
ghost use Rattle.bb_elab.specs.Inside.StoredNumbers.{AreTimed};
ghost use Rattle.bb_design.specs.Refusals.{AreDrivenOnce};
ghost use Rattle.bb_design.specs.Registers.{cut_bits};

use bb_bits::NoMemory;
use bb_blast::Stored;
use bb_design::laws::laws_of_designs;
use bb_implements::list_laws::laws_of_cells;
use bb_net::{BoxPins, Loose, LooseCell};
use std::alloc::Global;

// A cell that is no buffer counts as its own source, at which `follow` then stops: it is marked.
fn copied(cells: &[LooseCell], place: usize) -> usize
    requires there { place < length cells.now }
    ensures copied { (result ≡ place) ⊎ Contains (copy_steps cells.now) (place, result) }
    ensures only { (k : ℕ) → Contains (copy_steps cells.now) (place, k) → k ≡ result }
{
    laws_of_cells();
    match cells[place] {
        LooseCell::Copy(of) => of as usize,
        _ => place,
    }
}

// It ends since each step marks a place that was not marked.
fn follow(cells: &[LooseCell], marks: &mut [bool], start: usize)
    requires long { length marks.old ≡ length cells.now }
    requires closed { AreClosed cells.now marks.old }
    ensures long { length marks.new ≡ length cells.now }
    ensures closed { AreClosed cells.now marks.new }
    ensures kept { (k : ℕ) → slice_index_or marks.old k false ≡ true → slice_index_or marks.new k false ≡ true }
    ensures start { start < length cells.now → slice_index_or marks.new start false ≡ true }
    ensures only { (k : ℕ) → slice_index_or marks.new k false ≡ true
        → (slice_index_or marks.old k false ≡ true) ⊎ FollowsAt cells.now start k }
{
    let mut place = start;
    while place < marks.len() && !marks[place] {
        marks[place] = true;
        place = copied(cells, place);
    }
}

fn follow_all(cells: &[LooseCell], marks: &mut [bool], starts: &[u32])
    requires long { length marks.old ≡ length cells.now }
    requires closed { AreClosed cells.now marks.old }
    ensures long { length marks.new ≡ length cells.now }
    ensures closed { AreClosed cells.now marks.new }
    ensures started { (s : ℕ) → Contains starts.now s → s < length cells.now → slice_index_or marks.new s false ≡ true }
    ensures kept { (k : ℕ) → slice_index_or marks.old k false ≡ true → slice_index_or marks.new k false ≡ true }
    ensures only { (k : ℕ) → slice_index_or marks.new k false ≡ true
        → (slice_index_or marks.old k false ≡ true) ⊎ ((s : ℕ) × Contains starts.now s × FollowsAt cells.now s k) }
{
    for start in starts {
        follow(cells, marks, *start as usize);
    }
}

fn add_read(cell: LooseCell, places: &mut Vec<u32>) -> Result<(), NoMemory>
    ensures ok { OnOk result (places.new.items ≡ places.old.items ++ read_by cell) }
{
    match cell {
        LooseCell::Not(a) => places.push(a)?,
        LooseCell::And(a, b) | LooseCell::Or(a, b) | LooseCell::Xor(a, b) => {
            places.push(a)?;
            places.push(b)?;
        }
        LooseCell::Mux(c, t, e) => {
            places.push(c)?;
            places.push(t)?;
            places.push(e)?;
        }
        LooseCell::Const(_) | LooseCell::Input(_) | LooseCell::BoxOut(_, _) | LooseCell::Copy(_) =>
            {}
    }
    Ok(())
}

fn add_reads(cells: &[LooseCell], places: &mut Vec<u32>) -> Result<(), NoMemory>
    ensures ok { OnOk result (places.new.items ≡ places.old.items ++ flat_map read_by cells.now) }
{
    for cell in cells {
        add_read(*cell, places)?;
    }
    Ok(())
}

fn add_pins(boxes: &[BoxPins], places: &mut Vec<u32>) -> Result<(), NoMemory>
    ensures ok { OnOk result (places.new.items ≡ places.old.items ++ flat_map (λ b. b.ins) boxes.now) }
{
    for pins in boxes {
        places.extend_from_slice(pins.ins())?;
    }
    Ok(())
}

// A clock is read although no cell reads it; `first` is the place of the first bit of a net.
fn add_clocks(stored: &[Stored], first: u32, places: &mut Vec<u32>) -> Result<(), NoMemory>
    requires fits { All (λ x. first + x.clock < 2 ^ 32) stored.now }
    ensures ok { OnOk result (places.new.items ≡ places.old.items ++ map (λ x. first + x.clock) stored.now) }
{
    for register in stored {
        places.push(first + register.clock)?;
    }
    Ok(())
}

// Those of which no chain of buffers has been followed yet.
fn places_read(
    alloc: Global,
    list: &Loose,
    stored: &[Stored],
    first: u32,
) -> Result<Vec<u32>, NoMemory>
    requires fits { All (λ x. first + x.clock < 2 ^ 32) stored.now }
    ensures places { IfOk result (λ places.
        places.items ≡ read_places list.now (map (λ x. first + x.clock) stored.now)) }
{
    let mut places = Vec::new(alloc);
    add_reads(list.cells(), &mut places)?;
    add_pins(list.boxes(), &mut places)?;
    places.extend_from_slice(list.output_places())?;
    add_clocks(stored, first, &mut places)?;
    Ok(places)
}

fn read_marks(
    alloc: Global,
    list: &Loose,
    stored: &[Stored],
    first: u32,
) -> Result<Vec<bool>, NoMemory>
    requires fits { All (λ x. first + x.clock < 2 ^ 32) stored.now }
    ensures long { IfOk result (λ marks. length marks.items ≡ length list.now.cells) }
    ensures read { IsLoose list.now → All (λ x. first + x.clock < length list.now.cells) stored.now
        → IfOk result (λ marks. (k : ℕ) → IsReadPlace list.now (map (λ x. first + x.clock) stored.now) k
        → slice_index_or marks.items k false ≡ true) }
    ensures only { IfOk result (λ marks. (k : ℕ) → slice_index_or marks.items k false ≡ true
        → IsReadPlace list.now (map (λ x. first + x.clock) stored.now) k) }
{
    laws_of_cells();
    let cells = list.cells();
    let places = places_read(alloc, list, stored, first)?;
    let mut marks = vec![in alloc; false; cells.len()]?;
    follow_all(cells, &mut marks, &places);
    Ok(marks)
}

fn part_of(alloc: Global, marks: &[bool], first: usize, count: usize) -> Result<Vec<bool>, NoMemory>
    requires there { first + count ≤ length marks.now }
    ensures part { IfOk result (λ part. part.items ≡ take count (drop first marks.now)) }
    ensures long { IfOk result (λ part. length part.items ≡ count) }
{
    let mut part = Vec::with_capacity(alloc, count)?;
    part.extend_from_slice(&marks[first..first + count])?;
    Ok(part)
}

/// In net order. The bits are the `count` places of the list from `first` on.
pub(crate) fn read_bits(
    alloc: Global,
    list: &Loose,
    stored: &[Stored],
    first: u32,
    count: u32,
) -> Result<Vec<bool>, NoMemory>
    requires fits { All (λ x. first + x.clock < 2 ^ 32) stored.now }
    requires there { first + count ≤ length list.now.cells }
    ensures long { IfOk result (λ reads. length reads.items ≡ count) }
    // What is found to be read is read.
    ensures only { IfOk result (λ reads. (d : Design) (lowering : Lowering) → IsBounded d → IsLowering d lowering
        → IsListOf d lowering list.now → AreStored d stored.now → first ≡ 2 + length (cut_bits d)
        → (k : ℕ) (b : Bit) → slice_get (net_order d) k ≡ Some b → slice_index_or reads.items k false ≡ true
        → IsReadBit d b) }
    // What is read is found to be read, where the clocks of all registers are among those of the stored bits.
    ensures read { IsLoose list.now → All (λ x. first + x.clock < length list.now.cells) stored.now
        → IfOk result (λ reads. (d : Design) (lowering : Lowering) → IsBounded d → AreDrivenOnce d
        → IsLowering d lowering → IsListOf d lowering list.now → first ≡ 2 + length (cut_bits d)
        → AreTimed d (map (λ x. x.clock) stored.now) → (k : ℕ) (b : Bit) → slice_get (net_order d) k ≡ Some b
        → k < count → IsReadBit d b → slice_index_or reads.items k false ≡ true) }
{
    laws_of_designs();
    laws_of_cells();
    let marks = read_marks(alloc, list, stored, first)?;
    let reads = part_of(alloc, &marks, first as usize, count as usize)?;
    Ok(reads)
}
