//! Boxes are numbered as they become ready, of all ready ones the first of the list first.
//!
//! Cells may come in any topological order, but the order of the boxes is a function of the list: so what reports say
//! of boxes does not depend on how cells are levelized. A heap finds the first ready box.

ghost use Rattle.std.specs.Prelude.{◌≡◌, ◌+◌, ◌<◌, ◌≤◌, ◌⊎◌, ◌++◌, ◌∷◌, [], ℕ, true, false, List, All, AllPairs};
ghost use Rattle.std.specs.Prelude.{Contains, length, map, drop, slice_index, IfOk, IfSome, IfNone, OnOk};
ghost use Rattle.std.specs.BinaryHeap.{heap_items};
ghost use Rattle.bb_net.specs.Values.{bit_of};
ghost use Rattle.bb_net.specs.Netlists.{box_at};
ghost use Rattle.bb_net.specs.Inside.Placings.{IsOpen, given_place, boxes_of, IsLeastFirst, IsPlacing, IsComing};

use crate::ordering::advancing::settle;
use crate::ordering::placing::{Placing, put};
use crate::{Cell, Loose};
use bb_bits::NoMemory;
use std::alloc::Global;
use std::cmp::Reverse;
use std::collections::BinaryHeap;

// Numbered boxes are removed lazily, when they reach the top of the heap.
fn next_ready(ready: &mut BinaryHeap<Reverse<u32>>, numbered: &[bool]) -> Option<u32>
    requires order { IsLeastFirst (heap_items ready.old) }
    requires there { All (λ b. b < length numbered.now) (boxes_of (heap_items ready.old)) }
    ensures order { IsLeastFirst (heap_items ready.new) }
    ensures kept { (b : ℕ) → Contains (boxes_of (heap_items ready.new)) b
        → Contains (boxes_of (heap_items ready.old)) b }
    ensures dropped { (b : ℕ) → Contains (boxes_of (heap_items ready.old)) b
        → Contains (boxes_of (heap_items ready.new)) b ⊎ (bit_of numbered.now b ≡ true) }
    ensures some { IfSome result (λ b. (bit_of numbered.now b ≡ false)
        × Contains (boxes_of (heap_items ready.new)) b × All (λ c. b ≤ c) (boxes_of (heap_items ready.new))) }
    ensures none { IfNone result (heap_items ready.new ≡ []) }
{
    while let Some(Reverse(b)) = ready.peek() {
        let b = *b;
        if !numbered[b as usize] {
            return Some(b);
        }
        let _ = ready.pop();
    }
    None
}

pub(crate) fn moved_places(
    alloc: Global,
    places: &[u32],
    to: &[Option<u32>],
) -> Result<Vec<u32>, NoMemory>
    requires there { All (λ k. k < length to.now) places.now }
    ensures ok { IfOk result (λ moved. moved.items ≡ map (given_place to.now) places.now) }
{
    let mut moved = Vec::with_capacity(alloc, places.len())?;
    for k in places {
        moved.push(to[*k as usize].unwrap_or(0))?;
    }
    Ok(moved)
}

fn place_outputs(loose: &Loose, s: &mut Placing, b: u32, number: u32) -> Result<(), NoMemory>
    requires placing { IsPlacing loose.now s.old [] (box_at loose.now.boxes b).outs }
    requires coming { IsComing loose.now s.old.net s.old.to.items s.old.numbers.items b number 0 }
    ensures placing { OnOk result (IsPlacing loose.now s.new [] []) }
    ensures numbers { OnOk result (s.new.numbers.items ≡ s.old.numbers.items) }
{
    for (p, k) in loose.pins(b).outs().iter().enumerate() {
        put(
            &mut s.net,
            &mut s.to,
            &mut s.fresh,
            *k,
            Cell::BoxOut(number, p as u32),
        )?;
    }
    Ok(())
}

fn place_box(loose: &Loose, s: &mut Placing, b: u32) -> Result<(), NoMemory>
    requires placing { IsPlacing loose.now s.old [] [] }
    requires settled { s.old.fresh.items ≡ [] }
    requires new { bit_of s.old.numbered.items b ≡ false }
    requires ready { Contains (boxes_of (heap_items s.old.ready)) b }
    requires least { All (λ c. b ≤ c) (boxes_of (heap_items s.old.ready)) }
    ensures placing { OnOk result (IsPlacing loose.now s.new [] []) }
    ensures numbers { OnOk result (s.new.numbers.items ≡ s.old.numbers.items ++ b ∷ []) }
{
    let ins = moved_places(loose.allocator(), loose.pins(b).ins(), &s.to)?;
    let number = s.net.add_box(ins)?;
    s.numbers.push(b)?;
    s.numbered[b as usize] = true;
    place_outputs(loose, s, b, number)
}

// It ends since each round numbers a box.
pub(crate) fn place_boxes(loose: &Loose, s: &mut Placing) -> Result<(), NoMemory>
    requires placing { IsPlacing loose.now s.old [] [] }
    ensures placing { OnOk result (IsPlacing loose.now s.new [] []) }
    ensures settled { OnOk result (s.new.fresh.items ≡ []) }
    ensures none_ready { OnOk result (heap_items s.new.ready ≡ []) }
{
    settle(loose, s)?;
    while let Some(b) = next_ready(&mut s.ready, &s.numbered) {
        place_box(loose, s, b)?;
        settle(loose, s)?;
    }
    Ok(())
}
