//! The work-list step of levelization: a cell or box is looked at again when the operand for which it waited has got
//! its place.
//!
//! Each waits for one operand without a place and then for the next, so no counts of open operands are kept, as the
//! usual form of Kahn's algorithm does (Knuth, TAOCP 1, 2.2.3, Algorithm T).

ghost use Rattle.std.specs.Prelude.{◌≡◌, ◌+◌, ◌<◌, ◌≤◌, ◌∷◌, [], ℕ, List, All, Contains, length, slice_index};
ghost use Rattle.std.specs.Prelude.{slice_index_or, drop, OnOk};
ghost use Rattle.bb_net.specs.Inside.Placings.{IsPlaced, IsOpen, IsPlacing, IsLookedAt, work};
ghost use Rattle.bb_net.specs.declared.ordering.placing.Waiter.{Waiter};
ghost use Rattle.bb_net.specs.declared.ordering.placing.Waiter.TheVariants as waiter;

use crate::Loose;
use crate::ordering::placing::{Moved, Placing, Waiter, put, put_at, resolve, wait, wake};
use bb_bits::NoMemory;
use std::cmp::Reverse;

// The constants and the inputs have places from the start and are skipped.
fn look_at_cell(loose: &Loose, s: &mut Placing, k: u32) -> Result<(), NoMemory>
    requires placing { (woken : List Waiter) × IsPlacing loose.now s.old (waiter.Cell k ∷ woken) [] }
    ensures ok { OnOk result (IsLookedAt loose.now s.old s.new (waiter.Cell k)) }
{
    if s.to[k as usize].is_some() {
        return Ok(());
    }
    match resolve(loose.cell(k), &s.to) {
        Ok(Moved::New(cell)) => put(&mut s.net, &mut s.to, &mut s.fresh, k, cell),
        Ok(Moved::Same(place)) => put_at(&mut s.to, &mut s.fresh, k, place),
        Ok(Moved::WithBox) => Ok(()),
        Err(a) => wait(&mut s.waiting, a, Waiter::Cell(k)),
    }
}

// The scan resumes at `from`, as earlier pins have places: each pin is passed once, however often the box waits.
fn first_open(ins: &[u32], to: &[Option<u32>], from: usize) -> usize
    requires there { All (λ pin. pin < length to.now) ins.now }
    requires from { from ≤ length ins.now }
    requires before { (p : ℕ) → p < from → IsPlaced to.now (slice_index ins.now p) }
    ensures within { result ≤ length ins.now }
    ensures before { (p : ℕ) → p < result → IsPlaced to.now (slice_index ins.now p) }
    ensures open { result < length ins.now → IsOpen to.now (slice_index ins.now result) }
{
    for pin in from..ins.len() {
        if to[ins[pin] as usize].is_none() {
            return pin;
        }
    }
    ins.len()
}

// A ready box is only queued: of all that are ready the first of the list is numbered first.
fn look_at_box(loose: &Loose, s: &mut Placing, b: u32, from: usize) -> Result<(), NoMemory>
    requires placing { (woken : List Waiter) × IsPlacing loose.now s.old (waiter.Box b from ∷ woken) [] }
    ensures ok { OnOk result (IsLookedAt loose.now s.old s.new (waiter.Box b from)) }
{
    let ins = loose.pins(b).ins();
    let pin = first_open(ins, &s.to, from);
    if pin < ins.len() {
        return wait(&mut s.waiting, ins[pin], Waiter::Box(b, pin));
    }
    s.ready.push(Reverse(b))?;
    Ok(())
}

fn look_at(loose: &Loose, s: &mut Placing, waiter: Waiter) -> Result<(), NoMemory>
    requires placing { (woken : List Waiter) × IsPlacing loose.now s.old (waiter ∷ woken) [] }
    ensures ok { OnOk result (IsLookedAt loose.now s.old s.new waiter) }
{
    match waiter {
        Waiter::Cell(k) => look_at_cell(loose, s, k),
        Waiter::Box(b, pin) => look_at_box(loose, s, b, pin),
    }
}

pub(crate) fn look_at_all(loose: &Loose, s: &mut Placing, woken: &[Waiter]) -> Result<(), NoMemory>
    requires placing { IsPlacing loose.now s.old woken.now [] }
    ensures placing { OnOk result (IsPlacing loose.now s.new [] []) }
    ensures less { OnOk result (work s.new ≤ work s.old) }
    ensures numbers { OnOk result (s.new.numbers.items ≡ s.old.numbers.items) }
{
    for waiter in woken {
        look_at(loose, s, *waiter)?;
    }
    Ok(())
}

// A stack suffices: the order of the cells is free, only that of the boxes is fixed.
pub(crate) fn settle(loose: &Loose, s: &mut Placing) -> Result<(), NoMemory>
    requires placing { IsPlacing loose.now s.old [] [] }
    ensures placing { OnOk result (IsPlacing loose.now s.new [] []) }
    ensures settled { OnOk result (s.new.fresh.items ≡ []) }
    ensures numbers { OnOk result (s.new.numbers.items ≡ s.old.numbers.items) }
{
    while let Some(a) = s.fresh.pop() {
        let woken = wake(&mut s.waiting, a, loose.allocator());
        look_at_all(loose, s, &woken)?;
    }
    Ok(())
}
