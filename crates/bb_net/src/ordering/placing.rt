//! State and steps of levelization (Kahn's algorithm): cells of an unordered netlist get places in a netlist once their
//! operands have theirs.
//!
//! A buffer gets no cell of its own. Its readers read what it buffers, so a chain of assignments leaves no trace in the
//! netlist.

ghost use Rattle.std.specs.Prelude.{◌≡◌, ◌+◌, ◌<◌, ◌^◌, ◌⊎◌, ◌++◌, ◌∷◌, [], ℕ, List, Option, Some, All, Contains};
ghost use Rattle.std.specs.Prelude.{length, set, vec_len, IfOk, IfErr, OnOk};
ghost use Rattle.bb_net.specs.Netlists.{MayBeAppended, with_cell};
ghost use Rattle.bb_net.specs.Loose.{operand_places};
ghost use Rattle.bb_net.specs.Inside.Placings.{IsAt, IsOpen, IsResolved, waiters_at};

use crate::{Cell, LooseCell, Net};
use bb_bits::NoMemory;
use std::alloc::Global;
use std::cmp::Reverse;
use std::collections::BinaryHeap;
use std::marker::Model;
use std::mem;

/// A cell that reads the awaited one, or a box that reads it at this input pin. The earlier pins of the box have
/// places.
#[derive(Clone, Copy)]
pub(crate) enum Waiter {
    Cell(u32),
    Box(u32, usize),
}

#[derive(Drop)]
pub(crate) struct Waiters {
    waiters: Vec<Waiter>,
}

impl Model for Waiters {
    ghost use Rattle.std.specs.Prelude.{List};
    ghost use Rattle.bb_net.specs.declared.ordering.placing.Waiter.{Waiter};

    ghost Value = { List Waiter };

    ghost view = { λ w. w.waiters.items };
}

impl Waiters {
    pub(crate) fn none(alloc: Global) -> Waiters
        ensures none { result ≡ [] }
    {
        Waiters {
            waiters: Vec::new(alloc),
        }
    }

    fn add(&mut self, waiter: Waiter) -> Result<(), NoMemory>
        ensures ok { OnOk result (self.new ≡ self.old ++ waiter ∷ []) }
    {
        self.waiters.push(waiter)?;
        Ok(())
    }

    fn take(&mut self, alloc: Global) -> Vec<Waiter>
        ensures taken { result.items ≡ self.old }
        ensures left { self.new ≡ [] }
    {
        mem::replace(&mut self.waiters, Vec::new(alloc))
    }
}

/// The outcome for a cell whose operands have places: a cell of the netlist; for a buffer, the place of what it
/// buffers; for an output pin nothing yet, since it comes with its box.
#[derive(Clone, Copy)]
pub(crate) enum Moved {
    New(Cell),
    Same(u32),
    WithBox,
}

/// A partly levelized list. `to` has the places so far, `numbers` the number in the list of each box of the netlist,
/// `fresh` the cells whose waiters have yet to be woken, and `ready` the boxes whose input pins all have places, least
/// number first. Boxes that are numbered may still be in `ready`.
#[derive(Drop)]
pub(crate) struct Placing {
    pub(crate) net: Net,
    pub(crate) to: Vec<Option<u32>>,
    pub(crate) numbers: Vec<u32>,
    pub(crate) numbered: Vec<bool>,
    pub(crate) waiting: Vec<Waiters>,
    pub(crate) fresh: Vec<u32>,
    pub(crate) ready: BinaryHeap<Reverse<u32>>,
}

fn place(to: &[Option<u32>], a: u32) -> Result<u32, u32>
    requires there { a < length to.now }
    ensures ok { IfOk result (IsAt to.now a) }
    ensures err { IfErr result (λ m. (m ≡ a) × IsOpen to.now m) }
{
    to[a as usize].ok_or(a)
}

fn two_places(to: &[Option<u32>], a: u32, b: u32) -> Result<(u32, u32), u32>
    requires first { a < length to.now }
    requires second { b < length to.now }
    ensures first { IfOk result (λ p. IsAt to.now a p.0) }
    ensures second { IfOk result (λ p. IsAt to.now b p.1) }
    ensures err { IfErr result (λ m. ((m ≡ a) ⊎ (m ≡ b)) × IsOpen to.now m) }
{
    Ok((place(to, a)?, place(to, b)?))
}

// An error is an operand without a place, for which the cell has to wait.
pub(crate) fn resolve(cell: LooseCell, to: &[Option<u32>]) -> Result<Moved, u32>
    requires there { All (λ a. a < length to.now) (operand_places [] cell) }
    ensures ok { IfOk result (IsResolved to.now cell) }
    ensures err { IfErr result (λ a. IsOpen to.now a × Contains (operand_places [] cell) a) }
{
    match cell {
        LooseCell::Const(bit) => Ok(Moved::New(Cell::Const(bit))),
        LooseCell::Input(i) => Ok(Moved::New(Cell::Input(i))),
        LooseCell::Not(a) => moved_not(to, a),
        LooseCell::And(a, b) => moved_and(to, a, b),
        LooseCell::Or(a, b) => moved_or(to, a, b),
        LooseCell::Xor(a, b) => moved_xor(to, a, b),
        LooseCell::Mux(c, t, e) => moved_mux(to, c, t, e),
        LooseCell::BoxOut(_, _) => Ok(Moved::WithBox),
        LooseCell::Copy(p) => moved_copy(to, p),
    }
}

fn moved_not(to: &[Option<u32>], a: u32) -> Result<Moved, u32>
    requires there { a < length to.now }
    ensures ok { IfOk result (IsResolved to.now (LooseCell.Not a)) }
    ensures err { IfErr result (λ m. IsOpen to.now m × Contains (a ∷ []) m) }
{
    let a = place(to, a)?;
    Ok(Moved::New(Cell::Not(a)))
}

fn moved_and(to: &[Option<u32>], a: u32, b: u32) -> Result<Moved, u32>
    requires first { a < length to.now }
    requires second { b < length to.now }
    ensures ok { IfOk result (IsResolved to.now (LooseCell.And a b)) }
    ensures err { IfErr result (λ m. IsOpen to.now m × Contains (a ∷ b ∷ []) m) }
{
    let (a, b) = two_places(to, a, b)?;
    Ok(Moved::New(Cell::And(a, b)))
}

fn moved_or(to: &[Option<u32>], a: u32, b: u32) -> Result<Moved, u32>
    requires first { a < length to.now }
    requires second { b < length to.now }
    ensures ok { IfOk result (IsResolved to.now (LooseCell.Or a b)) }
    ensures err { IfErr result (λ m. IsOpen to.now m × Contains (a ∷ b ∷ []) m) }
{
    let (a, b) = two_places(to, a, b)?;
    Ok(Moved::New(Cell::Or(a, b)))
}

fn moved_xor(to: &[Option<u32>], a: u32, b: u32) -> Result<Moved, u32>
    requires first { a < length to.now }
    requires second { b < length to.now }
    ensures ok { IfOk result (IsResolved to.now (LooseCell.Xor a b)) }
    ensures err { IfErr result (λ m. IsOpen to.now m × Contains (a ∷ b ∷ []) m) }
{
    let (a, b) = two_places(to, a, b)?;
    Ok(Moved::New(Cell::Xor(a, b)))
}

fn moved_mux(to: &[Option<u32>], c: u32, t: u32, e: u32) -> Result<Moved, u32>
    requires first { c < length to.now }
    requires second { t < length to.now }
    requires third { e < length to.now }
    ensures ok { IfOk result (IsResolved to.now (LooseCell.Mux c t e)) }
    ensures err { IfErr result (λ m. IsOpen to.now m × Contains (c ∷ t ∷ e ∷ []) m) }
{
    let c = place(to, c)?;
    let (t, e) = two_places(to, t, e)?;
    Ok(Moved::New(Cell::Mux(c, t, e)))
}

fn moved_copy(to: &[Option<u32>], p: u32) -> Result<Moved, u32>
    requires there { p < length to.now }
    ensures ok { IfOk result (IsResolved to.now (LooseCell.Copy p)) }
    ensures err { IfErr result (λ m. IsOpen to.now m × Contains (p ∷ []) m) }
{
    let p = place(to, p)?;
    Ok(Moved::Same(p))
}

pub(crate) fn put(
    net: &mut Net,
    to: &mut Vec<Option<u32>>,
    fresh: &mut Vec<u32>,
    k: u32,
    cell: Cell,
) -> Result<(), NoMemory>
    requires room { length net.old.cells + 1 < 2 ^ 32 }
    requires follows { MayBeAppended net.old cell }
    requires there { k < vec_len to.old }
    ensures net { OnOk result (net.new ≡ with_cell net.old cell) }
    ensures to { OnOk result (to.new.items ≡ set to.old.items k (Some (length net.old.cells))) }
    ensures fresh { OnOk result (fresh.new.items ≡ fresh.old.items ++ k ∷ []) }
{
    let place = net.push(cell)?;
    put_at(to, fresh, k, place)
}

pub(crate) fn put_at(
    to: &mut Vec<Option<u32>>,
    fresh: &mut Vec<u32>,
    k: u32,
    place: u32,
) -> Result<(), NoMemory>
    requires there { k < vec_len to.old }
    ensures to { OnOk result (to.new.items ≡ set to.old.items k (Some place)) }
    ensures fresh { OnOk result (fresh.new.items ≡ fresh.old.items ++ k ∷ []) }
{
    to[k as usize] = Some(place);
    fresh.push(k)?;
    Ok(())
}

pub(crate) fn wait(waiting: &mut Vec<Waiters>, a: u32, waiter: Waiter) -> Result<(), NoMemory>
    requires there { a < vec_len waiting.old }
    ensures ok { OnOk result (waiting.new.items
        ≡ set waiting.old.items a (waiters_at waiting.old.items a ++ waiter ∷ [])) }
{
    waiting[a as usize].add(waiter)
}

// The waiters are taken out, so each is woken once.
pub(crate) fn wake(waiting: &mut Vec<Waiters>, a: u32, alloc: Global) -> Vec<Waiter>
    requires there { a < vec_len waiting.old }
    ensures woken { result.items ≡ waiters_at waiting.old.items a }
    ensures left { waiting.new.items ≡ set waiting.old.items a [] }
{
    waiting[a as usize].take(alloc)
}
