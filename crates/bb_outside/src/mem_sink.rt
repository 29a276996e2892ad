//! A sink in memory that takes and fails by a plan, so that tests reach every way in which a real sink behaves: whole
//! pieces, short writes, and failures.

ghost use Rattle.std.specs.Prelude.{◌≡◌, ◌<◌, ◌≤◌, take, ◌+◌, ◌↔◌, [], ◌++◌, Some, max, length, drop, IfOk, OnOk};
ghost use Rattle.std.specs.Prelude.{OnErr, IsOk, IsErr, vec_len, vec_capacity};
ghost use Rattle.std.specs.Io.KnownBytes.{WriteAppends};
ghost use Rattle.bb_outside.specs.Counts.{CountsWhere};
ghost use Rattle.bb_outside.specs.Inside.MemSink.{wanted, Refuses, after_put, after_refusal};

use crate::{Failed, NoMemory, Sink};
use std::alloc::Global;
use std::marker::Model;

/// One step of a plan.
#[derive(Clone, Copy, Debug, PartialEq, Eq)]
pub enum Take {
    /// Takes at most this many bytes, but at least one: a sink that takes nothing of a piece never ends.
    Some(u32),
    /// Fails, and takes nothing.
    Fail,
}

/// Each call follows the next step of the plan; after its last step each piece is taken whole. Room is reserved
/// beforehand, so that lack of room is a failure that a test can plan.
#[derive(Debug, Drop)]
pub struct MemSink {
    bytes: Vec<u8>,
    room: u64,
    plan: Vec<Take>,
    next: usize,
    faults: u64,
}

impl Model for MemSink {
    ghost use Rattle.std.specs.Prelude.{◌≤◌, ◌+◌, drop, vec_len, vec_capacity};
    ghost use Rattle.bb_outside.specs.Inside.MemSink.{PlannedSink};

    ghost Value = { PlannedSink };

    ghost view = { λ s.
        record { bytes = s.bytes.items; room = s.room; plan = drop s.next s.plan.items; faults = s.faults } };

    ghost invariant = { λ s. (vec_len s.bytes + s.room ≤ vec_capacity s.bytes) × (s.next ≤ vec_len s.plan) };
}

impl MemSink {
    ghost use Rattle.bb_outside.specs.Inside.MemSink.{PlannedSink};

    /// Without room each `put` fails: call `reserve` first.
    pub fn new(alloc: Global, plan: Vec<Take>) -> MemSink
        ensures { result ≡ record { bytes = []; room = 0; plan = plan.items; faults = 0 } }
    {
        MemSink {
            bytes: Vec::new(alloc),
            room: 0,
            plan,
            next: 0,
            faults: 0,
        }
    }

    /// `n` counts from now, not from the start. Never fails where the room suffices already.
    pub fn reserve(&mut self, n: u64) -> Result<(), NoMemory>
        ensures ok { OnOk result (self.new ≡ record self.old { room = max self.old.room n }) }
        ensures err { OnErr result (self.new ≡ self.old) }
        ensures enough { n ≤ self.old.room → IsOk result }
    {
        if self.room < n {
            self.bytes.reserve(n as usize)?;
            self.room = n;
        }
        Ok(())
    }

    /// In the order in which they were taken; failed calls add none.
    pub fn bytes(&self) -> &[u8]
        ensures { result.now ≡ self.now.bytes }
    {
        &self.bytes
    }
}

// None where the step fails.
fn share(plan: &[Take], len: usize) -> Option<usize>
    ensures { result ≡ wanted plan.now len }
{
    match plan {
        [] => Some(len),
        [Take::Some(most), ..] => Some((*most as usize).max(1).min(len)),
        [Take::Fail, ..] => None,
    }
}

// Stays at the end of the plan.
fn index_after(plan: &[Take], at: usize) -> usize
    requires { at ≤ length plan.now }
    ensures within { result ≤ length plan.now }
    ensures rest { drop result plan.now ≡ drop 1 (drop at plan.now) }
{
    if at < plan.len() { at + 1 } else { at }
}

// Cannot fail, since the room was reserved.
fn append(bytes: &mut Vec<u8>, piece: &[u8])
    requires { vec_len bytes.old + length piece.now ≤ vec_capacity bytes.old }
    ensures items { bytes.new.items ≡ bytes.old.items ++ piece.now }
    ensures capacity { vec_capacity bytes.old ≤ vec_capacity bytes.new }
{
    bytes.extend_from_slice(piece).unwrap();
}

impl Sink for MemSink {
    ghost written = { λ s. Some s.bytes };

    ghost faults = { λ s. s.faults };

    fn put(&mut self, piece: &[u8]) -> Result<usize, Failed>
        // Fails where the plan says so or the room is too small.
        ensures taken { IfOk result (λ n. wanted self.old.plan (length piece.now) ≡ Some n) }
        ensures takes { IfOk result (λ n. self.new ≡ after_put self.old piece.now n) }
        ensures fails { IsErr result ↔ Refuses self.old (length piece.now) }
        ensures refused { OnErr result (self.new ≡ after_refusal self.old) }

        // The clauses of the trait.
        ensures at_most { IfOk result (λ n. n ≤ length piece.now) }
        ensures at_least { 0 < length piece.now → IfOk result (λ n. 1 ≤ n) }
        ensures bytes { WriteAppends (Some self.old.bytes) (Some self.new.bytes) result piece.now }
        ensures never_falls { self.old.faults ≤ self.new.faults }
        ensures counted { CountsWhere (IsErr result) self.old.faults self.new.faults }
    {
        let share = share(&self.plan[self.next..], piece.len());
        self.next = index_after(&self.plan, self.next);
        match share {
            Some(n) if n as u64 <= self.room => {
                append(&mut self.bytes, &piece[..n]);
                self.room -= n as u64;
                Ok(n)
            }
            _ => {
                self.faults = self.faults.saturating_add(1);
                Err(Failed)
            }
        }
    }
}
