//! A sink that never fails, for callers who want the status alone. It keeps nothing, so it needs no memory and has no
//! failure to count.

ghost use Rattle.std.specs.Prelude.{◌≡◌, ◌+◌, ◌-◌, ◌^◌, ◌<◌, ◌≤◌, None, length, min, IfOk, IsErr, IsOk};
ghost use Rattle.std.specs.Io.KnownBytes.{WriteAppends};
ghost use Rattle.bb_outside.specs.Counts.{CountsWhere};

use crate::{Failed, Sink};
use std::marker::Model;

/// Takes each piece whole and keeps none of it; it counts bytes.
#[derive(Debug, Drop)]
pub struct QuietSink {
    taken: u64,
}

impl Model for QuietSink {
    ghost use Rattle.std.specs.Prelude.{ℕ};

    ghost Value = { ℕ };

    ghost view = { λ s. s.taken };
}

impl QuietSink {
    /// The count begins at 0.
    pub fn new() -> QuietSink
        ensures { result ≡ 0 }
    {
        QuietSink { taken: 0 }
    }

    /// In bytes; stays at 2^64 - 1 when it is there.
    pub fn taken(&self) -> u64
        ensures { result ≡ self.now }
    {
        self.taken
    }
}

impl Sink for QuietSink {
    ghost written = { λ _. None };

    ghost faults = { λ _. 0 };

    fn put(&mut self, piece: &[u8]) -> Result<usize, Failed>
        // Takes the whole piece and counts it.
        ensures takes { IsOk result }
        ensures whole { IfOk result (λ n. n ≡ length piece.now) }
        ensures counts { self.new ≡ min (self.old + length piece.now) (2 ^ 64 - 1) }

        // The clauses of the trait.
        ensures at_most { IfOk result (λ n. n ≤ length piece.now) }
        ensures at_least { 0 < length piece.now → IfOk result (λ n. 1 ≤ n) }
        ensures bytes { WriteAppends None None result piece.now }
        ensures never_falls { 0 ≤ 0 }
        ensures counted { CountsWhere (IsErr result) 0 0 }
    {
        self.taken = self.taken.saturating_add(piece.len() as u64);
        Ok(piece.len())
    }
}
