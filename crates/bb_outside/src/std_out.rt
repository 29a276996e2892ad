//! Standard output. What it holds is stated by the standard library's contract of streams, so this adapter promises
//! what its stream promises.

ghost use Rattle.std.specs.Prelude.{◌≡◌, ◌<◌, ◌≤◌, length, IfOk, IsErr};
ghost use Rattle.std.specs.Io.KnownBytes.{WriteAppends};
ghost use Rattle.bb_outside.specs.Counts.{CountsWhere};

use crate::{Failed, Sink};
use std::io::Write;
use std::marker::Model;

/// A sink over any stream; used with standard output.
#[derive(Drop)]
pub struct StdOut<W: Write + Drop> {
    stream: W,
    faults: u64,
}

impl<W: Write + Drop> Model for StdOut<W> {
    ghost use Rattle.bb_outside.specs.Inside.Streams.{StreamState};

    ghost Value = { StreamState };

    ghost view = { λ s. record { held = W.contents s.stream; faults = s.faults } };
}

impl<W: Write + Drop> StdOut<W> {
    /// The count of failures begins at 0.
    pub fn new(stream: W) -> StdOut<W>
        ensures { result ≡ record { held = W.contents stream; faults = 0 } }
    {
        StdOut { stream, faults: 0 }
    }
}

impl<W: Write + Drop> Sink for StdOut<W> {
    ghost written = { λ s. s.held };

    ghost faults = { λ s. s.faults };

    // A write that takes nothing of a piece is a failure, since a loop over the rest would never end.
    fn put(&mut self, piece: &[u8]) -> Result<usize, Failed>
        // The clauses of the trait.
        ensures at_most { IfOk result (λ n. n ≤ length piece.now) }
        ensures at_least { 0 < length piece.now → IfOk result (λ n. 1 ≤ n) }
        ensures bytes { WriteAppends self.old.held self.new.held result piece.now }
        ensures never_falls { self.old.faults ≤ self.new.faults }
        ensures counted { CountsWhere (IsErr result) self.old.faults self.new.faults }
    {
        match self.stream.write(piece) {
            Ok(count) if count > 0 || piece.is_empty() => Ok(count),
            _ => {
                self.faults = self.faults.saturating_add(1);
                Err(Failed)
            }
        }
    }
}
