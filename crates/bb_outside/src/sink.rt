//! A sink takes bytes in pieces of its own choice, as `write` of POSIX does. A failure is counted exactly where it is
//! reported, for the same reason as with files.

ghost use Rattle.std.specs.Prelude.{◌<◌, ◌≤◌, ℕ, Option, List, length, take, IfOk, IsErr, OnOk, OnErr};
ghost use Rattle.std.specs.Io.KnownBytes.{Appends, WriteAppends};
ghost use Rattle.bb_outside.specs.Counts.{CountsWhere};

/// The sink took nothing of the piece.
#[derive(Clone, Copy, Debug, PartialEq, Eq)]
pub struct Failed;

/// What reports are written to.
pub trait Sink {
    /// All bytes taken so far, where the sink keeps them.
    ghost written: { Self → Option (List ℕ) };

    /// The number of failed calls, up to its last value. It never falls.
    ghost faults: { Self → ℕ };

    /// Takes a prefix of the piece, at least one byte unless it is empty, and returns its length. So a loop over the
    /// rest ends.
    fn put(&mut self, piece: &[u8]) -> Result<usize, Failed>
        ensures at_most { IfOk result (λ n. n ≤ length piece.now) }
        ensures at_least { 0 < length piece.now → IfOk result (λ n. 1 ≤ n) }
        ensures bytes { WriteAppends (written self.old) (written self.new) result piece.now }

        // A failure is counted exactly where one is reported.
        ensures never_falls { faults self.old ≤ faults self.new }
        ensures counted { CountsWhere (IsErr result) (faults self.old) (faults self.new) };
}

/// Writes the whole piece, or a proper prefix of it where the sink fails. Ends since each call takes at least one byte.
pub fn put_all<K: Sink>(out: &mut K, piece: &[u8]) -> Result<(), Failed>
    ensures ok { OnOk result (Appends (K.written out.old) (K.written out.new) piece.now) }
    ensures err { OnErr result ((n : ℕ) × (n < length piece.now)
        × Appends (K.written out.old) (K.written out.new) (take n piece.now)) }

    // Exactly one failure is counted where one is reported: the loop ends at the first.
    ensures never_falls { K.faults out.old ≤ K.faults out.new }
    ensures counted { CountsWhere (IsErr result) (K.faults out.old) (K.faults out.new) }
{
    let mut rest = piece;
    while !rest.is_empty() {
        let taken = out.put(rest)?;
        rest = &rest[taken..];
    }
    Ok(())
}
