//! Files that are read by name. A failure is counted exactly where it is reported: with "only where" files could count
//! failures that never were, and what is promised of calls without a failure would be promised of no call. A read has a
//! limit that is part of what is promised: otherwise files could read sixteen bytes of each text and keep every clause
//! on the bytes that were read. The list of reads names files and bytes, so that a failed read is blamed on the right
//! file and a verdict is one on the bytes that were read. A file of the system may change between two calls; what a
//! read gave is known.

ghost use Rattle.std.specs.Prelude.{◌≡◌, ◌≤◌, ℕ, Option, List, take, IfOk, IfSome, vec_len};
ghost use Rattle.bb_outside.specs.declared.files.FileFault.TheVariants.{NoMemory};
ghost use Rattle.bb_outside.specs.Counts.{IsRead, Reads, outcome_of};

use std::alloc::{AllocError, AllocFailed, Global};
use std::rc::Rc;

/// Only `Failed` says something of the file.
#[derive(Clone, Copy, Debug, PartialEq, Eq)]
pub enum FileFault {
    /// The file could not be read; this is counted.
    Failed,
    /// No memory for the bytes; this says nothing of the file, and is not counted.
    NoMemory,
}

impl From<AllocError> for FileFault {
    ghost from_gives = { λ _ fault. fault ≡ NoMemory };

    fn from(_: AllocError) -> Self {
        FileFault::NoMemory
    }
}

impl<T: Drop> From<AllocFailed<T>> for FileFault {
    ghost from_gives = { λ _ fault. fault ≡ NoMemory };

    fn from(_: AllocFailed<T>) -> Self {
        FileFault::NoMemory
    }
}

/// A source of texts by name.
pub trait Files {
    /// The bytes under a name, where they are known before a read.
    ghost holds: { Self → List ℕ → Option (List ℕ) };

    /// The numbers of reads and of failed reads, each up to 2^64 - 1, and where a list is kept, the name, limit and
    /// result of each read. The list after a read that found no memory is left open, so that it may be kept in memory.
    ghost reads: { Self → Reads };

    /// The first `limit` bytes of the file, or all where there are fewer. They are shared, so that a list of reads
    /// needs no copy.
    fn read(&mut self, alloc: Global, name: &str, limit: u64) -> Result<Rc<Vec<u8>>, FileFault>
        ensures within { IfOk result (λ bytes. vec_len bytes.value ≤ limit) }
        ensures bytes { IfOk result (λ bytes. IfSome (holds self.old name.now)
            (λ held. bytes.value.items ≡ take limit held)) }

        // Contents stay, and each call counts as one read of this name, whatever its result; a failure is counted
        // exactly where one is reported.
        ensures holds { (n : List ℕ) → holds self.new n ≡ holds self.old n }
        ensures reads { IsRead (reads self.old) (reads self.new) name.now limit (outcome_of result) };
}
