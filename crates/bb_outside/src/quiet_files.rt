//! Files in memory that never fail, for callers who have the texts and want the status alone. They count their reads,
//! since the trait promises that a count rises, and keep no list: what they hold is known anyway.

ghost use Rattle.std.specs.Prelude.{◌≡◌, ◌≤◌, ℕ, List, Some, take, IfOk, IsErrOf, vec_len};
ghost use Rattle.bb_outside.specs.Counts.{IsRead, next_count, outcome_of};
ghost use Rattle.bb_outside.specs.Inside.MemFiles.{entries, text_under};
ghost use Rattle.bb_outside.specs.Inside.QuietFiles.{holds_of, reads_of};

use crate::held::prefix;
use crate::{FileFault, Files};
use std::alloc::Global;
use std::marker::Model;
use std::rc::Rc;

/// An unknown name has the empty text; of files of one name the first counts, as in [`MemFiles`](crate::MemFiles). A
/// read gives bytes or lack of memory.
#[derive(Debug, Drop)]
pub struct QuietFiles {
    files: Vec<(String, Vec<u8>)>,
    reads: u64,
}

impl Model for QuietFiles {
    ghost use Rattle.bb_outside.specs.Inside.MemFiles.{entries};
    ghost use Rattle.bb_outside.specs.Inside.QuietFiles.{ReadFiles};

    ghost Value = { ReadFiles };

    ghost view = { λ m. record { files = entries m.files.items; reads = m.reads } };
}

impl QuietFiles {
    /// No read has been counted yet.
    pub fn new(files: Vec<(String, Vec<u8>)>) -> QuietFiles
        ensures { result ≡ record { files = entries files.items; reads = 0 } }
    {
        QuietFiles { files, reads: 0 }
    }
}

impl Files for QuietFiles {
    ghost holds = { holds_of };

    ghost reads = { reads_of };

    fn read(&mut self, alloc: Global, name: &str, limit: u64) -> Result<Rc<Vec<u8>>, FileFault>
        ensures within { IfOk result (λ bytes. vec_len bytes.value ≤ limit) }
        ensures bytes { IfOk result (λ bytes. bytes.value.items ≡ take limit (text_under self.old.files name.now)) }

        // Never fails, and only the count of reads changes.
        ensures never_fails { IsErrOf result FileFault.Failed → ⊥ }
        ensures after { self.new ≡ record self.old { reads = next_count self.old.reads } }

        // The clauses of the trait.
        ensures holds { (n : List ℕ) → holds_of self.new n ≡ holds_of self.old n }
        ensures reads { IsRead (reads_of self.old) (reads_of self.new) name.now limit (outcome_of result) }
    {
        self.reads = self.reads.saturating_add(1);
        Ok(prefix(alloc, &self.files, name, limit)?)
    }
}
