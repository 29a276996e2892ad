//! Files in memory whose reads fail by a list of numbers, so that tests reach each failure of a read at will. Which
//! read fails is known beforehand, so the contract says exactly what each read does.

ghost use Rattle.std.specs.Prelude.{◌≡◌, ◌≤◌, ◌↔◌, ℕ, List, Option, Some, take, map, length, Contains, IfOk, IfSome};
ghost use Rattle.std.specs.Prelude.{IsErrOf, vec_len, string_bytes};
ghost use Rattle.bb_outside.specs.Counts.{IsRead, outcome_of};
ghost use Rattle.bb_outside.specs.Inside.MemFiles.{text_under, is_failing, after_read, entries, reads_of};

use crate::held::prefix;
use crate::{FileFault, Files};
use std::alloc::Global;
use std::marker::Model;
use std::rc::Rc;

/// An unknown name has the empty text; of files of one name the first counts. It keeps no list of its reads: that would
/// bind every body over files to a meaning that only some have.
#[derive(Debug, Drop)]
pub struct MemFiles {
    files: Vec<(String, Vec<u8>)>,
    failing: Vec<u64>,
    reads: u64,
    faults: u64,
}

impl Model for MemFiles {
    ghost use Rattle.bb_outside.specs.Inside.MemFiles.{HeldFiles, entries};

    ghost Value = { HeldFiles };

    ghost view = { λ m.
        record { files = entries m.files.items; failing = m.failing.items; reads = m.reads; faults = m.faults } };
}

impl MemFiles {
    /// `failing` has the numbers of the reads that fail, counted from 0.
    pub fn new(files: Vec<(String, Vec<u8>)>, failing: Vec<u64>) -> MemFiles
        ensures { result ≡ record { files = entries files.items; failing = failing.items; reads = 0; faults = 0 } }
    {
        MemFiles {
            files,
            failing,
            reads: 0,
            faults: 0,
        }
    }
}

impl Files for MemFiles {
    ghost holds = { λ m name. Some (text_under m.files name) };

    ghost reads = { reads_of };

    fn read(&mut self, alloc: Global, name: &str, limit: u64) -> Result<Rc<Vec<u8>>, FileFault>
        ensures within { IfOk result (λ bytes. vec_len bytes.value ≤ limit) }
        ensures bytes { IfOk result (λ bytes. bytes.value.items ≡ take limit (text_under self.old.files name.now)) }

        // Fails exactly where `failing` has the number of the read. Contents never change.
        ensures fails { IsErrOf result FileFault.Failed ↔ Contains self.old.failing self.old.reads }
        ensures after { self.new ≡ after_read self.old }

        // The clauses of the trait.
        ensures holds { (n : List ℕ) → Some (text_under self.new.files n) ≡ Some (text_under self.old.files n) }
        ensures reads { IsRead (reads_of self.old) (reads_of self.new) name.now limit (outcome_of result) }
    {
        let number = self.reads;
        self.reads = number.saturating_add(1);
        if self.failing.contains(&number) {
            self.faults = self.faults.saturating_add(1);
            return Err(FileFault::Failed);
        }
        Ok(prefix(alloc, &self.files, name, limit)?)
    }
}
