//! A wrapper over any files that keeps what was read. The list is here and neither in the top call nor in each kind of
//! files: the top call stays one body that knows of no list, and tests use the wrapper that the program uses.

ghost use Rattle.std.specs.Prelude.{◌≡◌, ◌<◌, ◌≤◌, ◌^◌, ◌++◌, ◌∷◌, [], ℕ, List, take, IfOk, IfSome, IsErrOf, OnOk};
ghost use Rattle.std.specs.Prelude.{OnErr, option_map, vec_len};
ghost use Rattle.bb_outside.specs.Counts.{IsRead, outcome_of};
ghost use Rattle.bb_outside.specs.Inside.KeptFiles.{entries, reads_of};

use crate::{FileFault, Files};
use std::alloc::{AllocError, Global};
use std::marker::Model;
use std::rc::Rc;

/// One read. Reads that found no memory are not listed.
#[derive(Debug, Drop)]
pub struct KeptRead {
    /// The name that was requested.
    pub name: String,
    /// The limit of the read, in bytes.
    pub limit: u64,
    /// None where the read failed.
    pub gave: Option<Rc<Vec<u8>>>,
}

/// Lists the reads since the files were wrapped. Bytes are shared with the caller and not copied. A read for which the
/// list finds no room reports lack of memory and is no failure, even where the wrapped files failed.
#[derive(Debug, Drop)]
pub struct KeptFiles<F: Files + Drop> {
    files: F,
    reads: Vec<KeptRead>,
}

impl<F: Files + Drop> Model for KeptFiles<F> {
    ghost use Rattle.bb_outside.specs.Inside.KeptFiles.{Kept, entries};

    ghost Value = { Kept F };

    ghost view = { λ k. record { files = k.files; reported = entries k.reads.items } };
}

impl<F: Files + Drop> KeptFiles<F> {
    /// The list begins empty, whatever the files read before.
    pub fn new(alloc: Global, files: F) -> KeptFiles<F>
        ensures { result ≡ record { files = files; reported = [] } }
    {
        KeptFiles {
            files,
            reads: Vec::new(alloc),
        }
    }

    /// In the order of the reads.
    pub fn reads(&self) -> &[KeptRead]
        ensures { entries result.now ≡ self.now.reported }
    {
        &self.reads
    }
}

fn keep(
    alloc: Global,
    reads: &mut Vec<KeptRead>,
    name: &str,
    limit: u64,
    gave: Option<Rc<Vec<u8>>>,
) -> Result<(), AllocError>
    ensures ok { OnOk result (entries reads.new.items
        ≡ entries reads.old.items
        ++ record { name = name.now; limit = limit; gave = option_map (λ bytes. bytes.value.items) gave } ∷ []) }
    ensures err { OnErr result (reads.new.items ≡ reads.old.items) }
    ensures short { vec_len reads.new < 2 ^ 64 }
{
    let name = String::from_str(alloc, name)?;
    reads.push(KeptRead { name, limit, gave })?;
    Ok(())
}

impl<F: Files + Drop> Files for KeptFiles<F> {
    ghost holds = { λ k name. F.holds k.files name };

    ghost reads = { λ k. reads_of (F.reads k.files).count k.reported };

    fn read(&mut self, alloc: Global, name: &str, limit: u64) -> Result<Rc<Vec<u8>>, FileFault>
        ensures within { IfOk result (λ bytes. vec_len bytes.value ≤ limit) }
        ensures bytes { IfOk result (λ bytes.
            IfSome (F.holds self.old.files name.now) (λ held. bytes.value.items ≡ take limit held)) }

        // The list is longer by this read, or the same after lack of memory.
        ensures reported { IfSome (outcome_of result) (λ gave.
            self.new.reported ≡ self.old.reported ++ record { name = name.now; limit = limit; gave = gave } ∷ []) }
        ensures untold { IsErrOf result FileFault.NoMemory → self.new.reported ≡ self.old.reported }

        // The result is that of the wrapped files, for this name and limit.
        ensures passed { IfSome (outcome_of result) (λ gave.
            IsRead (F.reads self.old.files) (F.reads self.new.files) name.now limit (Some gave)) }

        // The clauses of the trait.
        ensures holds { (n : List ℕ) → F.holds self.new.files n ≡ F.holds self.old.files n }
        ensures reads { IsRead (reads_of (F.reads self.old.files).count self.old.reported)
            (reads_of (F.reads self.new.files).count self.new.reported) name.now limit (outcome_of result) }
    {
        let answer = self.files.read(alloc, name, limit);
        let gave = match &answer {
            Ok(bytes) => Some(bytes.clone()?),
            Err(FileFault::Failed) => None,
            Err(FileFault::NoMemory) => return Err(FileFault::NoMemory),
        };
        keep(alloc, &mut self.reads, name, limit, gave)?;
        answer
    }
}
