//! The files of the system. Callers over any files learn nothing of what they hold: no contract can say that, since
//! nothing is known beforehand and a file may change between two calls. For an open file the private function below
//! says that its first bytes are read; that the file opened is the one named is tested.

ghost use Rattle.std.specs.Prelude.{◌≡◌, ◌≤◌, take, IfOk, IfSome, IsErr, IsErrOf, None, vec_len};
ghost use Rattle.bb_outside.specs.Counts.{CountsWhere, IsRead, outcome_of};

use crate::{FileFault, Files};
use std::alloc::Global;
use std::io::Read;
use std::marker::Model;
use std::rc::Rc;
use std::{fs, io, rt};

// In bytes. A read may give fewer, so reads go on until one gives none.
const STEP: usize = 16384;

/// Files by their paths. No contents are promised.
#[derive(Drop)]
pub struct StdFiles<R: rt::Files + Drop> {
    files: R,
    reads: u64,
    faults: u64,
}

impl<R: rt::Files + Drop> Model for StdFiles<R> {
    ghost use Rattle.std.specs.Prelude.{None};
    ghost use Rattle.bb_outside.specs.Counts.{Reads};

    ghost Value = { Reads };

    ghost view = { λ s. record { count = s.reads; faults = s.faults; reported = None } };
}

impl<R: rt::Files + Drop> StdFiles<R> {
    /// The counts begin at 0.
    pub fn new(files: R) -> StdFiles<R>
        ensures { result ≡ record { count = 0; faults = 0; reported = None } }
    {
        StdFiles {
            files,
            reads: 0,
            faults: 0,
        }
    }
}

// An error in the middle fails the whole read, an interrupted one included: a part of a file is no text to judge.
fn read_prefix<F: Read>(alloc: Global, file: &mut F, limit: u64) -> Result<Vec<u8>, FileFault>
    ensures within { IfOk result (λ bytes. vec_len bytes ≤ limit) }
    // Where the contents of the open file are known, these are its first bytes, up to the limit.
    ensures prefix { IfOk result (λ bytes. IfSome (F.remaining file.old) (λ left. bytes.items ≡ take limit left)) }
{
    let mut bytes = Vec::new(alloc);
    let mut buffer = [0; STEP];
    while (bytes.len() as u64) < limit {
        let requested = (limit - bytes.len() as u64).min(STEP as u64) as usize;
        let Ok(count) = file.read(&mut buffer[..requested]) else {
            return Err(FileFault::Failed);
        };
        if count == 0 {
            break;
        }
        bytes.extend_from_slice(&buffer[..count])?;
    }
    Ok(bytes)
}

// A directory opens without error; its read fails.
fn read_opened<F: Read + Drop>(
    alloc: Global,
    opened: io::Result<F>,
    limit: u64,
) -> Result<Vec<u8>, FileFault>
    ensures within { IfOk result (λ bytes. vec_len bytes ≤ limit) }
    ensures prefix { IfOk opened (λ file.
        IfOk result (λ bytes. IfSome (F.remaining file) (λ left. bytes.items ≡ take limit left))) }
    ensures unopened { IsErr opened → IsErrOf result FileFault.Failed }
{
    let Ok(mut file) = opened else {
        return Err(FileFault::Failed);
    };
    read_prefix(alloc, &mut file, limit)
}

impl<R: rt::Files + Drop> Files for StdFiles<R> {
    ghost holds = { λ _ _. None };

    ghost reads = { λ s. s };

    fn read(&mut self, alloc: Global, name: &str, limit: u64) -> Result<Rc<Vec<u8>>, FileFault>
        ensures within { IfOk result (λ bytes. vec_len bytes.value ≤ limit) }

        // A failure is counted exactly where it is reported.
        ensures counted { CountsWhere (IsErrOf result FileFault.Failed) self.old.faults self.new.faults }

        // The clauses of the trait.
        ensures reads { IsRead self.old self.new name.now limit (outcome_of result) }
    {
        self.reads = self.reads.saturating_add(1);
        match read_opened(alloc, fs::open(&self.files, name), limit) {
            Ok(bytes) => Ok(Rc::new(alloc, bytes)?),
            Err(FileFault::Failed) => {
                self.faults = self.faults.saturating_add(1);
                Err(FileFault::Failed)
            }
            Err(FileFault::NoMemory) => Err(FileFault::NoMemory),
        }
    }
}
