//! The program: words, the system's files and standard output go to the top call, which has the contracts, and its
//! status is the exit status. Files are wrapped in `KeptFiles`, since nothing is known beforehand of what the system's
//! files hold: the clauses on bytes speak of what the reads gave. Without memory for the words themselves the status is
//! 5, as in the call.
#![tactic(auto)]

use bb_ladder::run;
use bb_outside::{KeptFiles, StdFiles, StdOut};
use std::process::ExitCode;
use std::{env, io};

// The program's name comes first.
fn words(rt: &HostRuntime) -> io::Result<Vec<String>> {
    let mut words = Vec::new(rt.alloc());
    for word in env::args(rt)? {
        words.push(word)?;
    }
    Ok(words)
}

fn main(rt: HostRuntime) -> ExitCode {
    let Ok(words) = words(&rt) else {
        return ExitCode::from(5);
    };
    // The list of reads is what clauses of `run` on given bytes speak of.
    let mut files = KeptFiles::new(rt.alloc(), StdFiles::new(rt));
    let mut out = StdOut::new(rt.stdout());
    ExitCode::from(run(rt.alloc(), &words, &mut files, &mut out))
}
