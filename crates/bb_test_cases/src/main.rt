//! Runs the top call once for each row of the files that the command line names, over files in memory, and prints the
//! row's name, the report and the status. Calls with their reports are rows of data and not test functions: a function
//! has to be proved, a row costs nothing, anyone can write one, and a text is in it as it is. The price is a second
//! caller of `run` whose contract repeats its clauses. The gate sees the first byte that differs, so the name comes
//! before the report. docs/ARCHITECTURE.md says how rows are written.
#![tactic(auto)]

mod row;

use anyhow::{Result, bail};
use bb_outside::{Sink, StdOut};
use row::Row;
use std::alloc::Global;
use std::{env, fs};

// A row is run where the next one begins, or the text ends, since its words and files may follow its name in any order.
fn run_all<K: Sink>(alloc: Global, text: &str, out: &mut K) -> Result<()> {
    let mut row = Row::new(alloc);
    for line in text.split('\n') {
        if line.starts_with("row ") {
            row.run(alloc, out)?;
        }
        if !row.takes(alloc, line)? {
            bail!("{line}");
        }
    }
    row.run(alloc, out)
}

fn main(rt: HostRuntime) -> Result<()> {
    let mut out = StdOut::new(rt.stdout());
    for name in env::args(&rt)?.skip(1) {
        let text = fs::read_to_string(&rt, &name)?;
        run_all(rt.alloc(), &text, &mut out)?;
    }
    Ok(())
}
