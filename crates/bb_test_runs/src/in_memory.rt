//! Runs of the top call over two texts in memory, so that a test reaches each failure of a file or a sink by its
//! number.

use bb_ladder::run;
use bb_outside::{MemFiles, MemSink, Take};
use std::alloc::{AllocError, Global};

/// Written bytes are kept also where the sink failed after them.
#[derive(Drop)]
pub struct Outcome {
    pub status: u8,
    pub report: Vec<u8>,
}

/// Words have one blank between two.
pub fn words(alloc: Global, line: &str) -> Result<Vec<String>, AllocError> {
    let mut words = Vec::new(alloc);
    for word in line.split(' ') {
        words.push(String::from_str(alloc, word)?)?;
    }
    Ok(words)
}

pub fn held(alloc: Global, files: &[(&str, &[u8])]) -> Result<Vec<(String, Vec<u8>)>, AllocError> {
    let mut held = Vec::new(alloc);
    for (name, text) in files {
        held.push((String::from_str(alloc, name)?, text.to_vec(alloc)?))?;
    }
    Ok(held)
}

/// Runs the words of a line over the files `s.v` and `i.v`. Reads with these numbers fail, counted from 0, and the sink
/// follows the plan.
pub fn run_stopped(
    alloc: Global,
    line: &str,
    texts: (&[u8], &[u8]),
    failing: &[u64],
    plan: &[Take],
) -> Result<Outcome, AllocError> {
    let held = held(alloc, &[("s.v", texts.0), ("i.v", texts.1)])?;
    let mut files = MemFiles::new(held, failing.to_vec(alloc)?);
    let mut sink = MemSink::new(alloc, plan.to_vec(alloc)?);
    sink.reserve(4_194_304)?;
    let status = run(alloc, &words(alloc, line)?, &mut files, &mut sink);
    let report = sink.bytes().to_vec(alloc)?;
    Ok(Outcome { status, report })
}

/// As `run_stopped`, where nothing fails.
pub fn run_over(alloc: Global, line: &str, texts: (&[u8], &[u8])) -> Result<Outcome, AllocError> {
    run_stopped(alloc, line, texts, &[], &[])
}
