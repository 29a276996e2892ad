//! An answer is a value: a status and the bytes of its report. A report is made whole before anything is written, so
//! that lack of memory in the middle leaves no half report, and a law on answers speaks of values and not of a sink.

ghost use Rattle.std.specs.Prelude.{◌≡◌, IfOk};

use bb_bits::NoMemory;
use std::alloc::Global;

/// The report is bytes, since names in it are those of the texts.
#[derive(Debug, Drop)]
pub struct Answer {
    pub status: u8,
    pub report: Vec<u8>,
}

/// For reports of one fixed line, as refusals of words or of long files.
pub fn say(alloc: Global, status: u8, report: &str) -> Result<Answer, NoMemory>
    ensures { IfOk result (λ answer. (answer.status ≡ status) × (answer.report.items ≡ report.now)) }
{
    Ok(Answer {
        status,
        report: Vec::from_slice(alloc, report.as_bytes())?,
    })
}
