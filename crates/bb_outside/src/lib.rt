//! The outside of the program as two traits: files that are read, and a sink that takes the report. Their clauses speak
//! of what is held or was written and of counts of failures, so that one body of the top call serves the system, tests
//! and callers in memory. Of each trait there are three kinds: one in memory that fails by a plan, for tests; the real
//! one; and one that never fails. A wrapper over any files keeps what was read.
#![tactic(auto)]

mod files;
mod held;
mod kept_files;
mod laws;
mod mem_files;
mod mem_sink;
mod quiet_files;
mod quiet_sink;
mod sink;
mod std_files;
mod std_out;

pub use files::{FileFault, Files};
pub use kept_files::{KeptFiles, KeptRead};
pub use laws::{first_of_the_name_counts, rose_is_growth};
pub use mem_files::MemFiles;
pub use mem_sink::{MemSink, Take};
pub use quiet_files::QuietFiles;
pub use quiet_sink::QuietSink;
pub use sink::{Failed, Sink, put_all};
pub use std::alloc::AllocError as NoMemory;
pub use std_files::StdFiles;
pub use std_out::StdOut;
