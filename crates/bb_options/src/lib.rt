//! The checks of the ladder by their names, and the options of a run: which checks are run, and within which bounds.
//! This crate is below the checks, so that what reads the words of a command line is proved beside them and does not
//! wait for them.
#![tactic(auto)]

mod options;
mod rung;

pub use options::Options;
pub use rung::Rung;
