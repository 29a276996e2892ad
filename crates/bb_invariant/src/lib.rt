//! Whether an invariant of a specification is kept by each event: by BDDs, and by a SAT solver where these are too
//! large.
#![tactic(auto)]

mod comparing;
mod deciding;
mod simulating;
mod solving;

pub use deciding::{Invariance, check_invariant};
