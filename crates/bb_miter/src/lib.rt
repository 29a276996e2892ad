//! Comparison of two netlists without boxes, by simulation and by BDDs; the SAT side is in `bb_expand`. The calls take
//! netlists and not a pair, since the search fills an implementation anew in each iteration and would have to copy the
//! specification for a pair.
#![tactic(auto)]

mod diagrams;
mod patterns;
mod vectors;

pub use diagrams::difference;
pub use patterns::differing_patterns;
