//! Pairs whose outputs count only where a cell of the specification, the care cell, is 1; elsewhere they are
//! don't-cares.
//!
//! Care outputs are taken into the netlists of the pair, so every check, condition, bound and report treats such a pair
//! as any other.
#![tactic(auto)]

mod constrained;
pub mod laws;
mod outputs;

pub use constrained::{ConstrainedNets, constrained_nets};
pub use outputs::{numbers_below, with_outs};
