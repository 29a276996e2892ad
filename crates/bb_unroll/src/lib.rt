//! A specification unrolled over one clock event (time-frame expansion), so that a combinational check decides whether
//! an event can take a bit from 1 to 0.
//!
//! A crate of its own below the checks, since it needs netlists alone.
#![tactic(auto)]

pub mod laws;
mod places;
mod unrolling;

pub use unrolling::{never, violation};
