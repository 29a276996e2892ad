//! Simulation of 64 patterns at a time, a pattern in each bit of a word: in three values with the boxes unknown, and in
//! two values for netlists without boxes. It refutes and never proves.
#![tactic(auto)]

mod comparing;
mod drawing;
mod lanes;
pub mod laws;
mod packing;
mod passing;
mod simulation;

pub use comparing::{differ_at, words};
pub use drawing::patterns;
pub use simulation::{Hit, simulate};
