//! Quantifiers and least points of BDDs, by the public calls of `bb_dd` only: what they need of its cache are `recall`
//! and `keep`.
#![tactic(auto)]

mod points;
mod quantify;

pub use points::least;
pub use quantify::{exists, forall};
