//! Pairing: two flat netlists are matched by the names of their inputs, outputs and registers, or refused.
//!
//! Registers are matched by name alone, and no correspondence is searched: each register is cut, so every check is a
//! combinational one and a verdict holds from every state.
#![tactic(auto)]

mod care;
mod checking;
mod clocks;
mod fault;
mod index;
mod joining;
mod kinds;
pub mod laws;
mod pairing;
mod parts;
mod pins;
mod places;

pub use care::place_of;
pub use fault::MatchFault;
pub use pairing::pair;
