//! Isomorphic netlists: the same but for the order of their cells, and but for which of several equal cells another one
//! reads.
//!
//! Elaboration leaves both open, so this is what makes a report a function of the texts.
#![tactic(auto)]

pub mod laws;
