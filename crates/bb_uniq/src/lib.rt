//! The unique table of the BDDs: each node is held once, so each bead (Knuth TAOCP 4A, 7.1.4) has exactly one node, and
//! equal functions are equal numbers. It has a limit and no garbage collection: what was made stays, so the number of
//! nodes is the number of beads made.
#![tactic(auto)]

pub mod laws;
mod places;
mod store;

pub use store::{Node, Ref, Store, StoreFault, View};
