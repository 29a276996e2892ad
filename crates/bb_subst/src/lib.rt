//! Embeddings of one netlist in another, netlists whose boxes are filled with tables, and vectors by which tables are
//! refuted one after another.
//!
//! This is a crate of its own so that bb_net, and all that is proved on it, stays as it is.
#![tactic(auto)]

mod filling;
pub mod laws;
mod moving;
mod trees;

pub use filling::substitute;
pub use moving::{moved, place_of};
