//! The list of cells of a design, and the flat netlists that implement it, as definitions and laws.
//!
//! Buffers, loops and names need some forty facts about what is where in the list, so they are in one crate with it:
//! apart, each of these facts would be a law.
#![tactic(auto)]

pub mod copy_laws;
pub mod list_laws;
pub mod loop_laws;
pub mod naming_laws;
pub mod table_laws;
