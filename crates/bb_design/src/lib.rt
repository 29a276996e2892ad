//! What a design is and means: the hierarchy of a checked source, its bits, drivers, reads, worlds and refusals, as
//! definitions and laws.
//!
//! No netlist and no way to elaborate occurs here, so another way changes none of it.
#![tactic(auto)]

mod fault;
pub mod laws;

pub use fault::ElabFault;
