//! Elaboration: the hierarchy of a checked source as one flat netlist with named inputs, registers, outputs and boxes.
//!
//! It works on numbers of bits and scopes, and looks for faults in the order in which they are reported: hierarchy,
//! second drivers, bits without a driver, loops, and names that clash.
#![tactic(auto)]

mod bit_places;
mod box_names;
mod clocks;
mod copy_ends;
mod drivers;
mod elaborating;
mod elaboration;
mod finishing;
mod levelizing;
mod naming;
mod port_names;
mod reading;
mod reads;
mod register_names;
mod registers;
mod repeats;
mod scopes;
mod texts;
mod undriven;

pub use bb_design::ElabFault;
pub use bb_net::{Flat, FlatParts, Reg};
pub use elaborating::elaborate;
