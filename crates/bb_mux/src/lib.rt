//! BDDs as netlists: a multiplexer for each node, as a diagram is read as a branching program (Knuth TAOCP 4A, 7.1.4).
//! Functions that a check finds as diagrams can then go on as cells. Their netlist has the size of the diagrams, where
//! tables would have 2^n rows. It is proved at every point, and in size: at most two cells for each bead.
#![tactic(auto)]

mod choices;
mod netlist;
mod walk;

pub use netlist::netlist_of;
