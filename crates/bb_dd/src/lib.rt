//! Reduced ordered BDDs (Knuth TAOCP 4A, 7.1.4): Boolean functions as nodes of one store, and operations with a cache
//! of results. There are no complement edges and no reordering, so the nodes are exactly the beads of the functions
//! held, a number that a report may promise.
#![tactic(auto)]

mod apply;
mod cache;
mod call;
mod cofactors;
mod diagrams;
mod fault;
mod key;
mod terminal;

pub use bb_uniq::{Ref, View};
pub use diagrams::Diagrams;
pub use fault::DdFault;
pub use key::{Key, Operation, same_keys};
