//! The hierarchy of a source: which modules instantiate which, the top, recursion, depth and size.
//!
//! Once the top is found modules go by their places in the text: each has one callee for each instance in it, in text
//! order, so recursion, depth and size read one list. Laws say that walks by places are walks by names in a text
//! without faults.
#![tactic(auto)]

mod callees;
mod cells;
mod depth;
mod finite;
mod recursion;
mod register_bits;
mod size;
mod summary;
mod top;

pub use finite::hierarchy;
pub use summary::{ModuleSummary, module_summaries};
pub use top::place_of_top;
