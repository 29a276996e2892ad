//! The checks by BDDs (reduced ordered decision diagrams) that ask what no content of the black boxes can repair,
//! weakest first: 0-1-X simulation over all vectors (`symbolic`), each output with its box outputs quantified
//! (`local`), all outputs together (`output`). They are the checks of Scholl and Becker 2001; a weaker one decides less
//! with smaller diagrams, which is why all three exist. They know nothing of shared contents: what they show of boxes
//! that are filled one by one is true of fewer contents too.
#![tactic(auto)]

mod all_outputs;
mod blocks;
mod cells;
mod differences;
mod each_output;
mod fault;
mod folds;
mod found;
mod inputs_first;
mod known_cells;
mod known_gates;
pub mod laws;
mod mismatches;
pub mod plain;
mod searching;
mod specification;
mod sums;
mod unknown;
mod variables;

pub use all_outputs::{output, output_of};
pub use each_output::local;
pub use fault::RungFault;
pub use found::Found;
pub use specification::specification_exceeds;
pub use unknown::symbolic;
