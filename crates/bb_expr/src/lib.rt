//! Widths, values and cells of the expressions of a checked source (IEEE 1364-2005, 5.1 and 5.4). An expression has a
//! value at the width of its context, makes a number of cells there, and is lowered to these cells as steps on bits.
//! The three are folds over one syntax, so the widths at which an operator takes its operands are said once for all of
//! them.
#![tactic(auto)]

mod cell_count;
mod circuits;
pub mod laws;
mod leaves;
mod lowering;
mod operands;
mod operators;
mod rows;
mod scope;
mod step;
mod width;

pub use cell_count::cells;
pub use lowering::lower;
pub use step::{BitStep, Lowered};
pub use width::own_width;
