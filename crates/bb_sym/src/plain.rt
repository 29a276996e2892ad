//! What checks with other variable orders share: cells, differences and quantified blocks. Each is stated by what a
//! point means for inputs and pins, not by the place of variables, so one proof serves both orders: inputs first here,
//! pins first in `bb_input`.

pub use crate::blocks::quantify_block;
pub use crate::cells::{PlainCells, plain_cells};
pub use crate::differences::{picked, some_differ, some_wrong};
