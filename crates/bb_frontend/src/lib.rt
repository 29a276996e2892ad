//! From one text to its flat netlist, or the first fault; and why two texts are refused, with the line that says so. It
//! is proved beside the checks, which know netlists and no text, so that a change of reported words proves the top call
//! alone.
#![tactic(auto)]

mod limit;
mod refusal;
mod refusal_words;
mod side;
mod side_fault;
mod side_words;

pub use limit::{READ_LIMIT, read_limit_is};
pub use refusal::{Refusal, of_imp, of_pair, of_spec};
pub use refusal_words::push_refusal;
pub use side::{flat_of, texts_have_designs};
pub use side_fault::SideFault;
pub use side_words::{push_at_line, push_side_fault};
