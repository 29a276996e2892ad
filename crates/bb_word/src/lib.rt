//! The operators on words of Verilog as circuits of gates, with their meaning on numbers (IEEE 1364-2005, 5.1.5 to
//! 5.1.12). Each operator is one circuit over any kind of gates: over formulas it lists the cells, over bits it has a
//! value. So its cells are said once and its meaning is proved once, and expressions only instantiate it. The value is
//! defined without circuits, as a sum, a comparison or a quotient of numbers; that the cells have it is a law.
#![tactic(auto)]

mod folds;
mod joint;
mod laws;
mod nets;
mod orders;
mod shifts;
mod sums;
mod words;

pub use laws::{cells_are_counted, circuits_are_mapped, folds_give_bits, words_spell_numbers};
pub use nets::{fold, word};
