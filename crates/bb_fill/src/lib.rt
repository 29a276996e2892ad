//! The implementation with its boxes filled, printed as one module in Verilog. The text is defined as a list of lines,
//! each an item of the language, and printed from them. What the lines say of bits is said for all values of their
//! words that meet them: some values do, each net is driven once, and a line reads only what comes before it, so no net
//! depends on itself. This rests on netlists alone; that the text reads as its module, and what this module
//! means as a design, is in a crate of its own (`bb_readback`), so only the top call waits for it.
#![tactic(auto)]

mod cells;
mod clashes;
mod fault;
mod filling;
mod index;
mod laws;
mod lines;
mod parts;
mod sections;
mod sizes;
mod stems;
mod text_buffer;
mod trees;
mod words;

pub use fault::FillFault;
pub use filling::fill;
pub use laws::{
    answers_are_one, answers_exist, lines_are_few, lines_can_be_met, lines_have_bits,
    lines_read_what_is_driven, nets_are_driven_once, registers_take_bits, texts_are_short,
    trees_choose, words_are_apart, words_are_nets, words_are_of_netlist,
};
