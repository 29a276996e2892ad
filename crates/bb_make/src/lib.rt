//! A pair of texts of known answer and of any width: a ripple-carry adder, and the same adder with a full adder cut
//! out. The answer is one table of eight rows and is unique, so that a report on the pair can be checked by eye,
//! without a file and at every width. The pair is made as text, so that it takes the same way through the program as
//! two files.
#![tactic(auto)]

mod adder;
mod laws;
mod pair;
mod ports;

pub use laws::made_pairs_are_one_word_apart;
pub use pair::texts;
pub use ports::input_count;
