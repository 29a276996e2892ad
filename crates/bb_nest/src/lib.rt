//! Nested boxes: each has a table of its own and sees all pins of the boxes before it. Then a choice that may depend on
//! earlier pins is a function of the box's own inputs, so the input-exact check of `bb_input` decides for any number of
//! boxes and gives tables. Nestedness by functions, not by cells, decides more pairs and gives two netlists of one text
//! the same answer.
#![tactic(auto)]

mod cells;
mod laws;
mod nesting;
mod rows;
mod seeing;
mod spelling;
mod tables;

pub use cells::nested;
pub use laws::{
    answers_are_one, answers_exist, cells_are_seen, nested_are_decided, nested_choices_are_tables,
    singles_answer_the_same, singles_are_nested,
};
pub use nesting::nest;
