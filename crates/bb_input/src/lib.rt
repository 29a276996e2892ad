//! The input-exact check by BDDs (Scholl and Becker 2001): can the boxes be filled one after another, so that what each
//! gives depends on its input pins only? With several boxes this is a condition that contents have to meet and not
//! enough for them: a choice for a later box may also depend on pins of the earlier ones. With one box it is exact and
//! gives the table. This crate uses the cells of `bb_sym` and does not copy them.
#![tactic(auto)]

mod checking;
mod choosing;
mod counting;
mod laws;
mod missing;
mod order;
mod refuting;
mod rows;
mod staging;

use bb_bits::Table;
pub use checking::input;
pub use laws::{answers_are_one, answers_exist, last_reports, specification_counts, stages_say};
pub use rows::write_row;
pub use staging::{Prefix, make_prefix};

/// The answer is a function of the pair (law `answers_are_one`).
#[derive(Debug, Drop)]
pub enum InputAnswer {
    /// No contents of boxes, even with the pins of earlier boxes as further inputs, make every output right.
    Error,
    /// Choices exist, box after box, but no tables are given: there are several boxes, which for bb_nest are not
    /// nested, or the tables are too large.
    Clear,
    /// A table for each box: of at most one box, or for bb_nest of nested ones. Each row is the least that suits, as a
    /// number with the first output pin most significant, so the answer is unique.
    Repair(Vec<Table>),
}
