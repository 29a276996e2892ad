//! The top call: words, two texts, read or made, and a report. Its code touches no netlist. What it promises of two
//! texts is a relation that each status states in the open, for any two texts that the words name, so that a further
//! way to name texts adds a case and changes no clause.
#![tactic(auto)]

pub mod call_laws;
mod making;
mod quiet;
mod refuting;
mod running;
mod words;

pub use bb_frontend::{
    READ_LIMIT, Refusal, SideFault, flat_of, push_refusal, push_side_fault, read_limit_is,
    texts_have_designs,
};
pub use bb_verdict::{
    Answer, Made, TextComparison, answer_laws, judge_pair, pair_of, text_laws, verdict_laws,
};
pub use quiet::run_quietly;
pub use refuting::{judge_refutation, refutations_are_answered};
pub use running::run;
