//! The verdict on two texts, and laws of what a verdict means. It is a crate of its own, above the reading of texts and
//! above the checks, so that those are proved beside each other, and a change of reported words proves neither again.
#![tactic(auto)]

mod answer;
pub mod answer_laws;
mod filling;
pub mod invariant_laws;
mod invariants;
mod judging;
mod pair_texts;
mod requested;
pub mod text_laws;
pub mod verdict_laws;

pub use answer::{Answer, say};
pub use judging::judge_pair;
pub use pair_texts::{Made, pair_of};
pub use requested::TextComparison;
