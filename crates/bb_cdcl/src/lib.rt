//! A conflict-driven clause-learning (CDCL) solver. It answers with a model, or with a refutation in chains of
//! resolutions that the checker of `bb_cnf` accepts. Only the trail, the learned clauses and their chains are proved
//! right; watches, scores, levels and unit clauses are hints that the proved code tests before it uses them, so a wrong
//! hint costs time and never an answer.
#![tactic(auto)]

mod analysis;
mod backjumping;
mod events;
mod examination;
mod handing_out;
mod helpers;
mod heuristics;
mod incremental;
mod iteration;
pub mod laws;
mod learning;
mod minimization;
mod numbers;
mod outcome;
mod resumption;
mod root_literals;
mod search;
mod solver;
mod spare;
mod start;
mod state;
mod trail;
mod units;
mod watches;

pub use incremental::{Solved, Solver};
pub use outcome::{Attempt, Outcome};
pub use solver::{solve, solve_within};
pub use std::alloc::AllocError as NoMemory;
