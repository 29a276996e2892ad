//! Answers of the calls. A bounded search returns the steps that it made: its contract states how many clauses they
//! derive, so that a solver that gives up at once would be refused.

use bb_cnf::{Refutation, Step};

/// The model has the bit of variable 1 first.
#[derive(Debug, Drop)]
pub enum Outcome {
    Sat(Vec<bool>),
    Unsat(Refutation),
}

/// `Spent` has the steps of every learned clause, in order.
#[derive(Debug, Drop)]
pub enum Attempt {
    Decided(Outcome),
    Spent(Vec<Step>),
}
