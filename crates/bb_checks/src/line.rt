//! The result of one check. What shows an error is a value of its own, so that a check with nothing to show says so,
//! and a further kind of evidence adds a case and changes none.

use bb_bits::Table;
use bb_cnf::{Cnf, Refutation};
use bb_options::Rung;
use bb_sym::Found;

/// The pair is expanded over these vectors only: for all contents of the boxes the designs differ at one of them, so
/// they can be simulated by those who trust no solver.
#[derive(Drop)]
pub struct Proof {
    /// Each has a bit for each input of the pair, in order.
    pub vectors: Vec<Vec<bool>>,
    /// Over these vectors, not over all.
    pub cnf: Cnf,
    /// Derives the empty clause from `cnf`.
    pub refutation: Refutation,
}

/// Why no contents of the boxes make the designs equivalent.
#[derive(Drop)]
pub enum Evidence {
    /// At this vector the designs differ whatever the boxes contain.
    Vector(Found),
    /// No choice of box outputs works, even if each box may see the inputs of the boxes before it. No single vector
    /// shows this.
    NoChoices,
    /// The clauses have no model.
    Refutation(Proof),
}

/// The last three are bounds that were reached; the question is then left to later checks.
#[derive(Drop)]
pub enum CheckResult {
    /// No contents of the boxes make the designs equivalent.
    Error(Evidence),
    /// The check finds no error, and shows nothing else.
    Nothing,
    /// Tables that make the designs equivalent, one for each sharing class in the order of its first box.
    Repair(Vec<Table>),
    /// More BDD nodes are needed than the bound `nodes`.
    Nodes,
    /// More clauses are needed than the bound `clauses`, for some distinguishing vectors.
    Clauses,
    /// The tables, one for each sharing class, would have more than 2^24 bits, the bound of a report.
    Wide,
}

/// A line of the report, before it is printed.
#[derive(Drop)]
pub struct Line {
    pub rung: Rung,
    pub check_result: CheckResult,
}
