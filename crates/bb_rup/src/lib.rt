//! Checks clause additions by reverse unit propagation (RUP: Goldberg and Novikov, 2003), for formulas and proofs in
//! the DIMACS format. Where a proof comes from does not matter: after the answer `Yes` no assignment satisfies the
//! formula. RUP needs no hints, so the learned clauses of a solver will do as they are. Its price is propagation over
//! all clauses, where `bb_cnf` follows a chain. Steps that only preserve satisfiability (RAT) are no part of it: they
//! depend on deletions, which are passed over here.
#![tactic(auto)]

mod addition;
mod examination;
mod fault;
pub mod laws;
mod marks;
mod numerals;
mod propagation;
mod reading;
mod refutation;
mod scan;
mod search;
pub mod text_laws;
mod trail;
mod watching;
mod words;

pub use fault::RupFault;
pub use reading::{additions, dimacs};
pub use refutation::{RupAnswer, rup};
pub use std::alloc::AllocError as NoMemory;
