//! Clauses, resolution (Robinson, 1965), and a checker of refutations. Where a refutation comes from does not matter:
//! where the checker accepts, no assignment satisfies the clauses. A proof is a list of resolution chains, and each
//! chain names its clauses and its variables in order, so the checker follows and never searches; the price is that the
//! solver has to write down each resolution.
#![tactic(auto)]

mod checker;
mod clauses;
pub mod laws;
mod marks;
mod partial_resolvent;
mod printer;
mod refutation;

pub use checker::check;
pub use clauses::{Cnf, Lit};
pub use partial_resolvent::PartialResolvent;
pub use printer::print;
pub use refutation::{Refutation, Step};
pub use std::alloc::AllocError as NoMemory;
