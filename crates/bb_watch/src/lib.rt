//! Propagation by two watched literals a clause (Moskewicz et al., Chaff, 2001), for the solver and for the checker of
//! additions. Its results are hints: it is promised only that a call ends and reads no place that is not there, and
//! each caller examines a clause that it names. So the lists need no invariant and no proof, and a mistake in them
//! would cost time and no answer.
#![tactic(auto)]

mod clauses;
mod codes;
mod copies;
mod false_literals;
mod numbers;
mod propagator;
mod watch_lists;

pub use clauses::{Clauses, clause_at};
pub use numbers::{read, write};
pub use propagator::{Found, Propagator, Side};
pub use std::alloc::AllocError as NoMemory;
