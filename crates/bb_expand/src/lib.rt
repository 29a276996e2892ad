//! Filling black boxes by counterexample-guided synthesis (CEGIS) over clauses. A sample set of input vectors grows
//! until a SAT solver refutes the clauses over it, or gives tables that no vector contradicts. Clauses over all vectors
//! would exceed a budget at about twelve inputs, while few vectors of a wide design decide it: an adder of 64 bits with
//! sixteen boxes needs few of its 2^129.
#![tactic(auto)]

mod cegis;
mod cells;
mod clauses;
mod cones;
mod counterexamples;
mod counting;
mod enumeration;
mod expanded;
mod free;
mod free_cells;
mod free_clauses;
mod free_counting;
mod free_laws;
mod iterations;
mod laws;
mod merge_candidates;
mod merging;
mod numbers;
mod outputs;
mod rows;
mod samples;
mod sampling;
mod search_result;
mod tables;
mod vectors;

pub use cegis::expand;
pub use counting::clause_count;
pub use expanded::{ExpandFault, Expanded};
pub use free_laws::models_are_differences;
pub use laws::{answers_exist, expansions_and_tables, refutations_show_vectors};
