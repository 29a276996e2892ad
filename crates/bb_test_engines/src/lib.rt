//! Tests of names, tables, patterns, BDDs, clauses and the solver, through the public calls of their crates, of what no
//! report shows. Calls with many premises are made by small functions that test them, so that a table of calls owes no
//! proof.
#![tactic(auto)]

#[cfg(test)]
mod clause_tests;
#[cfg(test)]
mod diagram_calls;
#[cfg(test)]
mod diagram_tests;
#[cfg(test)]
mod pattern_tests;
#[cfg(test)]
mod solver_tests;
#[cfg(test)]
mod store_tests;
#[cfg(test)]
mod table_tests;
#[cfg(test)]
mod words;
