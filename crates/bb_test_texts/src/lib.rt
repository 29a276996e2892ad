//! Tests of the readers of texts and words, through their public calls, of what no report shows: tokens, trees of
//! syntax, nets, clauses, requests. What a report shows, as each first fault, is a row of bb_test_cases. A crate with
//! tests is proved twice, so tests have crates of their own; tables are texts with a row in each line, since each
//! element of an array in code costs proof.
#![tactic(auto)]

#[cfg(test)]
mod dimacs_tests;
#[cfg(test)]
mod expression_printing;
#[cfg(test)]
mod lex_tests;
#[cfg(test)]
mod make_tests;
#[cfg(test)]
mod net_tests;
#[cfg(test)]
mod parse_tests;
#[cfg(test)]
mod printing;
#[cfg(test)]
mod reading;
#[cfg(test)]
mod tables;
#[cfg(test)]
mod word_tests;
