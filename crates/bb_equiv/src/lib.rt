//! Equivalence of two designs, their refusals, and their pairs, as definitions and laws; none depends on which netlists
//! implement the designs.
//!
//! This is above both bb_implements and bb_match: equivalence is defined by the worlds of designs, of which a pair of
//! netlists knows nothing, and laws here tie the two together.
#![tactic(auto)]

pub mod counterexamples;
pub mod invariant_laws;
pub mod laws;
