//! The checks on a pair, one after another: which ones run, the result of each, and the report. They are a crate of
//! their own, above all checks and below the texts, so that a further check adds a case to one relation and to a law
//! here, and no clause of the top call changes.
#![tactic(auto)]

mod bits;
mod climbing;
mod isomorphism_laws;
mod kind_laws;
mod laws;
mod line;
mod proof_lines;
mod reporting;
mod specification;
mod table_lines;
mod verdict;

pub use bb_options::{Options, Rung};
pub use climbing::climb;
pub use isomorphism_laws::{
    isomorphic_climbs_report_the_same, isomorphic_pairs_are_decided,
    isomorphic_pairs_are_left_open, isomorphic_pairs_are_reported,
    isomorphic_pairs_have_one_report, isomorphic_pairs_never_clash,
};
pub use laws::{
    climbs_are_reported, climbs_exist, climbs_leave_open, climbs_report_the_same, deciders_decide,
    errors_exclude_tables, errors_stay, found_vectors_are_mistakes, given_tables_make_equivalent,
    input_lines_fix_vectors, left_open_stays_open, lines_fix_tables, proof_texts_fix_vectors,
    repairs_make_equivalent, staying_open_is_reported, tables_are_given_once, texts_fix_tables,
};
pub use line::{CheckResult, Evidence, Line, Proof};
pub use reporting::{push_inputs, report};
pub use verdict::{Verdict, given_tables, verdict_of};
