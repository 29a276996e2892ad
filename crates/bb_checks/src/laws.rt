//! Laws of the results of checks. Each function has a law as its contract and does nothing. Two laws say when a
//! question is open: what an open result implies, and what makes a result open whatever the search does. They differ at
//! the expansion alone, where some distinguishing vectors may need more clauses than the budget and others decide: with
//! one condition for both, a search among vectors could decide no such pair. What decides is a third condition, so that
//! completeness is a law of its own: a check that decides leaves nothing open.

ghost use Rattle.bb_checks.specs.Laws.{ErrorsExcludeTables, RepairsMakeEquivalent, GivenTablesMakeEquivalent};
ghost use Rattle.bb_checks.specs.Laws.{LinesFixTables, TextsFixTables, ClimbsAreReported, ClimbsLeaveOpen};
ghost use Rattle.bb_checks.specs.Laws.{StayingOpenIsReported, StayingOpenIsLeftOpen, TablesAreGivenOnce};
ghost use Rattle.bb_checks.specs.Laws.{LeftOpenStaysOpen, DecidersDecide, ErrorsStay, ClimbsReportTheSame};
ghost use Rattle.bb_checks.specs.Laws.SomeClimbs.{ClimbsExist};
ghost use Rattle.bb_checks.specs.Laws.ShownVectors.{FoundVectorsAreMistakes, InputLinesFixVectors};
ghost use Rattle.bb_checks.specs.Laws.ShownVectors.{ProofTextsFixVectors};

use crate::isomorphism_laws::isomorphic_climbs_report_the_same;
use crate::kind_laws::kind_laws;
use bb_bits::truth;
use bb_net::{conditions_weaken, hit_or_none, known_is_value};
use bb_sym::laws::findings_exist;
use bb_tern::laws::patterns_are_vectors;

/// After an error of any check no tables, one for each sharing class, make the designs equivalent.
pub fn errors_exclude_tables()
    ensures { ErrorsExcludeTables }
{
    kind_laws();
    conditions_weaken();
    patterns_are_vectors();
}

/// With the verdict `repairable` the report ends with tables that make the pair equivalent.
pub fn repairs_make_equivalent()
    ensures { RepairsMakeEquivalent }
{
    kind_laws();
}

/// Tables that any check reports make the pair equivalent.
pub fn given_tables_make_equivalent()
    ensures { GivenTablesMakeEquivalent }
{
    kind_laws();
}

/// Holds since the checks end after the first that gives tables.
pub fn tables_are_given_once()
    ensures { TablesAreGivenOnce }
{}

/// The printed lines determine the tables, so a verdict on tables is one on what is printed.
pub fn lines_fix_tables()
    ensures { LinesFixTables }
{
    kind_laws();
}

/// A report ends with the lines of one list of tables and of no other.
pub fn texts_fix_tables()
    ensures { TextsFixTables }
{
    kind_laws();
}

/// The printed line determines the vector.
pub fn input_lines_fix_vectors()
    ensures { InputLinesFixVectors }
{}

/// The printed proof determines its vectors, so that they can be simulated.
pub fn proof_texts_fix_vectors()
    ensures { ProofTextsFixVectors }
{}

/// The reported output is wrong at the vector, whatever the boxes contain; where none is reported, some output is.
pub fn found_vectors_are_mistakes()
    ensures { FoundVectorsAreMistakes }
{
    patterns_are_vectors();
    known_is_value();
}

/// Outputs and vectors that checks find have names in the pair: the precondition of `report`.
pub fn climbs_are_reported()
    ensures { ClimbsAreReported }
{
    kind_laws();
    patterns_are_vectors();
}

/// Without an error and without tables each requested check leaves the question open.
pub fn climbs_leave_open()
    ensures { ClimbsLeaveOpen }
{}

/// If the question stays open with each requested check, the verdict is `open`.
pub fn staying_open_is_reported()
    ensures { StayingOpenIsReported }
{}

/// The two conditions on open questions coincide but for what may depend on the search.
pub fn left_open_stays_open()
    ensures left { StayingOpenIsLeftOpen }
    ensures stays { LeftOpenStaysOpen }
{}

/// Completeness: a requested check that decides leaves no question open.
pub fn deciders_decide()
    ensures { DecidersDecide }
{}

/// After an error no later check reports `none` or tables: each check finds every error that the ones before it find.
pub fn errors_stay()
    ensures { ErrorsStay }
{
    kind_laws();
    conditions_weaken();
    patterns_are_vectors();
}

/// The result is one up to the details of the expansion and what may depend on the search.
pub fn climbs_report_the_same()
    ensures { ClimbsReportTheSame }
{
    isomorphic_climbs_report_the_same();
}

/// There is a possible result for each requested check, so no clause on results is empty.
pub fn climbs_exist()
    ensures { ClimbsExist }
{
    truth::sizes();
    patterns_are_vectors();
    hit_or_none();
    findings_exist();
    bb_nest::answers_exist();
    bb_expand::answers_exist();
}
