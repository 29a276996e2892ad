//! Laws of nested boxes and of the answers, as contracts of empty functions: crates above call a function and cite no
//! proof of this one.

ghost use Rattle.bb_nest.specs.Inside.LawsBelow.{LawsBelow};
ghost use Rattle.bb_nest.specs.Laws.{CellsAreSeen, SinglesAreNested, SinglesAnswerTheSame, NestedChoicesAreTables};
ghost use Rattle.bb_nest.specs.Laws.{NestedAreDecided, OneAnswer, AnswersExist};

use bb_bits::{
    number_is_below, number_spelled, number_spelled_once, rows_are_chosen, rows_are_tables,
};
use bb_net::{
    conditions_hold_or_not, conditions_weaken, value_exists, value_goes_by_boxes,
    vectors_hold_or_not,
};

/// Nested by cells implies nested.
pub fn cells_are_seen()
    ensures { CellsAreSeen }
{}

/// A lone box has no earlier pins to see.
pub fn singles_are_nested()
    ensures { SinglesAreNested }
{}

/// So `bb_checks` needs no case by the number of boxes: `input` and `nest` agree up to one box.
pub fn singles_answer_the_same()
    ensures { SinglesAnswerTheSame }
{
    conditions_weaken();
    conditions_hold_or_not();
}

/// The direction that lets the tables be printed.
pub fn nested_choices_are_tables()
    ensures { NestedChoicesAreTables }
{
    laws_of_tables();
}

/// No choices suit exactly where no tables agree, so for nested boxes the check by choices is complete.
pub fn nested_are_decided()
    ensures { NestedAreDecided }
{
    laws_of_tables();
    conditions_weaken();
}

/// An error excludes tables, and each row is unique: the least that suits, read at the first pin that sees.
pub fn answers_are_one()
    ensures { OneAnswer }
{
    number_spelled();
    number_spelled_once();
    rows_are_tables();
    conditions_weaken();
}

/// Every pair has an answer, without a bound on nodes.
pub fn answers_exist()
    ensures { AnswersExist }
{
    laws_of_tables();
    conditions_hold_or_not();
}

// Laws that most lemmas here need together.
pub(crate) fn laws_of_tables()
    ensures { LawsBelow }
{
    number_is_below();
    number_spelled();
    number_spelled_once();
    rows_are_chosen();
    rows_are_tables();
    value_exists();
    value_goes_by_boxes();
    vectors_hold_or_not();
}
