//! Laws of the answers and of the stages, as contracts of empty functions: crates above call a function and cite no
//! proof of this one.

ghost use Rattle.bb_sym.specs.Laws.{HoldsSpecification};
ghost use Rattle.bb_input.specs.InputFunctions.{input_functions};
ghost use Rattle.bb_input.specs.Laws.{OneAnswer, AnswersExist, StagesSay, LastReports};

use bb_bits::{
    number_is_below, number_spelled, number_spelled_once, rows_are_chosen, rows_are_tables, truth,
};
use bb_net::{conditions_hold_or_not, conditions_weaken, value_goes_by_boxes, vectors_hold_or_not};
use bb_sym::laws;

/// An error excludes tables, and each row is the only least one; so two calls on one pair agree.
pub fn answers_are_one()
    ensures { OneAnswer }
{
    number_spelled();
    number_spelled_once();
    rows_are_tables();
    conditions_weaken();
}

/// Every pair has an answer, without a bound on nodes.
pub fn answers_exist()
    ensures { AnswersExist }
{
    truth::quantifiers();
    laws::functions();
    laws::points();
    number_is_below();
    number_spelled();
    number_spelled_once();
    rows_are_tables();
    rows_are_chosen();
    value_goes_by_boxes();
    vectors_hold_or_not();
    conditions_hold_or_not();
}

/// The stage of box `b` is 0 exactly where the boxes after `b` can be filled, the pins up to its own having the bits of
/// the point.
pub fn stages_say()
    ensures { StagesSay }
{
    truth::quantifiers();
    truth::tables();
    laws::functions();
}

/// The last stage has no pins left: it is constant.
pub fn last_reports()
    ensures { LastReports }
{
    truth::quantifiers();
    truth::tables();
    laws::functions();
}

/// So the shortcut of `bb_sym::specification_exceeds` is sound for this check too.
pub fn specification_counts()
    ensures { HoldsSpecification input_functions }
{
    laws::specification_counts();
}
