//! Laws of comparisons with an invariant. Each function has a law as its contract and does nothing.

ghost use Rattle.bb_verdict.specs.Inside.Unrolled.{MadeCanBeUnrolled, UnrolledAreMeant};
ghost use Rattle.bb_verdict.specs.Laws.InvariantAnswers.{AnswersHaveOneStatus, AnswersNeverClash};
ghost use Rattle.bb_verdict.specs.Laws.InvariantAnswers.{AnswersToTextsAreMeant, BrokenAreLeftOpen};

use crate::text_laws::{
    answers_are_meant, designs_are_allowed, no_pair_and_refusal, refusals_are_one, statuses_are_one,
};
use bb_equiv::invariant_laws::{
    broken_are_broken, invariants_are_not_broken, invariants_hold_in_runs, kept_are_invariants,
};
use bb_equiv::laws::{
    fitting_designs_have_pairs, nets_are_taken_as_designs, pairs_are_named,
    pairs_implement_exactly_fitting,
};
use bb_frontend::texts_have_designs;

/// The specification of a pair can be unrolled, and has the invariant among its outputs.
pub(crate) fn made_can_be_unrolled()
    ensures { MadeCanBeUnrolled }
{
    designs_are_allowed();
    texts_have_designs();
    nets_are_taken_as_designs();
    pairs_implement_exactly_fitting();
    pairs_are_named();
}

/// What is found out about its unrolled netlist is an answer to the two texts.
pub(crate) fn unrolled_are_meant()
    ensures { UnrolledAreMeant }
{
    designs_are_allowed();
    texts_have_designs();
    pairs_implement_exactly_fitting();
    pairs_are_named();
    kept_are_invariants();
    broken_are_broken();
}

/// One law for all answers, with and without an invariant: what each status means, and that it comes where it is due.
pub fn answers_to_texts_are_meant()
    ensures { AnswersToTextsAreMeant }
{
    designs_are_allowed();
    answers_are_meant();
    refusals_are_one();
    no_pair_and_refusal();
    texts_have_designs();
    pairs_implement_exactly_fitting();
    invariants_hold_in_runs();
}

/// With and without an invariant, the status does not depend on which netlists are made, unless a kept invariant is in
/// doubt or the answer of the checks may depend on the search; and there too 0 and 1 never contradict each other. Where
/// an event breaks the invariant, texts that fit are left open, whatever the budgets are.
pub fn answers_have_one_status()
    ensures one { AnswersHaveOneStatus }
    ensures clash { AnswersNeverClash }
    ensures broken { BrokenAreLeftOpen }
{
    designs_are_allowed();
    texts_have_designs();
    fitting_designs_have_pairs();
    no_pair_and_refusal();
    invariants_are_not_broken();
    statuses_are_one();
    answers_to_texts_are_meant();
}
