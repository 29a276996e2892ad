//! Any two texts have an answer, under one premise: the clauses over any distinguishing vectors of the pair, if they
//! are within the budget and have no model, have a refutation of fewer than 2^63 steps. An answer holds its steps in a
//! list in memory, which has no more entries, and a budget of clauses allows so many variables that no refutation is
//! known to be that short. The premise is a definition of its own; that some refutation exists is a law without it.

ghost use Rattle.bb_verdict.specs.Laws.InvariantAnswers.{TextsAreAnswered};
ghost use Rattle.bb_verdict.specs.Laws.SomeAnswers.{TextsAreJudged};

use crate::invariant_laws::{made_can_be_unrolled, unrolled_are_meant};
use crate::text_laws::designs_are_allowed;
use bb_bits::number_is_below;
use bb_checks::climbs_exist;
use bb_equiv::laws::{fit_or_refused, fitting_designs_have_pairs};
use bb_fill::answers_exist;
use bb_frontend::texts_have_designs;

/// Either a first refusal, or a pair of the two texts with results of all requested checks.
pub fn texts_are_judged()
    ensures { TextsAreJudged }
{
    designs_are_allowed();
    texts_have_designs();
    fit_or_refused();
    fitting_designs_have_pairs();
    climbs_exist();
    answers_exist();
}

/// Any two texts have an answer, also where an invariant is requested.
pub fn texts_are_answered()
    ensures { TextsAreAnswered }
{
    texts_are_judged();
    made_can_be_unrolled();
    unrolled_are_meant();
    number_is_below();
}
