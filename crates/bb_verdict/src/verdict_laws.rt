//! Laws of refuted pairs of texts. That two designs can be compared is part of being refuted, since contents can be
//! said to differ of any two designs. A bit that nothing drives, a loop, or boxes that nothing fits make no error: each
//! vector must have a world in both designs, with one bit at each output, and something must fit. Each function has a
//! law as its contract and does nothing.

ghost use Rattle.bb_verdict.specs.Laws.TextPairs.{FittingAreRefutedByDesigns, NotFinishedAndRefuted, RefutedAreSeen};
ghost use Rattle.bb_verdict.specs.Laws.TextPairs.{RefutedHaveCounterexamples};

use crate::text_laws::designs_are_allowed;
use bb_equiv::counterexamples::{counterexamples_exist, events_show_counterexamples};
use bb_frontend::texts_have_designs;

/// The designs that fit and those that are refuted are the same two, since a text has one design under its top.
pub fn fitting_are_refuted_by_designs()
    ensures { FittingAreRefutedByDesigns }
{
    texts_have_designs();
}

/// A refuted pair has, for any contents of the boxes, a vector at which the designs differ.
pub fn refuted_have_counterexamples()
    ensures { RefutedHaveCounterexamples }
{
    counterexamples_exist();
}

/// Where the two also fit, an event of a run shows the difference, for any contents.
pub fn refuted_are_seen()
    ensures { RefutedAreSeen }
{
    texts_have_designs();
    designs_are_allowed();
    counterexamples_exist();
    events_show_counterexamples();
}

/// Holds whatever the bounds of the two calls, so running again with larger ones never contradicts a verdict.
pub fn not_finished_and_refuted()
    ensures { NotFinishedAndRefuted }
{
    texts_have_designs();
}
