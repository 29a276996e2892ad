//! Laws of refusals, of pairs and of cut points. Each function has a law as its contract and does nothing.

ghost use Rattle.bb_match.specs.Laws.{CausesAreRanked, NotFitAndRefused, FirstRefusalsAreOne, FitOrRefused};
ghost use Rattle.bb_match.specs.Laws.{ComparedAreTheOthers, CareIsTakenOut, CareOutputsAreLeftOut, PairsAreOne};
ghost use Rattle.bb_match.specs.Laws.{PairsFit, FittingHavePair, FittingHaveKeptPair, PairsAreKept};
ghost use Rattle.bb_match.specs.Laws.{FlatNetsHaveCutsApart, WithoutOutputsAreFlat, FittingNetsHaveTheirOutputs};

use bb_care::laws::constrained_pairs_are_pairs;
use bb_net::{keys_are_shown, keys_have_kinds, kinds_may_differ, rearranged_nets_exist};

/// Causes have ranks, so that the first cause is a function of the netlists.
pub fn causes_are_ranked()
    ensures { CausesAreRanked }
{}

/// No two netlists fit and are refused; with `fit_or_refused`, exactly those that do not fit are refused.
pub fn not_fit_and_refused()
    ensures { NotFitAndRefused }
{}

/// Two netlists have one first refusal at most, so what is reported does not depend on how it is found.
pub fn first_refusals_are_one()
    ensures { FirstRefusalsAreOne }
{}

/// Two netlists fit or have a first refusal: no pair is refused without a cause.
pub fn fit_or_refused()
    ensures { FitOrRefused }
{}

/// The outputs that are compared with a care output are all others, so no further output escapes comparison.
pub fn compared_are_the_others()
    ensures { ComparedAreTheOthers }
{}

/// Why care outputs need no causes of their own but `NoCare`: with one, netlists fit, and are refused, as they do and
/// are without it where none is requested.
pub fn care_is_taken_out()
    ensures { CareIsTakenOut }
{}

/// Where two netlists fit with a care output, the implementation has none of its name: it would be compared with
/// nothing.
pub fn care_outputs_are_left_out()
    ensures { CareOutputsAreLeftOut }
{}

/// Two netlists have one pair at most, so a verdict on their pair is one on them.
pub fn pairs_are_one()
    ensures { PairsAreOne }
{
    keys_have_kinds();
}

/// Two netlists that have a pair fit.
pub fn pairs_fit()
    ensures { PairsFit }
{}

/// Two netlists that fit have a pair within the bounds of pairs, which follow from those of flat netlists and the
/// causes.
pub fn fitting_have_kept_pair()
    ensures { FittingHaveKeptPair }
{
    rearranged_nets_exist();
    keys_have_kinds();
    keys_are_shown();
    kinds_may_differ();
    constrained_pairs_are_pairs();
}

/// Two netlists that fit have a pair, so `pair` refuses nothing but for a cause.
pub fn fitting_have_pair()
    ensures { FittingHavePair }
{
    fitting_have_kept_pair();
}

/// Gives the invariant of pairs to a proof that has the netlists alone.
pub fn pairs_are_kept()
    ensures { PairsAreKept }
{
    pairs_are_one();
    pairs_fit();
    fitting_have_kept_pair();
}

/// Nothing is twice among the cut inputs of a flat netlist, nor among its cut outputs, so a kind and a name identify
/// one.
pub fn flat_nets_have_cuts_apart()
    ensures { FlatNetsHaveCutsApart }
{}

/// A flat netlist without one output of the top is one too, so a care output can be taken out before pairing.
pub fn without_outputs_are_flat()
    ensures { WithoutOutputsAreFlat }
{}

/// Where two netlists fit, each cut output of the implementation is one of the specification; the converse is part of
/// what a pair is.
pub fn fitting_nets_have_their_outputs()
    ensures { FittingNetsHaveTheirOutputs }
{}
