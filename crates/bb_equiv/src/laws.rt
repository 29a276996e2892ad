//! Laws of equivalence, refusals and pairs of two texts. Each function has a law as its contract and does nothing; it
//! is called in a proof to have the law.

ghost use Rattle.bb_equiv.specs.Inside.LowerLaws.{LowerLaws};
ghost use Rattle.bb_equiv.specs.Laws.Comparable.{FittingDesignsAreComparable};
ghost use Rattle.bb_equiv.specs.Laws.DesignEquivalence.{CareOutputsRequireLess, DesignsAreEquivalentToThemselves};
ghost use Rattle.bb_equiv.specs.Laws.DesignEquivalence.{FittingTablesAreOfBoxes, NoTablesNoContents};
ghost use Rattle.bb_equiv.specs.Laws.DesignEquivalence.{PairsHaveBoxOrders, SharingNarrows, SpelledContentsHaveTables};
ghost use Rattle.bb_equiv.specs.Laws.DesignEquivalence.{SpelledContentsMakeEquivalent, TablesMakeEquivalentAsContents};
ghost use Rattle.bb_equiv.specs.Laws.DesignEquivalence.{TablesSpellContents};
ghost use Rattle.bb_equiv.specs.Laws.DesignRefusals.{DesignRefusalsAreOne, FitOrRefused, FittingDesignsHavePairs};
ghost use Rattle.bb_equiv.specs.Laws.DesignRefusals.{NetsAreTakenAsDesigns, NotFitAndRefused};
ghost use Rattle.bb_equiv.specs.Laws.DesignRefusals.{PairsImplementExactlyFitting};
ghost use Rattle.bb_equiv.specs.Laws.IsomorphicPairs.{PairsForDesignsAreIsomorphic};
ghost use Rattle.bb_equiv.specs.Laws.Mistakes.{FailingVectorsAreMistakes, PairsAreNamed, WrongOutputsAreMistakes};
ghost use Rattle.bb_equiv.specs.Laws.Mistakes.{WrongVectorsAreMistakes};
ghost use Rattle.bb_equiv.specs.Laws.Runs.{ComparableDesignsHaveRuns, EquivalentDesignsRunTheSame};

use bb_bits::rows_are_tables;
use bb_care::laws::{constrained_pairs_are_right, constrained_pairs_stay_isomorphic};
use bb_design::laws::laws_of_designs;
use bb_implements::list_laws::{
    implementing_nets_are_flat, implementing_nets_are_printable, implementing_nets_exist,
    implementing_nets_give_outputs,
};
use bb_implements::naming_laws::{
    boxes_have_heights, followed_inputs_are_one, implementing_nets_are_isomorphic,
    implementing_nets_are_named, implementing_nets_are_named_the_same,
    implementing_nets_have_box_orders,
};
use bb_implements::table_laws::{contents_have_tables, tables_give_outputs, tables_have_contents};
use bb_iso::laws::rearranged_stay_isomorphic;
use bb_match::laws::{
    causes_are_ranked, compared_are_the_others, fitting_have_kept_pair, fitting_have_pair,
    fitting_nets_have_their_outputs, flat_nets_have_cuts_apart, pairs_are_kept, pairs_fit,
    without_outputs_are_flat,
};
use bb_net::{
    BoxName, BoxPins, keys_have_kinds, kinds_are_shown, rearranged_keeps_values, tables_are_spread,
    value_goes_by_boxes,
};

// Most laws below rest on the same dozen laws of lower crates, which this states as one premise.
pub(crate) fn lower_laws()
    ensures { LowerLaws }
{
    value_goes_by_boxes();
    rearranged_keeps_values();
    implementing_nets_give_outputs();
    tables_give_outputs();
    contents_have_tables();
    tables_have_contents();
    flat_nets_have_cuts_apart();
    fitting_nets_have_their_outputs();
    compared_are_the_others();
    without_outputs_are_flat();
    pairs_are_kept();
    constrained_pairs_are_right();
}

/// Tables suit the pair of two sound designs exactly where the contents whose tables they are make the designs
/// equivalent: this is what makes a check on netlists a verdict on designs.
pub fn tables_make_equivalent_as_contents()
    ensures { TablesMakeEquivalentAsContents }
{
    lower_laws();
}

/// No tables, one for each sharing class, suit such a pair exactly where no contents make the designs equivalent.
pub fn no_tables_no_contents()
    ensures { NoTablesNoContents }
{
    lower_laws();
    rows_are_tables();
    implementing_nets_have_box_orders();
    tables_are_spread();
}

/// Tables that fit the first boxes of all classes are tables of these, so bits of tables may be counted for first boxes
/// alone.
pub fn fitting_tables_are_of_boxes()
    ensures { FittingTablesAreOfBoxes }
{
    kinds_are_shown::<BoxName>();
    kinds_are_shown::<BoxPins>();
}

/// The pair of two sound designs has the boxes of the implementation in the order of their dependence, which is defined
/// on designs: so reports do not depend on the netlist.
pub fn pairs_have_box_orders()
    ensures { PairsHaveBoxOrders }
{
    implementing_nets_have_box_orders();
}

/// Tables that fit the first boxes of all classes spell contents that may fill the design, so the tables of a report
/// say what to put into the boxes.
pub fn tables_spell_contents()
    ensures { TablesSpellContents }
{
    lower_laws();
    rows_are_tables();
    implementing_nets_have_box_orders();
    tables_are_spread();
}

/// Where tables suit, so do all contents that they spell: what contents are at paths without a box does not matter.
pub fn spelled_contents_make_equivalent()
    ensures { SpelledContentsMakeEquivalent }
{
    lower_laws();
    rows_are_tables();
    implementing_nets_have_box_orders();
    tables_are_spread();
}

/// Contents that tables spell have them as tables again, one for each box, so nothing is lost in between.
pub fn spelled_contents_have_tables()
    ensures { SpelledContentsHaveTables }
{
    lower_laws();
    rows_are_tables();
    implementing_nets_have_box_orders();
    tables_are_spread();
}

/// Netlists that implement two sound designs fit, and are refused, as these do and are: refusals are found on netlists
/// and defined on designs.
pub fn nets_are_taken_as_designs()
    ensures { NetsAreTakenAsDesigns }
{
    implementing_nets_have_box_orders();
    implementing_nets_are_named();
    followed_inputs_are_one();
}

/// Two designs have one first refusal at most, so what is reported of them is a function of the two.
pub fn design_refusals_are_one()
    ensures { DesignRefusalsAreOne }
{
    causes_are_ranked();
}

/// No two designs fit and have a refusal, so a refusal excludes every verdict.
pub fn not_fit_and_refused()
    ensures { NotFitAndRefused }
{}

/// Two designs fit or have a first refusal. The specification has to be sound: where boxes depend on each other in a
/// circle, none of them is the first to be reported.
pub fn fit_or_refused()
    ensures { FitOrRefused }
{
    boxes_have_heights();
    causes_are_ranked();
}

/// Only designs that fit have a pair, and where they do, flat netlists that implement them have one: a refusal is
/// reported for no other reason.
pub fn pairs_implement_exactly_fitting()
    ensures { PairsImplementExactlyFitting }
{
    nets_are_taken_as_designs();
    pairs_fit();
    fitting_have_pair();
}

/// Two sound designs that fit have a pair, so a law about their pairs is about something.
pub fn fitting_designs_have_pairs()
    ensures { FittingDesignsHavePairs }
{
    implementing_nets_exist();
    implementing_nets_are_flat();
    implementing_nets_are_printable();
    nets_are_taken_as_designs();
    fitting_have_kept_pair();
}

/// Two sound designs that fit can be compared, and some contents may fill the boxes, so equivalence is not vacuous:
/// each vector has a world.
pub fn fitting_designs_are_comparable()
    ensures { FittingDesignsAreComparable }
{
    laws_of_designs();
    lower_laws();
    fitting_designs_have_pairs();
    tables_spell_contents();
}

/// Contents that are shared are some of those that fit, so what refutes all contents refutes shared ones too.
pub fn sharing_narrows()
    ensures { SharingNarrows }
{}

/// Equivalence at every vector implies equivalence where a care output is 1, which is what is requested with one.
pub fn care_outputs_require_less()
    ensures { CareOutputsRequireLess }
{}

/// A sanity check of the definition: a design is equivalent to itself, whatever fits its boxes.
pub fn designs_are_equivalent_to_themselves()
    ensures { DesignsAreEquivalentToThemselves }
{
    lower_laws();
}

/// Pairs of the same two sound designs are isomorphic. This is why two runs of elaboration, with cells in other orders,
/// give one report.
pub fn pairs_for_designs_are_isomorphic()
    ensures { PairsForDesignsAreIsomorphic }
{
    keys_have_kinds();
    rearranged_stay_isomorphic();
    flat_nets_have_cuts_apart();
    pairs_are_kept();
    without_outputs_are_flat();
    constrained_pairs_stay_isomorphic();
    implementing_nets_are_named_the_same();
    implementing_nets_are_isomorphic();
}

/// Soundness of checks of one output: where it is always wrong at a vector, this vector shows a mistake of the designs
/// there.
pub fn wrong_outputs_are_mistakes()
    ensures { WrongOutputsAreMistakes }
{
    lower_laws();
}

/// Soundness of checks of all outputs: where at a vector some output is wrong for each choice of box outputs, not
/// always the same one, this vector shows a mistake.
pub fn wrong_vectors_are_mistakes()
    ensures { WrongVectorsAreMistakes }
{
    lower_laws();
}

/// Soundness of a refutation by several vectors: where each choice of tables fails at one of them, these show mistakes
/// of the designs.
pub fn failing_vectors_are_mistakes()
    ensures { FailingVectorsAreMistakes }
{
    lower_laws();
    rows_are_tables();
    implementing_nets_have_box_orders();
    tables_are_spread();
}

/// Inputs and outputs of a pair have the names of those of the specification that are compared, in their order, so a
/// name in a report is one of the text.
pub fn pairs_are_named()
    ensures { PairsAreNamed }
{
    compared_are_the_others();
}

/// What equivalence means over clock cycles: from equal states the designs behave the same, whatever events come; with
/// a care output, as long as it is 1.
pub fn equivalent_designs_run_the_same()
    ensures { EquivalentDesignsRunTheSame }
{}

/// Two designs that can be compared have runs, whatever events come, so the law above is not vacuous.
pub fn comparable_designs_have_runs()
    ensures { ComparableDesignsHaveRuns }
{}
