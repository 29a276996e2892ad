//! Laws of two texts: at most one refusal, never a refusal and a pair, and the meaning of each answer. They are the
//! bridge from netlists to texts: each lemma below speaks of designs or of netlists, and only here they are put
//! together, so the top call cites these alone. Each function has a law as its contract and does nothing.

ghost use Rattle.bb_verdict.specs.FilledTexts.{NoTablesFollow};
ghost use Rattle.bb_verdict.specs.Inside.Made.{MadeCanBeFilled};
ghost use Rattle.bb_verdict.specs.Laws.FilledNets.{FilledNetsImplement};
ghost use Rattle.bb_verdict.specs.Laws.TextAnswers.{AnsweredFit, DecidedAreAnswered, ErrorsAreShown, ErrorsRefute};
ghost use Rattle.bb_verdict.specs.Laws.TextAnswers.{FillingOnlyAdds, JudgedRefusalsAreFirst, OpenAnswersAreReports};
ghost use Rattle.bb_verdict.specs.Laws.TextAnswers.{OpenAnswersLeaveOpen, RefusedAreAnsweredOnce, RepairsFinish};
ghost use Rattle.bb_verdict.specs.Laws.TextAnswers.{ReportsAreOne, ReportsBeginAsOne, StatusesAreOne};
ghost use Rattle.bb_verdict.specs.Laws.TextAnswers.{StatusesNeverClash, StayingOpenAreAnswered};
ghost use Rattle.bb_verdict.specs.Laws.TextPairs.{DesignsAreAllowed, FilledTextsFinish, LargeTextsAreOfLargeDesigns};
ghost use Rattle.bb_verdict.specs.Laws.TextPairs.{NotPairAndRefusal, RefusalsAreOne, TextPairsAreIsomorphic};

use bb_checks::{
    climbs_leave_open, deciders_decide, errors_exclude_tables, found_vectors_are_mistakes,
    given_tables_make_equivalent, isomorphic_pairs_are_decided, isomorphic_pairs_are_left_open,
    isomorphic_pairs_have_one_report, left_open_stays_open, repairs_make_equivalent,
    staying_open_is_reported, tables_are_given_once,
};
use bb_design::laws::sound_texts_are_allowed;
use bb_equiv::laws::{
    design_refusals_are_one, equivalent_designs_run_the_same, failing_vectors_are_mistakes,
    fitting_designs_are_comparable, fitting_tables_are_of_boxes, no_tables_no_contents,
    not_fit_and_refused, pairs_are_named, pairs_for_designs_are_isomorphic, pairs_have_box_orders,
    pairs_implement_exactly_fitting, spelled_contents_have_tables,
    spelled_contents_make_equivalent, tables_make_equivalent_as_contents, tables_spell_contents,
    wrong_outputs_are_mistakes, wrong_vectors_are_mistakes,
};
use bb_expand::refutations_show_vectors;
use bb_fill::{answers_exist, lines_are_few, texts_are_short};
use bb_frontend::texts_have_designs;
use bb_implements::list_laws::{implementing_nets_give_outputs, nets_are_no_larger};
use bb_implements::naming_laws::{followed_inputs_are_one, implementing_nets_have_box_orders};
use bb_implements::table_laws::{tables_give_outputs, tables_have_contents};
use bb_net::tables_are_spread;
use bb_parse::laws::sources_are_formed;
use bb_readback::{
    filled_designs_are_named_the_same, filled_designs_are_sound, filled_designs_have_bits,
    filled_modules_are_sound, filled_modules_are_tops, filled_texts_are_read,
};

/// The designs of texts meet the preconditions of laws of designs, since the reader promises what those need.
pub fn designs_are_allowed()
    ensures { DesignsAreAllowed }
{
    sources_are_formed();
    sound_texts_are_allowed();
}

/// The refusal is a function of the two texts: all flat netlists of one design name everything alike, in one order.
pub fn refusals_are_one()
    ensures { RefusalsAreOne }
{
    designs_are_allowed();
    texts_have_designs();
    design_refusals_are_one();
}

/// The two outcomes exclude each other: texts with a refusal have no pair.
pub fn no_pair_and_refusal()
    ensures { NotPairAndRefusal }
{
    designs_are_allowed();
    texts_have_designs();
    pairs_implement_exactly_fitting();
    not_fit_and_refused();
}

/// Several pairs may be made of two texts, with cells in different orders; they are isomorphic.
pub fn text_pairs_are_isomorphic()
    ensures { TextPairsAreIsomorphic }
{
    designs_are_allowed();
    texts_have_designs();
    pairs_for_designs_are_isomorphic();
}

/// What `pair_of` keeps meets the preconditions of filling.
pub(crate) fn made_can_be_filled()
    ensures { MadeCanBeFilled }
{
    tables_are_spread();
}

/// The filled text finishes the design: it is equivalent where that is requested, passes as an implementation, and runs
/// as the specification does.
pub fn filled_texts_finish()
    ensures { FilledTextsFinish }
{
    designs_are_allowed();
    filled_texts_are_read();
    filled_modules_are_sound();
    filled_modules_are_tops();
    filled_designs_are_sound();
    filled_designs_are_named_the_same();
    filled_designs_have_bits();
    pairs_implement_exactly_fitting();
    fitting_designs_are_comparable();
    equivalent_designs_run_the_same();
    tables_make_equivalent_as_contents();
    tables_have_contents();
    tables_give_outputs();
    implementing_nets_give_outputs();
    followed_inputs_are_one();
    tables_are_spread();
    spelled_contents_have_tables();
}

/// That the text would be too large is a fact about the design: whichever bound it exceeds, the design has many nets or
/// long names. The cells of its netlist are no more than its own, and the boxes are the same.
pub fn large_texts_are_of_large_designs()
    ensures { LargeTextsAreOfLargeDesigns }
{
    designs_are_allowed();
    tables_are_spread();
    nets_are_no_larger();
    implementing_nets_have_box_orders();
    lines_are_few();
    texts_are_short();
}

/// Each flat netlist of the filled text has the names of the netlist that was filled, no box, and its bits with the
/// tables in its boxes. That there is one is not said.
pub fn filled_nets_implement()
    ensures { FilledNetsImplement }
{
    filled_texts_are_read();
    sources_are_formed();
    filled_modules_are_sound();
    filled_modules_are_tops();
    filled_designs_are_sound();
    sound_texts_are_allowed();
    filled_designs_are_named_the_same();
    filled_designs_have_bits();
    tables_give_outputs();
    implementing_nets_give_outputs();
    followed_inputs_are_one();
}

/// So the tables of a report are those before its verdict, also with a filled implementation after it.
pub fn no_tables_follow()
    ensures { NoTablesFollow }
{}

/// An answer without the filled implementation is a prefix of one with it.
pub fn filling_only_adds()
    ensures { FillingOnlyAdds }
{
    answers_exist();
}

/// One law for each status, in both directions: the status means this, and comes where this holds.
pub fn answers_are_meant()
    // A status other than 2 means that the texts fit.
    ensures fit { AnsweredFit }
    // Errors are reported only where no contents make the designs equivalent, and their vectors show it. Tables are
    // reported only where all contents that they spell do, so that the two designs run alike whatever events come;
    // where it is requested, the filled implementation follows, or why there is none, which is a cause in the design.
    ensures errors { ErrorsRefute }
    ensures shown { ErrorsAreShown }
    ensures repairs { RepairsFinish }
    // An open answer means that each requested check leaves the question open; where it stays open with each, the
    // answer is open, and where one decides, it is not.
    ensures opens { OpenAnswersLeaveOpen }
    ensures open_reports { OpenAnswersAreReports }
    ensures stays_open { StayingOpenAreAnswered }
    ensures decided { DecidedAreAnswered }
    // Status 2 comes with the first refusal, and where there is a refusal, its line is the only answer.
    ensures refusals { JudgedRefusalsAreFirst }
    ensures refused { RefusedAreAnsweredOnce }
{
    designs_are_allowed();
    refusals_are_one();
    no_pair_and_refusal();
    text_pairs_are_isomorphic();
    errors_exclude_tables();
    no_tables_no_contents();
    found_vectors_are_mistakes();
    given_tables_make_equivalent();
    wrong_outputs_are_mistakes();
    wrong_vectors_are_mistakes();
    pairs_are_named();
    failing_vectors_are_mistakes();
    refutations_show_vectors();
    repairs_make_equivalent();
    tables_are_given_once();
    no_tables_follow();
    filled_texts_finish();
    large_texts_are_of_large_designs();
    tables_spell_contents();
    spelled_contents_make_equivalent();
    pairs_implement_exactly_fitting();
    fitting_designs_are_comparable();
    equivalent_designs_run_the_same();
    pairs_have_box_orders();
    fitting_tables_are_of_boxes();
    isomorphic_pairs_are_left_open();
    climbs_leave_open();
    staying_open_is_reported();
    isomorphic_pairs_are_decided();
    deciders_decide();
}

/// The status does not depend on which pair is made, unless the answer is open and may depend on the counterexample
/// search; and there too 0 and 1 never contradict each other.
pub fn statuses_are_one()
    ensures one { StatusesAreOne }
    ensures clash { StatusesNeverClash }
{
    texts_have_designs();
    no_pair_and_refusal();
    left_open_stays_open();
    answers_are_meant();
}

/// Nor does the report, but for the details of the expansion, and its line where it may depend on the search. The lines
/// before it are the same in any case. Any correct tables will do, so the expansion's are free.
pub fn reports_are_one()
    ensures one { ReportsAreOne }
    ensures begin { ReportsBeginAsOne }
{
    text_pairs_are_isomorphic();
    isomorphic_pairs_have_one_report();
}
