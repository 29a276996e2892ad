//! Laws of isomorphic pairs. Two texts may be made into several pairs, with cells in different orders and other equal
//! cells read. These laws show that a report does not depend on which one is made: it is enough that one pair is
//! decided, and an open answer speaks of every pair. Exempt are the tables and the refutation of the expansion, and its
//! result where too many clauses may end it: any correct tables will do, and clauses are numbered in the order of the
//! cells.

ghost use Rattle.bb_checks.specs.Inside.IsomorphismLaws.{PairLaws};
ghost use Rattle.bb_checks.specs.Laws.IsomorphicPairs.{IsomorphicPairsAreLeftOpen, IsomorphicPairsStayOpen};
ghost use Rattle.bb_checks.specs.Laws.IsomorphicPairs.{IsomorphicPairsDependTheSame, IsomorphicPairsAreDecided};
ghost use Rattle.bb_checks.specs.Laws.IsomorphicPairs.{IsomorphicPairsAreReported, IsomorphicPairsHaveOneReport};
ghost use Rattle.bb_checks.specs.Laws.IsomorphicPairs.{IsomorphicPairsHaveOneBeginning, IsomorphicClimbsReportTheSame};
ghost use Rattle.bb_checks.specs.Laws.IsomorphicPairs.{IsomorphicPairsNeverClash};

use crate::kind_laws::kind_laws;
use crate::laws::{errors_exclude_tables, repairs_make_equivalent};
use bb_bits::number_spelled_once;
use bb_expand::expansions_and_tables;
use bb_iso::laws::{
    formulas_are_of_cells, isomorphic_cells_are_known_the_same, isomorphic_cells_have_one_bit,
    isomorphic_nets_have_cells, isomorphism_is_mutual,
};
use bb_nest::answers_are_one;
use bb_net::{conditions_weaken, value_goes_by_boxes};
use bb_subst::laws::{filled_exist, isomorphic_filled_nets_have_same_bits};
use bb_sym::laws::functions;
use bb_tern::laws::patterns_are_vectors;

// One record of the laws below, since each law on pairs would otherwise repeat the list.
fn laws_below()
    ensures { PairLaws }
{
    kind_laws();
    functions();
    formulas_are_of_cells();
    isomorphism_is_mutual();
    isomorphic_nets_have_cells();
    isomorphic_cells_have_one_bit();
    isomorphic_cells_are_known_the_same();
    filled_exist();
    isomorphic_filled_nets_have_same_bits();
    value_goes_by_boxes();
    expansions_and_tables();
}

/// A check leaves the question open for both of two isomorphic pairs or for neither, and so with staying open, and with
/// an answer that may depend on the counterexample search.
pub fn isomorphic_pairs_are_left_open()
    ensures left { IsomorphicPairsAreLeftOpen }
    ensures stays { IsomorphicPairsStayOpen }
    ensures search { IsomorphicPairsDependTheSame }
{
    laws_below();
}

/// A check decides both of two isomorphic pairs or neither.
pub fn isomorphic_pairs_are_decided()
    ensures { IsomorphicPairsAreDecided }
{
    laws_below();
}

/// Possible results of a check are possible for an isomorphic pair too, but for refutations, whose clauses are those of
/// one pair.
pub fn isomorphic_pairs_are_reported()
    ensures { IsomorphicPairsAreReported }
{
    laws_below();
}

/// Reports of isomorphic pairs are equal up to the line of the expansion, and beyond it where nothing depends on the
/// search.
pub fn isomorphic_pairs_have_one_report()
    ensures one { IsomorphicPairsHaveOneReport }
    ensures begin { IsomorphicPairsHaveOneBeginning }
{
    laws_below();
    conditions_weaken();
    patterns_are_vectors();
    number_spelled_once();
    answers_are_one();
}

/// Runs of the checks on isomorphic pairs have the same lines, but for the details of the expansion and what may depend
/// on the search.
pub fn isomorphic_climbs_report_the_same()
    ensures { IsomorphicClimbsReportTheSame }
{
    isomorphic_pairs_have_one_report();
}

/// Never `error` for one pair and `repairable` for an isomorphic one, whatever the search does.
pub fn isomorphic_pairs_never_clash()
    ensures { IsomorphicPairsNeverClash }
{
    laws_below();
    errors_exclude_tables();
    repairs_make_equivalent();
}
