//! Laws of expansions, as contracts of empty functions: crates above call a function and cite no proof of this one.

ghost use Rattle.bb_expand.specs.Laws.{CellClausesSayGate, ModelsAreTables, AllVectorsDecide, ClausesAreCounted};
ghost use Rattle.bb_expand.specs.Laws.{VariablesAreWithin, VectorsRise, VectorsAreAll, ExpansionsAreRefuted};
ghost use Rattle.bb_expand.specs.Laws.{RefutationsShowVectors, AnswersExist};
ghost use Rattle.bb_expand.specs.Inside.LawsBelow.{Numbering, Sharing, ValueExists, ValueIsUnique};

use bb_bits::{number_is_below, number_spelled, number_spelled_once};
use bb_cnf::laws;
use bb_net::{
    BoxPins, kinds_are_counted, kinds_are_shown, tables_are_spread, value_exists, value_is_unique,
};
use bb_subst::laws::{distinguishing_vectors_are_distinct, vectors_are_few};

/// A cell's clauses make its variable the gate's bit. So an expansion has a model exactly where some tables, one for
/// each sharing class, give every output the wanted bit at each of its vectors; over all vectors, exactly where some
/// tables agree.
///
/// Each vector adds as many clauses as counted, and the list of all vectors has each at the number that its bits spell.
pub fn expansions_and_tables()
    ensures gate { CellClausesSayGate }
    ensures models { ModelsAreTables }
    ensures all { AllVectorsDecide }
    ensures counted { ClausesAreCounted }
    ensures within { VariablesAreWithin }
    ensures rise { VectorsRise }
    ensures each { VectorsAreAll }
{
    laws_below();
}

/// Each pair has an answer or exceeds the budget, if refutations over required samples are short enough for a list in
/// memory.
pub fn answers_exist()
    ensures refuted { ExpansionsAreRefuted }
    ensures answer { AnswersExist }
{
    laws::refutations_exist();
    laws::models();
    distinguishing_vectors_are_distinct();
    vectors_are_few();
    expansions_and_tables();
    laws_below();
}

/// Any tables, one for each sharing class, fail at one of the vectors of a refuted expansion.
pub fn refutations_show_vectors()
    ensures { RefutationsShowVectors }
{
    laws::refutations();
    expansions_and_tables();
}

// Laws of numbers, values and sharing classes that most lemmas here need together.
pub(crate) fn laws_below()
    ensures numbering { Numbering }
    ensures exists { ValueExists }
    ensures unique { ValueIsUnique }
    ensures sharing { Sharing }
{
    number_is_below();
    number_spelled();
    number_spelled_once();
    value_exists();
    value_is_unique();
    kinds_are_counted();
    kinds_are_shown::<BoxPins>();
    tables_are_spread();
}
