//! Laws of widths, values and cells, and of the expressions of a checked module; each is the contract of an empty
//! function.

ghost use Rattle.bb_expr.specs.Laws.{ValuesHaveWidth, MadeHasValue, CellsAreCounted, WiderAddsZeros};
ghost use Rattle.bb_expr.specs.Laws.FitLaws.{OccurrencesAreFit, OccurrencesAreFitIn, LoweringsExist, NamesAreNets};
ghost use Rattle.bb_expr.specs.Laws.FitLaws.{PartsOccur, NetNamesDiffer, AssignableIsNets};

use bb_word::{folds_give_bits, words_spell_numbers};

/// At each width from the expression's own on, below which a value is longer than its context.
#[tactic(auto, using(crate::proofs::ValueLemmas::values_have_width))]
pub fn values_have_width()
    ensures { ValuesHaveWidth }
{}

/// Cells are defined by circuits and values by numbers; by this law the cells may be used for the value.
pub fn made_has_value()
    ensures { MadeHasValue }
{
    words_spell_numbers();
    folds_give_bits();
}

/// Lets a caller bound a list of cells before it is made.
#[tactic(auto, using(crate::proofs::CellCounts::cells_are_counted))]
pub fn cells_are_counted()
    ensures { CellsAreCounted }
{}

/// For expressions without `~`, `~^`, a sum, a difference or a shift above, a wider context only adds zeros; each of
/// these operators can carry bits into the added places.
#[tactic(auto, using(crate::proofs::WiderValue::wider_adds_zeros))]
pub fn wider_adds_zeros()
    ensures { WiderAddsZeros }
{}

/// What the calls of this crate rely on, for an expression of a checked module and for its parts.
pub fn occurrences_are_fit()
    ensures { OccurrencesAreFit }
{}

/// The same of a plain module: a law about a design has modules alone, and a checked module is a value in memory that
/// it would have to make.
pub fn occurrences_are_fit_in()
    ensures { OccurrencesAreFitIn }
{}

/// So a premise that an expression is lowered is never empty.
pub fn lowerings_exist()
    ensures { LoweringsExist }
{}

/// So a look-up by such a name always finds a net.
pub fn names_are_nets()
    ensures { NamesAreNets }
{}

/// Keeps, in an induction over an expression, the premise that it is an expression of the module.
pub fn parts_occur()
    ensures { PartsOccur }
{}

/// So a net can be said by its name or by its place, whichever suits.
pub fn net_names_differ()
    ensures { NetNamesDiffer }
{}

/// So a left side is a list of bits of nets, without a cell between.
pub fn assignable_is_nets()
    ensures { AssignableIsNets }
{}
