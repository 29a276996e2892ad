//! Laws of the circuits: what they give on bits, how many cells they make, and that maps of gates go through them. They
//! hold for every kind of gates and are proved as terms, which other crates cite; no type of the code covers terms of
//! an expression, so the functions here have them for formulas and bits alone.

ghost use Rattle.bb_word.specs.Laws.Counts.{WordsAreCounted, FoldsAreCounted};
ghost use Rattle.bb_word.specs.Laws.Maps.{WordsAreMapped, FoldsAreMapped};
ghost use Rattle.bb_word.specs.Laws.Numbers.{WordsSpellNumbers, WordsHaveBits, WordsHaveWidths, FoldsGiveBits};

use bb_bits::{number_doubles, number_spelled_once};

/// The only place where circuits meet arithmetic: the result of each operator on two words is the number that the
/// standard gives it.
pub fn words_spell_numbers()
    ensures numbers { WordsSpellNumbers }
    ensures bits { WordsHaveBits }
    ensures widths { WordsHaveWidths }
{
    number_doubles();
    number_spelled_once();
}

/// As `words_spell_numbers`, for reductions.
pub fn folds_give_bits()
    ensures { FoldsGiveBits }
{}

/// So that cells can be counted, and refused, before any is made.
pub fn cells_are_counted()
    ensures words { WordsAreCounted }
    ensures folds { FoldsAreCounted }
{}

/// So the bits of a circuit's formulas are the circuit on bits: one definition serves as netlist and as value.
pub fn circuits_are_mapped()
    ensures words { WordsAreMapped }
    ensures folds { FoldsAreMapped }
{}
