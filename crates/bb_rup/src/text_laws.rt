//! Laws of the definitions of texts. Each function has a law as its contract and does nothing, so that crates above
//! take a law by a call and cite no proof of this crate.

ghost use Rattle.bb_rup.specs.Laws.SizeLaws.{SizeLaws};
ghost use Rattle.bb_rup.specs.Inside.TableOfFaults.{ClauseTable, FormulaTable};
ghost use Rattle.bb_rup.specs.Laws.Written.{WrittenLaws};

/// The table of faults of clauses: words are clauses exactly where no word is at fault and the last one ends a clause.
/// Otherwise their fault is that of the first word at fault, or the missing end.
#[tactic(auto, using(crate::proofs::ClauseTable::clause_table))]
pub fn clause_faults()
    ensures { ClauseTable }
{}

/// The table of faults of formulas: the header's fault comes first, then those of the words after it, then the number
/// of clauses.
#[tactic(auto, using(crate::proofs::FormulaTable::formula_table))]
pub fn formula_faults()
    ensures { FormulaTable }
{}

/// There are no more clauses than words, and no more words than bytes, so the length of a text bounds the memory that
/// its clauses need. Each variable is in its range.
#[tactic(auto, using(crate::proofs::SizeLaws::size_laws))]
pub fn sizes()
    ensures { SizeLaws }
{}

/// A formula or proof that is printed, with any comment lines between, is read back as it was.
#[tactic(auto, using(crate::proofs::Written::written_laws))]
pub fn written()
    ensures { WrittenLaws }
{}
