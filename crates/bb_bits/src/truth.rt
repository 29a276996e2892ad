//! Laws of truth tables and beads (Knuth, TAOCP 4A, 7.1.4), the contracts of empty functions. A BDD has a node for each
//! bead, so bounds on nodes can be said of functions, without any word on how diagrams are stored.

ghost use Rattle.bb_bits.specs.Laws.TruthLaws.{TableLaws, QuantifierLaws, BeadLaws, SizeLaws};

/// Tables, their lists of bits, and their bits at points: two tables are equal where they have the same bit at every
/// point.
#[tactic(auto, using(crate::proofs::TruthLaws::table_laws))]
pub fn tables()
    ensures { TableLaws }
{}

/// One quantified variable, and a block of them as "for every list" or "for some list" of values.
#[tactic(auto, using(crate::proofs::TruthLaws::quantifier_laws))]
pub fn quantifiers()
    ensures { QuantifierLaws }
{}

/// The beads of a table and of a list of tables; those of a list are what one store of shared nodes holds.
#[tactic(auto, using(crate::proofs::TruthLaws::bead_laws))]
pub fn beads()
    ensures { BeadLaws }
{}

/// Sizes of the beads of a list of tables, and not of any set: a clause cannot range over all sets.
#[tactic(auto, using(crate::proofs::TruthLaws::size_laws))]
pub fn sizes()
    ensures { SizeLaws }
{}
