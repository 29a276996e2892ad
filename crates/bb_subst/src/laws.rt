//! Laws of embeddings, of filled netlists, and of distinguishing vectors. Each function has a law as its contract and
//! does nothing.

ghost use Rattle.bb_subst.specs.Laws.IsomorphismLaws.{IsomorphicFilledNetsHaveSameBits};
ghost use Rattle.bb_subst.specs.Laws.EmbeddingLaws.{OccurrencesKeepBits, TreesChoose};
ghost use Rattle.bb_subst.specs.Laws.FilledLaws.{FilledExist, FilledHaveBits, FilledAreRight, FilledAreWrong};
ghost use Rattle.bb_subst.specs.Laws.FilledLaws.{FilledArePairs};
ghost use Rattle.bb_subst.specs.Laws.DistinguishingLaws.{DistinguishingVectorsAreDistinct, VectorsAreFew};

use bb_bits::{number_is_below, number_spelled_once};
use bb_iso::laws::{
    formulas_are_of_cells, isomorphic_cells_have_one_bit, isomorphic_nets_have_cells,
};
use bb_net::{kinds_may_differ, value_exists, value_is_unique};

/// Where what implements the output pins of boxes gives what the boxes give, each cell keeps its bit: one law for
/// filled netlists, netlists side by side, and a netlist with copies of another after it.
pub fn occurrences_keep_bits()
    ensures { OccurrencesKeepBits }
{
    value_exists();
    value_is_unique();
}

/// A tree gives the bit of its column whose number the bits at the pins spell, the first pin being the most
/// significant.
pub fn trees_choose()
    ensures { TreesChoose }
{
    value_exists();
    number_is_below();
}

/// A netlist may be filled with any tables that fit its boxes, where its cells and the bits of the tables are together
/// fewer than 2^32, as places have 32 bits.
pub fn filled_exist()
    ensures { FilledExist }
{}

/// Each cell of a filled netlist has the bit that it has with the tables in the boxes.
pub fn filled_have_bits()
    ensures { FilledHaveBits }
{
    occurrences_keep_bits();
    trees_choose();
    number_is_below();
}

/// An output of a filled netlist is right or wrong as it is with the tables, so a check of the filled one decides about
/// the tables.
pub fn filled_are_right()
    ensures right { FilledAreRight }
    ensures wrong { FilledAreWrong }
{
    occurrences_keep_bits();
    trees_choose();
    number_is_below();
}

/// Isomorphic netlists, filled with the same tables, have the same bits but need not be isomorphic: one new cell may
/// implement two old ones that are equal.
pub fn isomorphic_filled_nets_have_same_bits()
    ensures { IsomorphicFilledNetsHaveSameBits }
{
    formulas_are_of_cells();
    isomorphic_nets_have_cells();
    isomorphic_cells_have_one_bit();
    filled_have_bits();
    trees_choose();
}

/// A filled netlist makes a pair with the specification as the old one did, so what takes a pair takes it too.
pub fn filled_are_pairs()
    ensures { FilledArePairs }
{
    kinds_may_differ();
}

/// No distinguishing vector occurs twice: each new one is wrong for tables that are right at all before it. So a search
/// by such vectors ends.
pub fn distinguishing_vectors_are_distinct()
    ensures { DistinguishingVectorsAreDistinct }
{}

/// Lists of n bits that differ are at most 2^n, which bounds that search.
pub fn vectors_are_few()
    ensures { VectorsAreFew }
{
    number_is_below();
    number_spelled_once();
}
