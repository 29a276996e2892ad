//! Laws of isomorphic netlists. Each function has a law as its contract and does nothing.

ghost use Rattle.bb_iso.specs.Laws.{FormulasAreOfCells, IsomorphismIsMutual, IsomorphicNetsHaveCells};
ghost use Rattle.bb_iso.specs.Laws.{IsomorphicCellsHaveOneBit, IsomorphicCellsAreKnownTheSame};
ghost use Rattle.bb_iso.specs.Laws.{RearrangedStayIsomorphic};
ghost use Rattle.bb_iso.specs.Laws.LooseFormulas.{OrderKeepsFormulas};

use bb_net::{tern_exists, value_exists};

/// A formula is that of its cell, by the formulas of the cells that this one reads: it may be unfolded one cell at a
/// time.
pub fn formulas_are_of_cells()
    ensures { FormulasAreOfCells }
{}

/// Isomorphism is symmetric, so each statement about two netlists is proved in one direction.
pub fn isomorphism_is_mutual()
    ensures { IsomorphismIsMutual }
{}

/// Each cell of a netlist has a cell of the same formula in an isomorphic one, so what holds of some cell carries over.
pub fn isomorphic_nets_have_cells()
    ensures { IsomorphicNetsHaveCells }
{}

/// Cells of one formula have one bit in isomorphic netlists, whatever the inputs are and whatever the boxes give: so a
/// check by values has one result for both.
pub fn isomorphic_cells_have_one_bit()
    ensures { IsomorphicCellsHaveOneBit }
{
    value_exists();
}

/// The same in three values, for simulation with unknown boxes.
pub fn isomorphic_cells_are_known_the_same()
    ensures { IsomorphicCellsAreKnownTheSame }
{
    tern_exists();
}

/// The formulas of an ordered netlist are the only solution of the equations of its list, so two orders of one list are
/// isomorphic.
pub fn order_keeps_formulas()
    ensures { OrderKeepsFormulas }
{}

/// Isomorphic netlists stay isomorphic when their inputs and outputs are rearranged in one way, as pairing does.
pub fn rearranged_stay_isomorphic()
    ensures { RearrangedStayIsomorphic }
{}
