//! Laws of pairs with a care cell. Each function has a law as its contract and does nothing.

ghost use Rattle.bb_care.specs.Laws.{ConstrainedPairsArePairs, ConstrainedPairsAreRight};
ghost use Rattle.bb_care.specs.Laws.{ConstrainedPairsStayIsomorphic};

use bb_iso::laws::formulas_are_of_cells;
use bb_net::value_exists;
use bb_subst::laws::occurrences_keep_bits;

/// A pair with a care cell is a pair, where there is room for the copies and the Ands, so each check takes it as any
/// other.
pub fn constrained_pairs_are_pairs()
    ensures { ConstrainedPairsArePairs }
{}

/// An output is right exactly where it was, or where the care cell is 0: what the guards are for.
pub fn constrained_pairs_are_right()
    ensures { ConstrainedPairsAreRight }
{
    occurrences_keep_bits();
    value_exists();
}

/// Isomorphic pairs stay isomorphic with care cells, so a report with a care output is a function of the texts too.
pub fn constrained_pairs_stay_isomorphic()
    ensures { ConstrainedPairsStayIsomorphic }
{
    formulas_are_of_cells();
}
