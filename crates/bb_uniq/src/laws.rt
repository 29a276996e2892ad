//! Laws of stores, as contracts of empty functions: crates above call a function and cite no proof of this one.

ghost use Rattle.bb_uniq.specs.Laws.{StoreLaws, GrowthLaws, StepLaws, SequenceLaws};

use bb_bits::truth;

/// One store: canonicity, and what a Ref means.
pub fn stores()
    ensures { StoreLaws }
{
    truth::tables();
    truth::beads();
    truth::sizes();
}

/// Growing stores: a Ref keeps its table, so recursions may hold Refs over further calls.
pub fn growth()
    ensures { GrowthLaws }
{
    truth::tables();
    truth::beads();
    truth::sizes();
}

/// The induction step of each recursion over cofactors.
pub fn steps()
    ensures { StepLaws }
{
    truth::tables();
    truth::beads();
    truth::sizes();
}

/// What calls leave are the beads of their results, in whatever order.
pub fn sequences()
    ensures { SequenceLaws }
{
    truth::tables();
    truth::beads();
    truth::sizes();
}
