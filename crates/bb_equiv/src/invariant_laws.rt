//! Laws of invariants. Each function has a law as its contract and does nothing.

ghost use Rattle.bb_equiv.specs.Laws.Invariants.{BrokenAreBroken, InvariantsAreNotBroken};
ghost use Rattle.bb_equiv.specs.Laws.Invariants.{InvariantsHoldInRuns, KeptAreInvariants, OneVectorIsEnough};

use crate::laws::lower_laws;
use bb_design::laws::laws_of_designs;
use bb_net::{value_exists, value_is_unique};

/// What equivalence where an invariant is 1 means over clock cycles: from each state in which it is 1 whatever the
/// inputs are, the designs behave the same, whatever events come.
pub fn invariants_hold_in_runs()
    ensures { InvariantsHoldInRuns }
{}

/// An invariant that is 1 in one world with some states is 1 in all worlds with them, whatever the inputs are.
pub fn one_vector_is_enough()
    ensures { OneVectorIsEnough }
{}

/// No invariant has an event that breaks it, so an answer that shows such an event never stands beside one that it is
/// kept.
pub fn invariants_are_not_broken()
    ensures { InvariantsAreNotBroken }
{}

/// What an unrolled netlist keeps is an invariant of the design that the netlist implements.
pub fn kept_are_invariants()
    ensures { KeptAreInvariants }
{
    lower_laws();
    laws_of_designs();
    value_exists();
    value_is_unique();
}

/// Bits at which the unrolled netlist does not keep it are those of an event of the design that does not.
pub fn broken_are_broken()
    ensures { BrokenAreBroken }
{
    lower_laws();
    laws_of_designs();
    value_exists();
    value_is_unique();
}
