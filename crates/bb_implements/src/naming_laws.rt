//! Laws of the names in flat netlists: these are functions of the design, however its expressions are lowered. Each
//! function has a law as its contract and does nothing.

ghost use Rattle.bb_implements.specs.Laws.NamingLaws.{BoxNeedsAreOne, FollowedInputsAreOne, ImplementingNetsAreNamed};
ghost use Rattle.bb_implements.specs.Laws.NamingLaws.{ImplementingNetsAreNamedTheSame};
ghost use Rattle.bb_implements.specs.Laws.BoxOrders.{BoxesHaveHeights, ImplementingNetsHaveBoxOrders};
ghost use Rattle.bb_implements.specs.Laws.IsomorphicNets.{ImplementingNetsAreIsomorphic};

use bb_design::laws::laws_of_designs;
use bb_iso::laws::order_keeps_formulas;

/// A box depends on another in every list of the design's cells or in none, so the order of the boxes does not depend
/// on how expressions are lowered.
pub fn box_needs_are_one()
    ensures { BoxNeedsAreOne }
{
    laws_of_designs();
}

/// In a sound design each box has a greater height than those on which it depends, so dependence has no circle and some
/// box is first.
pub fn boxes_have_heights()
    ensures { BoxesHaveHeights }
{
    laws_of_designs();
}

/// A bit is, directly or through buffers, one input of the top at most, so a register has one clock.
pub fn followed_inputs_are_one()
    ensures { FollowedInputsAreOne }
{
    laws_of_designs();
}

/// A netlist that implements a sound design has its boxes in the order of their dependence, so reports list them in an
/// order that the design determines.
pub fn implementing_nets_have_box_orders()
    ensures { ImplementingNetsHaveBoxOrders }
{
    laws_of_designs();
}

/// Everything in a netlist that implements a design has its text, so a name in a report is one of the design.
pub fn implementing_nets_are_named()
    ensures { ImplementingNetsAreNamed }
{
    laws_of_designs();
}

/// Netlists that implement one design name everything the same, in one order, so what a report names does not depend on
/// the netlist.
pub fn implementing_nets_are_named_the_same()
    ensures { ImplementingNetsAreNamedTheSame }
{
    laws_of_designs();
}

/// Netlists that implement one design are isomorphic: only the order of their cells, and how expressions are lowered,
/// is left open.
pub fn implementing_nets_are_isomorphic()
    ensures { ImplementingNetsAreIsomorphic }
{
    laws_of_designs();
    order_keeps_formulas();
}
