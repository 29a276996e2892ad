//! Links the list of cells of a design, and flat netlists that implement it, with the worlds of the design. Each
//! function has a law as its contract and does nothing.

ghost use Rattle.bb_implements.specs.Laws.CellLaws.{CellLaws};
ghost use Rattle.bb_implements.specs.Laws.ListLaws.{ListsBegin, ListsExist, ImplementingNetsArePrintable};
ghost use Rattle.bb_implements.specs.Laws.ListLaws.{ImplementingNetsExist, ListsAreLoose, ListsGiveWorlds};
ghost use Rattle.bb_implements.specs.Laws.ListLaws.{ImplementingNetsGiveOutputs, ImplementingNetsAreEquivalent};
ghost use Rattle.bb_implements.specs.Laws.ListLaws.{NetsAreNoLarger, PlacesAreFew, ImplementingNetsAreFlat};

use bb_design::laws::{constructs_hold_bit_by_bit, laws_of_designs};
use bb_expr::laws::{lowerings_exist, made_has_value, occurrences_are_fit_in, values_have_width};
use bb_net::{order_exists, order_keeps_values, value_goes_by_boxes};

/// The list of cells of a design meets what `order` requires.
pub fn lists_are_loose()
    ensures { ListsAreLoose }
{
    laws_of_designs();
}

/// Bits that meet the equations of the list make a world of the design, so the list says no less than the constructs
/// do.
pub fn lists_give_worlds()
    ensures { ListsGiveWorlds }
{
    laws_of_designs();
    constructs_hold_bit_by_bit();
}

/// The netlist computes the design: every vector and all contents have a world, and in each of these the cut outputs
/// have the bits that the netlist gives.
pub fn implementing_nets_give_outputs()
    ensures { ImplementingNetsGiveOutputs }
{
    laws_of_designs();
    values_have_width();
    made_has_value();
    constructs_hold_bit_by_bit();
    order_keeps_values();
    value_goes_by_boxes();
}

/// Two netlists that implement one design have the same bits at their outputs: a verdict does not depend on the order
/// of the cells.
pub fn implementing_nets_are_equivalent()
    ensures { ImplementingNetsAreEquivalent }
{
    implementing_nets_give_outputs();
}

/// A netlist that implements a design has no more cells than the design, as buffers get none: so the bound on designs
/// bounds netlists too.
pub fn nets_are_no_larger()
    ensures { NetsAreNoLarger }
{
    laws_of_designs();
}

/// The list has no more places than the design has cells and bits of nets, for buffers do have places. So places of
/// every design within the bounds fit 32 bits, and sums that saturate are exact.
pub fn places_are_few()
    ensures { PlacesAreFew }
{
    laws_of_designs();
}

/// A netlist that implements a sound design keeps what every flat netlist keeps, where its names are printable.
pub fn implementing_nets_are_flat()
    ensures { ImplementingNetsAreFlat }
{
    laws_of_designs();
}

/// The list begins with the constants and the inputs, as `order` requires.
pub fn lists_begin()
    ensures { ListsBegin }
{}

/// A design of a text without faults within the bounds has a list of cells, so a statement about all its lists is not
/// vacuous.
pub fn lists_exist()
    ensures { ListsExist }
{
    laws_of_designs();
    occurrences_are_fit_in();
    lowerings_exist();
}

/// The names of such a netlist are printable, since those in a text are and joined ones add dots, brackets and digits.
pub fn implementing_nets_are_printable()
    ensures { ImplementingNetsArePrintable }
{
    laws_of_designs();
}

/// A sound design has a netlist that implements it, so a statement about all such netlists is not vacuous.
pub fn implementing_nets_exist()
    ensures { ImplementingNetsExist }
{
    laws_of_designs();
    lists_exist();
    lists_are_loose();
    order_exists();
}

/// One record, which a lemma takes as one argument instead of each law by itself.
pub fn laws_of_cells()
    ensures { CellLaws }
{
    laws_of_designs();
}
