//! Laws of functions and of what calls leave in a store, as contracts of empty functions: crates above call a function
//! and cite no proof of this one.

ghost use Rattle.bb_net.specs.Netlists.{Netlist, IsNetlist};
ghost use Rattle.bb_sym.specs.Finds.{FindingsExist};
ghost use Rattle.bb_sym.specs.Functions.{symbolic_functions, local_functions, output_functions};
ghost use Rattle.bb_sym.specs.Laws.{CellsHoldSpecification, FunctionLaws, HoldsSpecification, KnownTableLaws};
ghost use Rattle.bb_sym.specs.Laws.{MakingLaws, PointLaws};

use bb_bits::{number_is_below, truth};
use bb_net::{tern_exists, vectors_hold_or_not};
use bb_uniq::laws;

/// A table has the value of its function at each point, and functions that agree everywhere have one table.
#[tactic(auto, using(crate::proofs::AllLaws::function_laws))]
pub fn functions()
    ensures { FunctionLaws }
{}

/// The check makes further tables on the way; these two are among them.
pub fn known_tables()
    ensures { KnownTableLaws }
{
    tern_exists();
}

/// Where the specification alone has too many beads each check reports `Nodes`: inputs keep their order in all checks,
/// and variables on which nothing depends add no bead.
pub fn specification_counts()
    ensures cells { CellsHoldSpecification }
    ensures symbolic { HoldsSpecification symbolic_functions }
    ensures local { HoldsSpecification local_functions }
    ensures output { HoldsSpecification output_functions }
{
    truth::tables();
    truth::beads();
}

/// What a sequence of calls makes is a set of beads, so the order of a list does not matter and lists are appended.
pub fn making()
    ensures { MakingLaws }
{
    truth::sizes();
    laws::sequences();
}

/// A point as a number, the first bit most significant: "least" refers to this order.
#[tactic(auto, using(crate::proofs::AllLaws::point_laws))]
pub fn points()
    ensures { PointLaws }
{}

/// Each check finds the least vector of the first output, or shows that there is none at any vector.
pub fn findings_exist()
    ensures { (spec imp : Netlist) → IsNetlist imp → FindingsExist spec imp }
{
    number_is_below();
    vectors_hold_or_not();
}
