//! Links loops in the list of cells with combinational loops of the design. Each function has a law as its contract and
//! does nothing.

ghost use Rattle.bb_implements.specs.Laws.LoopLaws.{ListsWithoutWalks, ListWalksAreLoops, LeastWalksAreFirstLoops};

use bb_design::laws::laws_of_designs;

/// A design whose list has no loop has none: a list that can be levelized is proof enough.
pub fn lists_without_walks()
    ensures { ListsWithoutWalks }
{
    laws_of_designs();
}

/// A bit is on a combinational loop where its place is on a loop of the list, through operators, buffers or boxes.
pub fn list_walks_are_loops()
    ensures { ListWalksAreLoops }
{
    laws_of_designs();
}

/// The bits of nets are in net order in the list, so the least place on a loop is the bit that the fault names.
pub fn least_walks_are_first_loops()
    ensures { LeastWalksAreFirstLoops }
{
    laws_of_designs();
}
