//! Links buffers in the list of cells with buffers among bits. Each function has a law as its contract and does
//! nothing.

ghost use Rattle.bb_implements.specs.Laws.CopyLaws.{CopiesAreListed};

use bb_design::laws::laws_of_designs;

/// A bit is a buffer of another exactly where its place is, so what is read, and where clocks come from, may be found
/// on the list.
pub fn copies_are_listed()
    ensures { CopiesAreListed }
{
    laws_of_designs();
}
