//! Laws of bits of cells in a netlist that grows, as the contract of an empty function.

ghost use Rattle.bb_strash.specs.Laws.{BitsAreGates, BitsStay, ConstantsAreBits};

use bb_net::value_exists;
use bb_subst::laws::occurrences_keep_bits;

/// A cell's bit is its gate's function of the bits that it reads, and added cells do not change it.
pub fn bits()
    ensures gates { BitsAreGates }
    ensures stay { BitsStay }
    ensures constants { ConstantsAreBits }
{
    value_exists();
    occurrences_keep_bits();
}
