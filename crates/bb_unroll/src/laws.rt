//! Laws of unrolled specifications. Each function has a law as its contract and does nothing.

ghost use Rattle.bb_unroll.specs.Events.{UnrolledHaveBits, ViolationsAreSeen};

use bb_net::{value_exists, value_is_unique};

/// Each cell has its bit in both frames: as the event comes, and after it.
pub fn unrolled_have_bits()
    ensures { UnrolledHaveBits }
{
    value_exists();
    value_is_unique();
}

/// The output of `violation` is 1 exactly where an event takes the invariant from 1 to 0.
pub fn violations_are_seen()
    ensures { ViolationsAreSeen }
{
    unrolled_have_bits();
    value_exists();
    value_is_unique();
}
