//! Rows in counting order, in place, so that no row is spelled anew.

ghost use Rattle.std.specs.Prelude.{◌≡◌, ◌+◌, ◌<◌, ◌^◌, length};
ghost use Rattle.bb_bits.specs.Numbers.{number_of};

/// Adds 1, the first bit most significant; wraps to 0 after the last number.
pub(crate) fn count_up(bits: &mut [bool])
    ensures len { length bits.new ≡ length bits.old }
    ensures next { number_of bits.old + 1 < 2 ^ length bits.old → number_of bits.new ≡ number_of bits.old + 1 }
{
    let mut i = bits.len();
    while i > 0 {
        i -= 1;
        if !bits[i] {
            bits[i] = true;
            return;
        }
        bits[i] = false;
    }
}
