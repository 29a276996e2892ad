//! Row numbers as bits, the first the most significant: tables are printed in this order. Unlike in `bb_input` the row
//! is not at the start of the point, so it is spelled and not counted up.

ghost use Rattle.std.specs.Prelude.{◌≡◌, ◌<◌, ◌^◌, length};
ghost use Rattle.bb_bits.specs.Numbers.{number_of};

pub(crate) fn spell(number: u32, bits: &mut [bool])
    requires { number < 2 ^ length bits.old }
    ensures len { length bits.new ≡ length bits.old }
    ensures number { number_of bits.new ≡ number }
{
    let mut left = number;
    let mut i = bits.len();
    while i > 0 {
        i -= 1;
        bits[i] = left % 2 == 1;
        left /= 2;
    }
}
