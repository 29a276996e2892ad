//! Vectors as numbers, the first bit most significant: this is the order in which all vectors are enumerated.

ghost use Rattle.std.specs.Prelude.{◌≡◌, ◌≤◌, length};
ghost use Rattle.bb_bits.specs.Numbers.{bits_of};

pub(crate) fn spell(number: u32, bits: &mut [bool])
    requires few { length bits.old ≤ 31 }
    ensures { bits.new ≡ bits_of (length bits.old) number }
{
    let mut rest = number;
    let count = bits.len();
    for i in 0..count {
        let power = 1 << (count - 1 - i);
        bits[i] = power <= rest;
        if power <= rest {
            rest -= power;
        }
    }
}
