//! The number that bits spell, the most significant bit first, and its laws.

ghost use Rattle.std.specs.Prelude.{◌≡◌, ℕ, ◌+◌, ◌*◌, ◌<◌, ◌≤◌, ◌^◌, Bool, if◌then◌else◌, List, [], ◌∷◌, ◌++◌, length};
ghost use Rattle.bb_bits.specs.Numbers.{number_of, bits_of};

// At most 32 bits, so that it fits without a check.
pub(crate) fn number(bits: &[bool]) -> usize
    requires { length bits.now ≤ 32 }
    ensures { result ≡ number_of bits.now }
{
    let mut number = 0;
    for (i, bit) in bits.iter().enumerate() {
        if *bit {
            number += 1 << (bits.len() - 1 - i);
        }
    }
    number
}

/// Bounds the row that input bits choose.
pub fn number_is_below()
    ensures { (bits : List Bool) → number_of bits < 2 ^ length bits }
{}

/// One more bit at the end doubles the number and adds the bit: the step of a loop over bits.
pub fn number_doubles()
    ensures { (bits : List Bool) (b : Bool) → number_of (bits ++ b ∷ []) ≡ 2 * number_of bits + (if b then 1 else 0) }
{}

/// With the law below: lists of n bits and numbers below 2^n correspond one to one.
pub fn number_spelled_once()
    ensures { (bits : List Bool) → bits_of (length bits) (number_of bits) ≡ bits }
{}

/// Each number below 2^n is spelled by n bits.
pub fn number_spelled()
    ensures length { (n number : ℕ) → length (bits_of n number) ≡ n }
    ensures number { (n number : ℕ) → number < 2 ^ n → number_of (bits_of n number) ≡ number }
{}
