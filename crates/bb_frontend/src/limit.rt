//! The bound on texts, 32 MiB. One bound for every kind of text, so that lines and places in a text fit 32 bits.

ghost use Rattle.std.specs.Prelude.{◌≡◌};

/// In bytes, one more than a text may have: a read of this length shows that the file is too long.
pub const READ_LIMIT: u64 = 33_554_433;

/// The value as a law, for crates above that compute with it.
pub fn read_limit_is()
    ensures { READ_LIMIT ≡ 33554433 }
{}
