//! Decimal numbers in words. At most 20 digits, as many as 2^64 - 1 has, so a word is refused by its form before it is
//! parsed.

ghost use Rattle.std.specs.Prelude.{◌≡◌};
ghost use Rattle.std.specs.Char.{is_ascii_digit};
ghost use Rattle.std.specs.List.{list_all};
ghost use Rattle.bb_args.specs.Numbers.{is_number, number_within};

fn are_digits(bytes: &[u8]) -> bool
    ensures digits { result ≡ list_all is_ascii_digit bytes.now }
{
    bytes.iter().all(|b| b.is_ascii_digit())
}

// One to twenty decimal digits and nothing else: no sign, no blank.
fn is_number(text: &str) -> bool
    ensures number { result ≡ is_number text.now }
{
    let bytes = text.as_bytes();
    1 <= bytes.len() && bytes.len() <= 20 && are_digits(bytes)
}

/// None also for a number of 20 digits that exceeds 64 bits.
pub fn number_within(text: &str, least: u64, most: u64) -> Option<u64>
    ensures number { result ≡ number_within least most text.now }
{
    if !is_number(text) {
        return None;
    }
    match text.parse::<u64>() {
        Ok(n) if least <= n && n <= most => Some(n),
        _ => None,
    }
}

/// For bounds of 32 bits.
pub fn small_within(text: &str, least: u32, most: u32) -> Option<u32>
    ensures number { result ≡ number_within least most text.now }
{
    let n = number_within(text, u64::from(least), u64::from(most))?;
    u32::try_from(n).ok()
}
