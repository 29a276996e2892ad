//! Numbers and literals of the DIMACS format. A number has at most 10 digits, leading zeros included, so 64 bits hold
//! it and nothing overflows before it is compared with its bound.

ghost use Rattle.std.specs.Prelude.{◌≡◌, ◌==◌, slice_index, drop, if◌then◌else◌};
ghost use Rattle.bb_rup.specs.Inside.Ahead.{seen};
ghost use Rattle.bb_rup.specs.Numerals.{numeral_value, variable_of};
ghost use Rattle.bb_rup.specs.Dimacs.{literal_in, size_of};

use crate::fault::RupFault;
use crate::words::Word;
use bb_cnf::Lit;

// The bound of both numbers of a header.
const SIZE_LIMIT: u64 = 8_000_000;

#[tactic(auto, using(crate::proofs::Digits::digits))]
fn number(digits: &[u8]) -> Option<u64>
    ensures { result ≡ numeral_value digits.now }
{
    if digits.is_empty() || digits.len() > 10 {
        return None;
    }
    let mut value: u64 = 0;
    let mut rest = digits;
    while let Some((b, tail)) = rest.split_first() {
        if !b.is_ascii_digit() {
            return None;
        }
        value = value * 10 + u64::from(*b - b'0');
        rest = tail;
    }
    Some(value)
}

// None for 0, which ends a clause and is no variable.
fn variable(digits: &[u8]) -> Option<u64>
    ensures { result ≡ variable_of digits.now }
{
    let value = number(digits)?;
    if 1 <= value { Some(value) } else { None }
}

/// At most 8,000,000, which bounds the memory for marks whatever a header claims.
pub fn size(digits: &[u8]) -> Option<u32>
    ensures { result ≡ size_of digits.now }
{
    let value = number(digits)?;
    if value <= SIZE_LIMIT {
        Some(value as u32)
    } else {
        None
    }
}

fn sign(bytes: &[u8]) -> (bool, &[u8])
    ensures neg { result.0 ≡ (slice_index bytes.now 0 == 45) }
    ensures digits { result.1.now ≡ (if slice_index bytes.now 0 == 45 then drop 1 bytes.now else bytes.now) }
{
    match bytes.split_first() {
        Some((b, digits)) if *b == b'-' => (true, digits),
        _ => (false, bytes),
    }
}

/// `Token` where the word has not the form of a literal, `Literal` where its variable is greater than `vars`.
pub fn literal(word: Word<'_>, vars: u32) -> Result<Lit, RupFault>
    ensures { result ≡ literal_in vars (seen word.entry) }
{
    let line = word.line;
    let (neg, digits) = sign(word.bytes);
    match variable(digits) {
        None => Err(RupFault::Token { line }),
        Some(var) if var > u64::from(vars) => Err(RupFault::Literal { line }),
        Some(var) => Ok(Lit {
            var: var as u32,
            neg,
        }),
    }
}
