//! Numbers (IEEE 1364-2005, 3.5.1). A size and a plain number both begin with a decimal run, so the run is read first,
//! and an apostrophe after it, with white space between, makes it a size. A size is at most 128, so the low 128 bits of
//! every value suffice.

ghost use Rattle.std.specs.Prelude.{◌≡◌, ◌<◌, ◌%◌, ◌^◌, ◌||◌, ◌==◌, SomeIff, option_copied};
ghost use Rattle.std.specs.List.{list_all};
ghost use Rattle.std.specs.Char.{digit_value, is_digit};
ghost use Rattle.bb_lex.specs.Numbers.{number, radix_of};
ghost use Rattle.bb_lex.specs.Inside.Found.{seen};
ghost use Rattle.bb_lex.specs.Inside.Numbers.{is_digit_run, value_fits, size_fits, after_digits, after_base, number_at};
ghost use Rattle.bb_lex.specs.Inside.Numbers.{joined, joined_low, plain_after, sized_after, based_value};

use crate::class::{Class, past, run};
use crate::piece::Found;
use crate::token::Kind;

/// Up to 35, so that one test serves all radices; 36 for a byte that is no digit of any.
pub fn digit_value(b: u8) -> u8
    ensures { result ≡ digit_value b }
{
    match b {
        b'0'..=b'9' => b - b'0',
        b'A'..=b'Z' => b - b'A' + 10,
        b'a'..=b'z' => b - b'a' + 10,
        _ => 36,
    }
}

pub fn is_digit(b: u8, radix: u8) -> bool
    ensures { result ≡ is_digit b radix }
{
    digit_value(b) < radix
}

pub fn radix_of(b: u8) -> u8
    ensures { result ≡ radix_of b }
{
    match b {
        b'b' | b'B' => 2,
        b'o' | b'O' => 8,
        b'd' | b'D' => 10,
        b'h' | b'H' => 16,
        _ => 0,
    }
}

/// None where it passes 2^128 - 1; another byte, such as `_`, leaves the value as it is.
fn joined(value: u128, b: u8) -> Option<u128>
    ensures { SomeIff result (joined value b < 2 ^ 128) (joined value b) }
{
    if b.is_ascii_digit() {
        value.checked_mul(10)?.checked_add(u128::from(b - b'0'))
    } else {
        Some(value)
    }
}

#[tactic(auto, using(crate::proofs::Digits::decimal_steps))]
pub fn decimal_value(bytes: &[u8]) -> Option<u128>
    ensures { SomeIff result (number 10 bytes.now < 2 ^ 128) (number 10 bytes.now) }
{
    let mut value = 0;
    let mut rest = bytes;
    while let [b, tail @ ..] = rest {
        match joined(value, *b) {
            Some(more) => value = more,
            None => return None,
        }
        rest = tail;
    }
    Some(value)
}

/// Wraps at 2^128, which keeps the low bits exact.
fn joined_low(radix: u8, value: u128, b: u8) -> u128
    ensures { result ≡ joined_low radix value b }
{
    if is_digit(b, radix) {
        value
            .wrapping_mul(u128::from(radix))
            .wrapping_add(u128::from(digit_value(b)))
    } else {
        value
    }
}

fn low_value(radix: u8, bytes: &[u8]) -> u128
    ensures { result ≡ number radix bytes.now % 2 ^ 128 }
{
    let mut value = 0;
    let mut rest = bytes;
    while let [b, tail @ ..] = rest {
        value = joined_low(radix, value, *b);
        rest = tail;
    }
    value
}

pub fn based_value(bytes: &[u8]) -> u128
    ensures { result ≡ based_value bytes.now % 2 ^ 128 }
{
    match bytes {
        [letter, digits @ ..] => low_value(radix_of(*letter), digits),
        [] => 0,
    }
}

fn are_digits(radix: u8, bytes: &[u8]) -> bool
    ensures { result ≡ list_all (λ c. is_digit c radix || c == 95) bytes.now }
{
    bytes.iter().all(|b| is_digit(*b, radix) || *b == b'_')
}

fn is_digit_run(radix: u8, bytes: &[u8]) -> bool
    ensures { result ≡ is_digit_run radix bytes.now }
{
    let [first, rest @ ..] = bytes else {
        return false;
    };
    is_digit(*first, radix) && are_digits(radix, rest)
}

/// Other bases have no bound: their digits past the size are cut.
fn value_fits(radix: u8, digits: &[u8]) -> bool
    ensures { result ≡ value_fits radix digits.now }
{
    radix != 10 || decimal_value(digits).is_some()
}

fn size_fits(run: &[u8]) -> bool
    ensures { result ≡ size_fits run.now }
{
    match decimal_value(run) {
        Some(size) => 1 <= size && size <= 128,
        None => false,
    }
}

/// The whole run of word bytes has to be digits: `4'b10x` is no number followed by a name.
fn after_digits(radix: u8, text: &[u8]) -> Option<&[u8]>
    ensures { option_copied result ≡ after_digits radix text.now }
{
    let (word, rest) = run(Class::Word, text);
    if is_digit_run(radix, word) && value_fits(radix, word) {
        Some(rest)
    } else {
        None
    }
}

/// After the base letter; white space may come before the digits.
fn after_base(text: &[u8]) -> Option<&[u8]>
    ensures { option_copied result ≡ after_base text.now }
{
    let [letter, tail @ ..] = text else {
        return None;
    };
    after_digits(radix_of(*letter), past(Class::White, tail))
}

/// Below 2^31, as a number of 32 bits that the standard counts as signed.
fn plain_after<'a>(run: &[u8], rest: &'a [u8]) -> Option<Found<'a>>
    ensures { seen result ≡ plain_after run.now rest.now }
{
    let below = decimal_value(run).is_some_and(|value| value < 1 << 31);
    if below {
        Some(Found {
            kind: Some(Kind::Plain),
            rest,
        })
    } else {
        None
    }
}

fn sized_after<'a>(run: &[u8], rest: &'a [u8]) -> Option<Found<'a>>
    ensures { seen result ≡ sized_after run.now rest.now }
{
    if !size_fits(run) {
        return None;
    }
    let rest = after_base(rest)?;
    Some(Found {
        kind: Some(Kind::Sized),
        rest,
    })
}

pub fn number_at(text: &[u8]) -> Option<Found<'_>>
    ensures { seen result ≡ number_at text.now }
{
    let (digits, rest) = run(Class::Decimal, text);
    match past(Class::White, rest) {
        [b, tail @ ..] if *b == b'\'' => sized_after(digits, tail),
        _ => plain_after(digits, rest),
    }
}
