//! What a token means: the bytes of a name, the bits of a sized number, the value of a plain one. They are read again
//! from the text where they are used, so a token is a kind and a place and owns no memory. The bits of a number are
//! defined by its parts (size, letter, digits); that the code reads them from the start is a law
//! (`laws::read_bits_are_meant`).

ghost use Rattle.std.specs.Prelude.{◌≡◌, ◌<◌, ◌≤◌, ◌%◌, ◌^◌, IfOk};
ghost use Rattle.bb_lex.specs.declared.token.Kind.{Kind};
ghost use Rattle.bb_lex.specs.Inside.Numbers.{size_of, value_of};
ghost use Rattle.bb_lex.specs.Cut.{bytes_of, IsTokenOf};
ghost use Rattle.bb_lex.specs.Meaning.{name_of, MeansBits, plain_value_of, IsNameOrWord};
ghost use Rattle.bb_lex.specs.Numbers.{weighted_bits};

use crate::class::{Class, run};
use crate::number::{based_value, decimal_value};
use crate::token::Token;
use std::alloc::{AllocError, Global};

fn bytes_of<'a>(token: &Token, text: &'a [u8]) -> &'a [u8]
    requires { IsTokenOf token.now text.now }
    ensures { result.now ≡ bytes_of token.now text.now }
{
    &text[token.start as usize..token.end as usize]
}

/// Without the backslash of an escaped identifier, which is no part of the name (IEEE 1364-2005, 3.7.1): `\a ` and `a`
/// are one name.
pub fn name_bytes<'a>(token: &Token, text: &'a [u8]) -> &'a [u8]
    requires of_text { IsTokenOf token.now text.now }
    requires name { IsNameOrWord token.now.kind }
    ensures { result.now ≡ name_of token.now text.now }
{
    let bytes = bytes_of(token, text);
    match bytes {
        [b, name @ ..] if *b == b'\\' => name,
        _ => bytes,
    }
}

/// Below 2^31; `_` is skipped.
#[tactic(auto, using(crate::proofs::Meanings::number_facts))]
pub fn plain_value(token: &Token, text: &[u8]) -> u32
    requires of_text { IsTokenOf token.now text.now }
    requires plain { token.now.kind ≡ Kind.Plain }
    ensures { result ≡ plain_value_of token.now text.now }
{
    match decimal_value(bytes_of(token, text)) {
        Some(value) => value as u32,
        None => unreachable!(),
    }
}

/// The most significant first: the bits of weight 2^(size - 1) down to 1.
fn low_bits(alloc: Global, size: u32, value: u128) -> Result<Vec<bool>, AllocError>
    requires { size ≤ 128 }
    ensures { IfOk result (λ bits. bits.items ≡ weighted_bits size value) }
{
    let mut bits = Vec::with_capacity(alloc, size as usize)?;
    let mut left = size;
    while left > 0 {
        left -= 1;
        bits.push((value >> left) % 2 == 1)?;
    }
    Ok(bits)
}

#[tactic(auto, using(crate::proofs::Meanings::number_facts))]
fn size_of(token: &Token, text: &[u8]) -> u32
    requires of_text { IsTokenOf token.now text.now }
    requires sized { token.now.kind ≡ Kind.Sized }
    ensures size { result ≡ size_of (bytes_of token.now text.now) }
    ensures small { result ≤ 128 }
{
    let (size, _) = run(Class::NoApostrophe, bytes_of(token, text));
    match decimal_value(size) {
        Some(value) => value as u32,
        None => unreachable!(),
    }
}

/// Only low bits count, since a size is at most 128.
fn value_of(bytes: &[u8]) -> u128
    ensures { result ≡ value_of bytes.now % 2 ^ 128 }
{
    let (_, after) = run(Class::NoApostrophe, bytes);
    match after {
        [_, based @ ..] => based_value(based),
        [] => 0,
    }
}

/// The most significant first, as many as the size says: the value is cut, or filled with zeros, on the left.
pub fn sized_bits(alloc: Global, token: &Token, text: &[u8]) -> Result<Vec<bool>, AllocError>
    requires of_text { IsTokenOf token.now text.now }
    requires sized { token.now.kind ≡ Kind.Sized }
    ensures { IfOk result (λ bits. MeansBits token.now text.now bits.items) }
{
    let size = size_of(token, text);
    let value = value_of(bytes_of(token, text));
    let bits = low_bits(alloc, size, value)?;
    Ok(bits)
}
