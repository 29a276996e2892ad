//! Pieces without a token: comments, attributes and directives (IEEE 1364-2005, 3.3, 3.8 and 19). An attribute is a
//! list of whole strings, comments and other bytes, up to the first `*)` outside the first two; if it does not end so,
//! the text goes wrong at its first byte. Its content is not parsed, since no attribute changes what a netlist means.

ghost use Rattle.std.specs.Prelude.{◌≡◌, option_copied, codes, ◌||◌, bytes_eq};
ghost use Rattle.bb_lex.specs.Inside.Skips.{after_pair, after_quote, after_slash, after_part, after_close, after_parts};
ghost use Rattle.bb_lex.specs.Inside.Skips.{after_attribute, after_comment, is_directive, after_directive};

use crate::class::{Class, past, run};

/// After the first `x` that `y` follows.
#[tactic(auto, using(crate::proofs::ShortTexts::short_texts))]
fn after_pair(text: &[u8], x: u8, y: u8) -> Option<&[u8]>
    ensures { option_copied result ≡ after_pair x y text.now }
{
    let mut rest = text;
    while let [b, c, tail @ ..] = rest {
        if *b == x && *c == y {
            return Some(tail);
        }
        rest = &rest[1..];
    }
    None
}

/// A backslash takes the next byte along, so an escaped quote does not end the string.
#[tactic(auto, using(crate::proofs::ShortTexts::short_texts))]
fn after_quote(text: &[u8]) -> Option<&[u8]>
    ensures { option_copied result ≡ after_quote text.now }
{
    let mut rest = text;
    while let [b, c, tail @ ..] = rest {
        if *b == b'"' {
            return Some(&rest[1..]);
        }
        rest = if *b == b'\\' { tail } else { &rest[1..] };
    }
    match rest {
        [b'"'] => Some(&rest[1..]),
        _ => None,
    }
}

/// A line comment ends before its newline, which is then white space; block comments do not nest.
pub fn after_comment(text: &[u8]) -> Option<&[u8]>
    ensures { option_copied result ≡ after_comment text.now }
{
    let [b, tail @ ..] = text else {
        return None;
    };
    if *b == b'/' {
        Some(past(Class::InLine, tail))
    } else if *b == b'*' {
        after_pair(tail, b'*', b'/')
    } else {
        None
    }
}

/// A slash that opens no comment is a part of its own.
fn after_slash(text: &[u8]) -> Option<&[u8]>
    ensures { option_copied result ≡ after_slash text.now }
{
    let [b, tail @ ..] = text else {
        return Some(text);
    };
    if *b == b'/' {
        Some(past(Class::InLine, tail))
    } else if *b == b'*' {
        after_pair(tail, b'*', b'/')
    } else {
        Some(text)
    }
}

fn after_part(text: &[u8]) -> Option<&[u8]>
    ensures { option_copied result ≡ after_part text.now }
{
    let [b, tail @ ..] = text else {
        return None;
    };
    if *b == b'"' {
        after_quote(tail)
    } else if *b == b'/' {
        after_slash(tail)
    } else {
        Some(tail)
    }
}

#[tactic(auto, using(crate::proofs::ShortTexts::short_texts))]
fn after_close(text: &[u8]) -> Option<&[u8]>
    ensures { option_copied result ≡ after_close text.now }
{
    let [b, c, tail @ ..] = text else {
        return None;
    };
    if *b == b'*' && *c == b')' {
        Some(tail)
    } else {
        None
    }
}

/// `(*)` is none: it would be the sensitivity list of `@(*)`, which the language lacks, and as an opening it would
/// swallow text up to some later `*)`.
#[tactic(auto, using(crate::proofs::Comments::attribute_steps))]
pub fn after_attribute(text: &[u8]) -> Option<&[u8]>
    ensures { option_copied result ≡ after_attribute text.now }
{
    if let [b')', ..] = text {
        return None;
    }
    let mut rest = text;
    'parts: loop {
        match after_close(rest) {
            Some(after) => return Some(after),
            None => match after_part(rest) {
                Some(after) => rest = after,
                None => return None,
            },
        }
    }
}

fn is_directive(word: &[u8]) -> bool
    ensures { result ≡ is_directive word.now }
{
    word == b"timescale".as_slice()
        || word == b"celldefine".as_slice()
        || word == b"endcelldefine".as_slice()
}

/// Three directives, which change nothing here, each with the rest of its line; any other begins no piece, since it
/// might change the text.
pub fn after_directive(text: &[u8]) -> Option<&[u8]>
    ensures { option_copied result ≡ after_directive text.now }
{
    let (word, rest) = run(Class::Identifier, text);
    if is_directive(word) {
        Some(past(Class::InLine, rest))
    } else {
        None
    }
}
