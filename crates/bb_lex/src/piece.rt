//! Pieces: what may begin at a place of a text. A piece carries the kind of its token, or none; what may follow a piece
//! is part of the piece's own rule (only white space after an escaped identifier, no `*` after a `(`), so each rule is
//! read alone.

ghost use Rattle.std.specs.Prelude.{◌≡◌, option_copied};
ghost use Rattle.bb_lex.specs.Pieces.{kind_of_word};
ghost use Rattle.bb_lex.specs.Inside.Found.{skipped, token_of, seen};
ghost use Rattle.bb_lex.specs.Inside.Words.{identifier_at};
ghost use Rattle.bb_lex.specs.Inside.Skips.{at_white, after_escaped};
ghost use Rattle.bb_lex.specs.Inside.Marks.{round_at};
ghost use Rattle.bb_lex.specs.Inside.Pieces.{opened_by, piece_at};

use crate::class::{Class, Opening, is_of, opening_of, past, run};
use crate::keyword::Keyword;
use crate::mark::Mark;
use crate::number::number_at;
use crate::skip::{after_attribute, after_comment, after_directive};
use crate::symbol::mark_at;
use crate::token::Kind;
use crate::word::keyword_of;

/// `kind` is none for a piece without a token; `rest` is the text after the piece.
#[derive(Clone, Copy)]
pub struct Found<'a> {
    pub kind: Option<Kind>,
    pub rest: &'a [u8],
}

fn skipped(rest: Option<&[u8]>) -> Option<Found<'_>>
    ensures { seen result ≡ skipped (option_copied rest.entry) }
{
    let rest = rest?;
    Some(Found { kind: None, rest })
}

/// Only white space or the end of the text ends it, so `\w;x ` is the name `w;x`; any other byte makes the text wrong.
fn after_escaped(text: &[u8]) -> Option<&[u8]>
    ensures { option_copied result ≡ after_escaped text.now }
{
    let [b, tail @ ..] = text else {
        return None;
    };
    if !is_of(Class::Graphic, *b) {
        return None;
    }
    let rest = past(Class::Graphic, tail);
    match rest {
        [next, ..] if !is_of(Class::White, *next) => None,
        _ => Some(rest),
    }
}

fn escaped_at(text: &[u8]) -> Option<Found<'_>>
    ensures { seen result ≡ token_of Kind.Name (after_escaped text.now) }
{
    let rest = after_escaped(text)?;
    Some(Found {
        kind: Some(Kind::Name),
        rest,
    })
}

fn kind_of_word(word: Option<Keyword>) -> Kind
    ensures { result ≡ kind_of_word word }
{
    match word {
        Some(keyword) => Kind::Word(keyword),
        None => Kind::Name,
    }
}

fn identifier_at(text: &[u8]) -> Option<Found<'_>>
    ensures { seen result ≡ identifier_at text.now }
{
    let (word, rest) = run(Class::Identifier, text);
    let kind = kind_of_word(keyword_of(word));
    Some(Found {
        kind: Some(kind),
        rest,
    })
}

/// `(*` always opens an attribute, wherever it is; so a `(` is a mark only if no `*` follows.
fn round_at(text: &[u8]) -> Option<Found<'_>>
    ensures { seen result ≡ round_at text.now }
{
    match text {
        [b, tail @ ..] if *b == b'*' => skipped(after_attribute(tail)),
        _ => Some(Found {
            kind: Some(Kind::Mark(Mark::LeftRound)),
            rest: text,
        }),
    }
}

pub fn piece_at(text: &[u8]) -> Option<Found<'_>>
    ensures { seen result ≡ piece_at text.now }
{
    let [b, tail @ ..] = text else {
        return None;
    };
    match opening_of(*b) {
        Opening::White => Some(Found {
            kind: None,
            rest: tail,
        }),
        Opening::Identifier => identifier_at(text),
        Opening::Number => number_at(text),
        Opening::Comment => skipped(after_comment(tail)),
        Opening::Round => round_at(tail),
        Opening::Escaped => escaped_at(tail),
        Opening::Directive => skipped(after_directive(tail)),
        Opening::Mark => mark_at(*b, tail),
    }
}
