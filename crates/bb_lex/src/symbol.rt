//! Marks: the longest at a place, so `a&&b` is never `a & (&b)`. No mark has three bytes, so a look at two bytes
//! decides.

ghost use Rattle.std.specs.Prelude.{◌≡◌};
ghost use Rattle.bb_lex.specs.Inside.Found.{seen};
ghost use Rattle.bb_lex.specs.Inside.Marks.{short_mark, long_mark, mark_at};

use crate::mark::Mark;
use crate::piece::Found;
use crate::token::Kind;

/// Without `(`, which may open an attribute.
fn short_mark(b: u8) -> Option<Mark>
    ensures { result ≡ short_mark b }
{
    match b {
        b')' => Some(Mark::RightRound),
        b'[' => Some(Mark::LeftSquare),
        b']' => Some(Mark::RightSquare),
        b'{' => Some(Mark::LeftBrace),
        b'}' => Some(Mark::RightBrace),
        b',' => Some(Mark::Comma),
        b';' => Some(Mark::Semicolon),
        b':' => Some(Mark::Colon),
        b'.' => Some(Mark::Dot),
        b'=' => Some(Mark::Equals),
        b'@' => Some(Mark::At),
        b'&' => Some(Mark::Amp),
        b'|' => Some(Mark::Bar),
        b'^' => Some(Mark::Caret),
        b'~' => Some(Mark::Tilde),
        b'?' => Some(Mark::Query),
        b'+' => Some(Mark::Plus),
        b'-' => Some(Mark::Minus),
        b'<' => Some(Mark::Less),
        b'>' => Some(Mark::Greater),
        b'!' => Some(Mark::Bang),
        _ => None,
    }
}

fn long_mark(b: u8, c: u8) -> Option<Mark>
    ensures { result ≡ long_mark b c }
{
    match (b, c) {
        (b'<', b'=') => Some(Mark::LessEqual),
        (b'>', b'=') => Some(Mark::GreaterEqual),
        (b'=', b'=') => Some(Mark::EqualEqual),
        (b'!', b'=') => Some(Mark::BangEqual),
        (b'<', b'<') => Some(Mark::LessLess),
        (b'>', b'>') => Some(Mark::GreaterGreater),
        (b'&', b'&') => Some(Mark::AmpAmp),
        (b'|', b'|') => Some(Mark::BarBar),
        (b'~', b'&') => Some(Mark::TildeAmp),
        (b'~', b'|') => Some(Mark::TildeBar),
        (b'~', b'^') => Some(Mark::TildeCaret),
        (b'^', b'~') => Some(Mark::CaretTilde),
        _ => None,
    }
}

/// `b` is the first byte, and `rest` the text after it.
pub fn mark_at(b: u8, rest: &[u8]) -> Option<Found<'_>>
    ensures { seen result ≡ mark_at b rest.now }
{
    if let [c, tail @ ..] = rest {
        if let Some(mark) = long_mark(b, *c) {
            return Some(Found {
                kind: Some(Kind::Mark(mark)),
                rest: tail,
            });
        }
    }
    let mark = short_mark(b)?;
    Some(Found {
        kind: Some(Kind::Mark(mark)),
        rest,
    })
}
