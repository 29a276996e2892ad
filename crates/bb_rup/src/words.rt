//! The words of a text, in one pass over its bytes. Only a line feed ends a line. A comment line is known by its first
//! byte that is no white space, before words are made; so a `c` that is not first on its line is a word, and a comment
//! needs no blank after the `c`.

ghost use Rattle.std.specs.Prelude.{◌≡◌, ◌<◌, ◌≤◌, length, IfSome, IfNone};
ghost use Rattle.std.specs.Char.{is_ascii_whitespace};
ghost use Rattle.bb_rup.specs.TextWords.{words_of};
ghost use Rattle.bb_rup.specs.Inside.Ahead.{is_newline, from_first, words_at, words_if, IsCounted, BeginsWord};

/// Lines count from 1.
#[derive(Clone, Copy)]
pub struct Word<'a> {
    pub bytes: &'a [u8],
    pub line: u32,
}

/// `begun`: the line has had a word, so a `c` begins no comment here.
#[derive(Clone, Copy)]
pub struct Place<'a> {
    pub rest: &'a [u8],
    pub line: u32,
    pub begun: bool,
}

/// The next word is looked for from `after` on.
#[derive(Clone, Copy)]
pub struct Found<'a> {
    pub word: Word<'a>,
    pub after: Place<'a>,
}

/// The bound on the text keeps line numbers within 32 bits.
#[tactic(auto, using(crate::proofs::WordSteps::word_steps))]
pub fn start(text: &[u8]) -> Place<'_>
    requires { length text.now ≤ 33554432 }
    ensures words { words_at result ≡ words_of text.now }
    ensures counted { IsCounted result }
{
    Place {
        rest: text,
        line: 1,
        begun: false,
    }
}

fn from_newline(text: &[u8]) -> &[u8]
    ensures { result.now ≡ from_first is_newline text.now }
{
    let mut rest = text;
    while let Some((b, tail)) = rest.split_first() {
        if *b == b'\n' {
            break;
        }
        rest = tail;
    }
    rest
}

fn from_white(text: &[u8]) -> &[u8]
    ensures { result.now ≡ from_first is_ascii_whitespace text.now }
{
    let mut rest = text;
    while let Some((b, tail)) = rest.split_first() {
        if b.is_ascii_whitespace() {
            break;
        }
        rest = tail;
    }
    rest
}

// The place after one byte of white space, or at the end of a comment; none at a word or the end of the text. The line
// feed that ends a comment is left, so that it is counted once, as every line feed.
#[tactic(auto, using(crate::proofs::WordSteps::word_steps))]
fn passed(place: Place<'_>) -> Option<Place<'_>>
    requires { IsCounted place }
    ensures words { IfSome result (λ next. words_at next ≡ words_at place.entry) }
    ensures counted { IfSome result IsCounted }
    ensures left { IfSome result (λ next. length next.rest.now < length place.entry.rest.now) }
    ensures none { IfNone result (BeginsWord place.entry.begun place.entry.rest.now) }
{
    let Place { rest, line, begun } = place;
    let (b, tail) = rest.split_first()?;
    if *b == b'\n' {
        return Some(Place {
            rest: tail,
            line: line + 1,
            begun: false,
        });
    }
    if b.is_ascii_whitespace() {
        return Some(Place {
            rest: tail,
            line,
            begun,
        });
    }
    if *b == b'c' && !begun {
        return Some(Place {
            rest: from_newline(tail),
            line,
            begun,
        });
    }
    None
}

// Ends since each step leaves fewer bytes.
fn skip(start: Place<'_>) -> Place<'_>
    requires { IsCounted start }
    ensures words { words_at result ≡ words_at start.entry }
    ensures begins { BeginsWord result.begun result.rest.now }
    ensures counted { IsCounted result }
    ensures left { length result.rest.now ≤ length start.entry.rest.now }
{
    let mut place = start;
    while let Some(next) = passed(place) {
        place = next;
    }
    place
}

/// None at the end of the text.
#[tactic(auto, using(crate::proofs::WordSteps::word_steps))]
pub fn word_at(start: Place<'_>) -> Option<Found<'_>>
    requires { IsCounted start }
    ensures words { words_at start.entry ≡ words_if result }
    ensures counted { IfSome result (λ found. IsCounted found.after) }
    ensures left { IfSome result (λ found. length found.after.rest.now < length start.entry.rest.now) }
{
    let place = skip(start);
    if place.rest.is_empty() {
        return None;
    }
    let tail = from_white(place.rest);
    let (bytes, rest) = place.rest.split_at(place.rest.len() - tail.len());
    let line = place.line;
    Some(Found {
        word: Word { bytes, line },
        after: Place {
            rest,
            line,
            begun: true,
        },
    })
}
