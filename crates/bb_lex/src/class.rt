//! Classes of bytes, and what a first byte opens (IEEE 1364-2005, 3.2 to 3.7). The first byte alone decides which rule
//! reads a piece, so no rule is tried after another has failed.

ghost use Rattle.std.specs.Prelude.{◌≡◌};
ghost use Rattle.bb_lex.specs.Bytes.{past};
ghost use Rattle.bb_lex.specs.Inside.Runs.{is_of, run_of};
ghost use Rattle.bb_lex.specs.Inside.Pieces.{opening_of};

/// `Word` is what may follow a base letter, right or wrong: a run of it is read whole, so that `4'b12` is a fault and
/// not two tokens.
#[derive(Clone, Copy)]
pub enum Class {
    White,
    InLine,
    Identifier,
    Word,
    Decimal,
    Graphic,
    NoApostrophe,
}

#[derive(Clone, Copy)]
pub enum Opening {
    White,
    Identifier,
    Number,
    Comment,
    Round,
    Escaped,
    Directive,
    Mark,
}

#[inline(always)]
fn is_white(b: u8) -> bool
    ensures { result ≡ is_of Class.White b }
{
    b == b' ' || b == b'\t' || b == b'\n' || b == 12 || b == b'\r'
}

#[inline(always)]
fn is_identifier_byte(b: u8) -> bool
    ensures { result ≡ is_of Class.Identifier b }
{
    b.is_ascii_alphabetic() || b.is_ascii_digit() || b == b'_' || b == b'$'
}

#[inline(always)]
pub fn is_of(class: Class, b: u8) -> bool
    ensures { result ≡ is_of class b }
{
    match class {
        Class::White => is_white(b),
        Class::InLine => b != b'\n',
        Class::Identifier => is_identifier_byte(b),
        Class::Word => is_identifier_byte(b) || b == b'?',
        Class::Decimal => b.is_ascii_digit() || b == b'_',
        Class::Graphic => b.is_ascii_graphic(),
        Class::NoApostrophe => b != b'\'',
    }
}

/// The rest after the longest run of a class at the start of the text.
#[inline]
pub fn past(class: Class, text: &[u8]) -> &[u8]
    ensures { result.now ≡ past (is_of class) text.now }
{
    let mut rest = text;
    while let [b, tail @ ..] = rest {
        if !is_of(class, *b) {
            break;
        }
        rest = tail;
    }
    rest
}

/// The longest run of a class at the start, and the rest after it.
#[inline]
#[tactic(auto, using(crate::proofs::Runs::run_parts))]
pub fn run(class: Class, text: &[u8]) -> (&[u8], &[u8])
    ensures run { result.0.now ≡ run_of (is_of class) text.now }
    ensures rest { result.1.now ≡ past (is_of class) text.now }
{
    let rest = past(class, text);
    text.split_at(text.len() - rest.len())
}

pub fn opening_of(b: u8) -> Opening
    ensures { result ≡ opening_of b }
{
    if is_white(b) {
        Opening::White
    } else if b.is_ascii_alphabetic() || b == b'_' {
        Opening::Identifier
    } else if b.is_ascii_digit() {
        Opening::Number
    } else if b == b'/' {
        Opening::Comment
    } else if b == b'(' {
        Opening::Round
    } else if b == b'\\' {
        Opening::Escaped
    } else if b == b'`' {
        Opening::Directive
    } else {
        Opening::Mark
    }
}
