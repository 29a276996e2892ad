//! Tokens. A token is a kind and a span of the text, and copies no bytes: most tokens are marks and words, which the
//! kind says in full.

use crate::keyword::Keyword;
use crate::mark::Mark;

/// All that the grammar needs to choose a rule; the bytes are looked at only for names and numbers.
#[derive(Clone, Copy, Debug, PartialEq, Eq)]
pub enum Kind {
    /// A simple identifier that is no reserved word, or an escaped identifier.
    Name,
    Word(Keyword),
    /// A number with a size and a base, as `4'b10_01`.
    Sized,
    /// A decimal number without a size.
    Plain,
    Mark(Mark),
}

/// `start` is the index of the first byte, `end` the index past the last, and `line` is 1 plus the number of newlines
/// before it. A text has at most 2^25 bytes, so 32 bits suffice.
#[derive(Clone, Copy, Debug, PartialEq, Eq)]
pub struct Token {
    pub kind: Kind,
    pub start: u32,
    pub end: u32,
    pub line: u32,
}
