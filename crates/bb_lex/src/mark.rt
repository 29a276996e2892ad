//! Marks. Each has a variant by its bytes and not by its meaning, since `&` is a reduction or an operator by its place
//! in the grammar.

/// Operators and punctuation, of at most two bytes: `===` is `==` and `=`, which no statement has. Each name spells its
/// bytes from left to right (`TildeAmp` is `~&`): `Round` is a parenthesis, `Query` is `?`, `Bang` is `!`, `Bar` is
/// `|`, `Caret` is `^`.
#[derive(Clone, Copy, Debug, PartialEq, Eq)]
pub enum Mark {
    LeftRound,
    RightRound,
    LeftSquare,
    RightSquare,
    LeftBrace,
    RightBrace,
    Comma,
    Semicolon,
    Colon,
    Dot,
    Equals,
    At,
    Amp,
    Bar,
    Caret,
    Tilde,
    Query,
    Plus,
    Minus,
    Less,
    Greater,
    Bang,
    LessEqual,
    GreaterEqual,
    EqualEqual,
    BangEqual,
    LessLess,
    GreaterGreater,
    AmpAmp,
    BarBar,
    TildeAmp,
    TildeBar,
    TildeCaret,
    CaretTilde,
}
