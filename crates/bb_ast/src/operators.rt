//! The operators that take operands as words. Their levels of precedence (IEEE 1364-2005, table 5-4) are numbers, by
//! which one rule of the grammar serves all levels.

/// `+ - == != < <= > >= << >> && ||`, all on unsigned operands.
#[derive(Clone, Copy, Debug, PartialEq, Eq)]
pub enum WordOp {
    Plus,
    Minus,
    Equal,
    NotEqual,
    Less,
    LessEqual,
    Greater,
    GreaterEqual,
    Left,
    Right,
    Both,
    Either,
}

/// `! & ~& | ~| ^ ~^`, the last also written `^~`, each with one bit as result. `None` is `!`: no bit is 1.
#[derive(Clone, Copy, Debug, PartialEq, Eq)]
pub enum FoldOp {
    None,
    All,
    NotAll,
    Any,
    NotAny,
    Odd,
    NotOdd,
}
