//! Expressions (IEEE 1364-2005, A.8.3). Operators of one level of precedence are a list after their first operand, and
//! not a tree of pairs: a sum of a thousand terms then has no depth, and the width at which an operand is taken needs a
//! look at the next operator alone.

use crate::operators::{FoldOp, WordOp};
use bb_bits::Name;

/// Apart from `WordOp`: operators on bits act bit by bit, so all operands of a chain are taken at one width.
#[derive(Clone, Copy, Debug, PartialEq, Eq)]
pub enum Op {
    And,
    Xor,
    Xnor,
    Or,
}

/// Parentheses have no node: they only decide which operand belongs to which operator.
#[derive(Debug, Drop)]
pub enum Expr {
    /// All bits of a net.
    Net(Name),
    /// By the index in the net's range, not by the place of the bit.
    Bit(Name, u32),
    /// Indices as written, the left one first; the bit at the left one is the most significant.
    Part(Name, u32, u32),
    /// The most significant bit first.
    Sized(Vec<bool>),
    /// A decimal number without a size, which counts as 32 bits, unsigned.
    Plain(u32),
    /// A run of at least one `~`, and its length: pairs of signs cancel, and only an odd run makes cells.
    Not(u32, Box<Expr>),
    Fold(FoldOp, Box<Expr>),
    /// Grouped to the left, with at least one operator; `&`, `^` and `|` each have a level of their own, and `^` shares
    /// its level with `~^`.
    Chain(Box<Expr>, Vec<(Op, Expr)>),
    /// Grouped to the left, with at least one operator. Each operator decides at which width it takes the operands on
    /// its left.
    Words(Box<Expr>, Vec<(WordOp, Expr)>),
    /// Conditions with their values, tried from left to right, and the value where none holds. A list, so that a long
    /// case table does not nest.
    Cond(Vec<(Expr, Expr)>, Box<Expr>),
    /// The most significant part first.
    Concat(Vec<Expr>),
    /// The number of copies, and the parts of one, the most significant first.
    Repeat(u32, Vec<Expr>),
}

/// A list of up to four terminals is kept in place, and this fills the places that are not used.
impl Default for Expr {
    ghost use Rattle.std.specs.Prelude.{◌≡◌};
    ghost use Rattle.bb_ast.specs.Syntax.{Plain};
    ghost use Rattle.bb_ast.specs.Inside.Views.{expression};

    ghost is_default = { λ e. expression e ≡ Plain 0 };

    fn default() -> Expr {
        Expr::Plain(0)
    }
}
