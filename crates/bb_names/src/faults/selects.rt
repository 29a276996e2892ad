//! Selects. The indices of a part must run as those of the range (IEEE 1364-2005, 5.2.1), and a net without a range has
//! no select at all, not even `[0]`.
ghost use Rattle.std.specs.Prelude.{◌≡◌, ℕ, List};
ghost use Rattle.bb_ast.specs.Syntax.{PlainModule};
ghost use Rattle.bb_names.specs.Declarations.{range_of};
ghost use Rattle.bb_names.specs.Faults.{reported_if, wrong_select};
ghost use Rattle.bb_names.specs.Ranges.{is_index, has_bits};
ghost use Rattle.bb_names.specs.Sites.{Use, Used};

use bb_ast::Range;

fn is_index_of(range: Range, i: u32) -> bool
    ensures { result ≡ is_index range i }
{
    (range.left <= i && i <= range.right) || (range.right <= i && i <= range.left)
}

/// The order is seen by distances from the left end, which serves rising and falling ranges alike.
pub(crate) fn are_bits(range: Option<Range>, i: u32, j: u32) -> bool
    ensures { result ≡ has_bits range i j }
{
    let Some(range) = range else {
        return false;
    };
    is_index_of(range, i)
        && is_index_of(range, j)
        && range.left.abs_diff(i) <= range.left.abs_diff(j)
}

pub(crate) fn is_wrong_select(range: Option<Range>, bits: Option<(u32, u32)>) -> bool
    ensures { (text : List PlainModule) (m : PlainModule) (n : List ℕ) (how : Use) → range ≡ range_of m n
        → wrong_select text m (Used how n bits) ≡ reported_if result n }
{
    match bits {
        Some((i, j)) => !are_bits(range, i, j),
        None => false,
    }
}
