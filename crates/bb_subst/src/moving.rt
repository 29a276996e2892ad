//! Cells whose operands are moved, for netlists that are embedded in others.

ghost use Rattle.std.specs.Prelude.{◌≡◌, slice_index};
ghost use Rattle.bb_subst.specs.Embeddings.{renumbered};

use bb_net::Cell;

/// 0 past the end of `places`: total, for callers that have a place for each cell.
pub fn place_of(places: &[u32], k: u32) -> u32
    ensures place { result ≡ slice_index places.now k }
{
    places.get(k as usize).copied().unwrap_or(0)
}

/// Inputs and output pins keep their numbers; only places are moved.
pub fn moved(places: &[u32], cell: Cell) -> Cell
    ensures cell { result ≡ renumbered (slice_index places.now) cell }
{
    match cell {
        Cell::Const(b) => Cell::Const(b),
        Cell::Input(i) => Cell::Input(i),
        Cell::Not(a) => Cell::Not(place_of(places, a)),
        Cell::And(a, b) => Cell::And(place_of(places, a), place_of(places, b)),
        Cell::Or(a, b) => Cell::Or(place_of(places, a), place_of(places, b)),
        Cell::Xor(a, b) => Cell::Xor(place_of(places, a), place_of(places, b)),
        Cell::Mux(c, t, e) => Cell::Mux(
            place_of(places, c),
            place_of(places, t),
            place_of(places, e),
        ),
        Cell::BoxOut(b, p) => Cell::BoxOut(b, p),
    }
}
