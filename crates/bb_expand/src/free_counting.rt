//! The number of clauses of the miter, so the limit is tested before memory is taken. It is exact, and so it is also
//! the capacity of the list, which never grows.

ghost use Rattle.std.specs.Prelude.{◌≡◌, ◌-◌, ◌^◌, ◌<◌, ◌≤◌, [], ℕ, length, min};
ghost use Rattle.bb_miter.specs.Inside.Equivalence.{AreComparable};
ghost use Rattle.bb_expand.specs.Inside.FreeClauses.{free_cell_clauses, cells_after, free_clauses};

use bb_net::{Cell, Net};

fn of_cell(cell: Cell) -> u64
    requires no_box { (b p : ℕ) → cell ≡ Cell.BoxOut b p → ⊥ }
    ensures count { (var : ℕ → ℕ) (y : ℕ) → result ≡ length (free_cell_clauses var y cell) }
    ensures most { result ≤ 4 }
{
    match cell {
        Cell::Const(_) => 1,
        Cell::Input(_) | Cell::Not(_) => 2,
        Cell::And(_, _) | Cell::Or(_, _) => 3,
        Cell::Xor(_, _) | Cell::Mux(_, _, _) => 4,
        Cell::BoxOut(_, _) => unreachable!(),
    }
}

// No overflow: at most 4 a cell, and places are 32 bits.
fn of_cells(net: &Net) -> u64
    requires { net.now.boxes ≡ [] }
    ensures count { (base : ℕ) → result ≡ length (cells_after base net.now.cells) }
    ensures most { result < 2 ^ 34 }
{
    let cells = net.cells();
    let mut count: u64 = 0;
    for cell in cells {
        count += of_cell(*cell);
    }
    count
}

/// Takes no memory.
pub(crate) fn free_count(spec: &Net, imp: &Net) -> u64
    requires { AreComparable spec.now imp.now }
    ensures { result ≡ min (length (free_clauses spec.now imp.now).clauses) (2 ^ 64 - 1) }
{
    let outs = (imp.outs().len() as u64).saturating_mul(4);
    let cells = of_cells(imp) + of_cells(spec);
    cells.saturating_add(outs).saturating_add(1)
}
