//! The number of clauses before any is made, so the budget is checked without memory. A box with many inputs has more
//! rows than 64 bits hold, so all counts saturate at 2^64 - 1, which no budget reaches.

ghost use Rattle.std.specs.Prelude.{◌≡◌, ◌-◌, ◌*◌, ◌^◌, ◌<◌, ◌≤◌, ℕ, true, false, min, length, sum_by};
ghost use Rattle.bb_net.specs.Netlists.{cell_at};
ghost use Rattle.bb_expand.specs.ClauseCounts.{cell_clause_count, clauses_per_vector, clause_total};

use bb_net::{BoxPins, Cell, Net, Pair};

// Saturates, which a shift would not.
fn doubled(number: u64, times: usize) -> u64
    ensures { result ≡ min (2 ^ times * number) (2 ^ 64 - 1) }
{
    let mut doubled = number;
    for _ in 0..times {
        doubled = doubled.saturating_mul(2);
    }
    doubled
}

fn cell_clauses(boxes: &[BoxPins], cell: Cell) -> u64
    requires there { (b p : ℕ) → cell ≡ Cell.BoxOut b p → b < length boxes.now }
    ensures { result ≡ min (cell_clause_count boxes.now cell) (2 ^ 64 - 1) }
{
    match cell {
        Cell::Const(_) | Cell::Input(_) => 1,
        Cell::Not(_) => 2,
        Cell::And(_, _) | Cell::Or(_, _) => 3,
        Cell::Xor(_, _) | Cell::Mux(_, _, _) => 4,
        Cell::BoxOut(b, _) => doubled(2, boxes[b as usize].ins().len()),
    }
}

fn clauses_of_cells(boxes: &[BoxPins], cells: &[Cell]) -> u64
    requires there { (place b p : ℕ) → place < length cells.now → cell_at cells.now place ≡ Cell.BoxOut b p
        → b < length boxes.now }
    ensures { result ≡ min (sum_by (cell_clause_count boxes.now) cells.now) (2 ^ 64 - 1) }
{
    let mut count: u64 = 0;
    for cell in cells {
        count = count.saturating_add(cell_clauses(boxes, *cell));
    }
    count
}

pub(crate) fn per_vector(imp: &Net) -> u64
    ensures { result ≡ min (clauses_per_vector imp.now) (2 ^ 64 - 1) }
{
    let outs = imp.outs().len() as u64;
    clauses_of_cells(imp.boxes(), imp.cells()).saturating_add(outs)
}

/// The number of clauses over all vectors; saturates at 2^64 - 1. Takes no memory.
pub fn clause_count(pair: &Pair) -> u64
    ensures count { result ≡ min (clause_total pair.now.imp) (2 ^ 64 - 1) }
{
    let imp = pair.imp();
    doubled(per_vector(imp), imp.inputs() as usize)
}

pub(crate) fn is_within_budget(pair: &Pair, clauses: u32) -> bool
    ensures yes { result ≡ true → clause_total pair.now.imp ≤ clauses }
    ensures no { result ≡ false → clauses < clause_total pair.now.imp }
{
    clause_count(pair) <= u64::from(clauses)
}
