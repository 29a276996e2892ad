//! Tseitin clauses of the implementation at one sample. Inputs are constants there and become unit clauses, which the
//! solver propagates; folding them into the gates would save clauses, but then their count would depend on the sample.

ghost use Rattle.std.specs.Prelude.{◌≡◌, ◌+◌, ◌^◌, ◌<◌, ◌++◌, ℕ, length, OnOk};
ghost use Rattle.std.specs.List.{flat_map, range_with_len};
ghost use Rattle.bb_cnf.specs.Clauses.{lists_of};
ghost use Rattle.bb_net.specs.Completions.{HaveSmallTables};
ghost use Rattle.bb_net.specs.Kinds.{FitKinds, representatives};
ghost use Rattle.bb_net.specs.Netlists.{ReadsBefore, box_at, cell_at};
ghost use Rattle.bb_expand.specs.Inside.TableStarts.{AreStarts};
ghost use Rattle.bb_expand.specs.Expansions.{cell_clauses};

use crate::clauses::{having, push, push_and, push_mux, push_not, push_xor};
use crate::laws::laws_below;
use crate::rows::push_pin;
use bb_bits::NoMemory;
use bb_cnf::Lit;
use bb_net::{BoxPins, Cell, Net};
use smallvec::SmallVec;

// The variable of a cell is `base + place + 1`: `base` counts the variables of the tables and of earlier samples.
fn push_cell(
    clauses: &mut Vec<SmallVec<Lit, 4>>,
    base: u32,
    boxes: &[BoxPins],
    kinds: &[u32],
    starts: &[u32],
    x: &[bool],
    place: u32,
    cell: Cell,
) -> Result<(), NoMemory>
    requires fits { base + place + 1 < 2 ^ 32 }
    requires kinds { FitKinds kinds.now boxes.now }
    requires small { HaveSmallTables (representatives kinds.now boxes.now) }
    requires starts { AreStarts starts.now (representatives kinds.now boxes.now) }
    requires reads { ReadsBefore (length x.now) boxes.now place cell }
    requires listed { (b p : ℕ) → cell ≡ Cell.BoxOut b p → p < length (box_at boxes.now b).outs }
    ensures { OnOk result (lists_of clauses.new.items ≡ lists_of clauses.old.items
        ++ cell_clauses kinds.now boxes.now x.now (λ k. base + k + 1) (base + place + 1) cell) }
{
    let y = base + place + 1;
    let first = base + 1;
    match cell {
        Cell::Const(bit) => push(clauses, &[having(y, bit)]),
        Cell::Input(i) => push(clauses, &[having(y, x[i as usize])]),
        Cell::Not(a) => push_not(clauses, y, first + a),
        Cell::And(a, b) => push_and(clauses, true, y, first + a, first + b),
        Cell::Or(a, b) => push_and(clauses, false, y, first + a, first + b),
        Cell::Xor(a, b) => push_xor(clauses, y, first + a, first + b),
        Cell::Mux(c, t, e) => push_mux(clauses, y, first + c, first + t, first + e),
        Cell::BoxOut(b, p) => {
            laws_below();
            let start = starts[kinds[b as usize] as usize];
            push_pin(clauses, base, &boxes[b as usize], start, p, y)
        }
    }
}

pub(crate) fn push_cells(
    clauses: &mut Vec<SmallVec<Lit, 4>>,
    base: u32,
    imp: &Net,
    kinds: &[u32],
    starts: &[u32],
    x: &[bool],
) -> Result<(), NoMemory>
    requires fits { base + length imp.now.cells < 2 ^ 32 }
    requires kinds { FitKinds kinds.now imp.now.boxes }
    requires small { HaveSmallTables (representatives kinds.now imp.now.boxes) }
    requires starts { AreStarts starts.now (representatives kinds.now imp.now.boxes) }
    requires inputs { length x.now ≡ imp.now.inputs }
    ensures { OnOk result (lists_of clauses.new.items
        ≡ lists_of clauses.old.items
        ++ flat_map
        (λ place. cell_clauses kinds.now imp.now.boxes x.now (λ k. base + k + 1) (base + place + 1)
        (cell_at imp.now.cells place))
        (range_with_len 0 (length imp.now.cells))) }
{
    let boxes = imp.boxes();
    for (place, cell) in imp.cells().iter().enumerate() {
        push_cell(clauses, base, boxes, kinds, starts, x, place as u32, *cell)?;
    }
    Ok(())
}
