//! Tseitin clauses of a netlist without boxes whose inputs are variables. An input cell gets its own variable, made
//! equal to that of the input, so that cells of both netlists are numbered by place alone.

ghost use Rattle.std.specs.Prelude.{◌≡◌, ◌+◌, ◌^◌, ◌<◌, ◌≤◌, ◌++◌, [], ℕ, length, OnOk};
ghost use Rattle.bb_cnf.specs.Clauses.{lists_of};
ghost use Rattle.bb_net.specs.Netlists.{ReadsBefore};
ghost use Rattle.bb_expand.specs.Inside.FreeClauses.{equal_clauses, free_cell_clauses, cells_after};

use crate::clauses::{having, no, push, push_and, push_mux, push_not, push_xor, yes};
use bb_bits::NoMemory;
use bb_cnf::Lit;
use bb_net::{Cell, Net};
use smallvec::SmallVec;

fn push_equal(clauses: &mut Vec<SmallVec<Lit, 4>>, y: u32, z: u32) -> Result<(), NoMemory>
    ensures { OnOk result (lists_of clauses.new.items ≡ lists_of clauses.old.items ++ equal_clauses y z) }
{
    push(clauses, &[no(y), yes(z)])?;
    push(clauses, &[yes(y), no(z)])
}

// The variable of a cell is `base + place + 1`; those of the inputs are 1, 2, ...
fn push_free_cell(
    clauses: &mut Vec<SmallVec<Lit, 4>>,
    base: u32,
    place: u32,
    cell: Cell,
) -> Result<(), NoMemory>
    requires fits { base + place + 1 < 2 ^ 32 }
    requires reads { ReadsBefore base [] place cell }
    requires no_box { (b p : ℕ) → cell ≡ Cell.BoxOut b p → ⊥ }
    ensures { OnOk result (lists_of clauses.new.items ≡ lists_of clauses.old.items
        ++ free_cell_clauses (λ k. base + k + 1) (base + place + 1) cell) }
{
    let y = base + place + 1;
    let first = base + 1;
    match cell {
        Cell::Const(bit) => push(clauses, &[having(y, bit)]),
        Cell::Input(i) => push_equal(clauses, y, i + 1),
        Cell::Not(a) => push_not(clauses, y, first + a),
        Cell::And(a, b) => push_and(clauses, true, y, first + a, first + b),
        Cell::Or(a, b) => push_and(clauses, false, y, first + a, first + b),
        Cell::Xor(a, b) => push_xor(clauses, y, first + a, first + b),
        Cell::Mux(c, t, e) => push_mux(clauses, y, first + c, first + t, first + e),
        Cell::BoxOut(_, _) => unreachable!(),
    }
}

pub(crate) fn push_free_cells(
    clauses: &mut Vec<SmallVec<Lit, 4>>,
    base: u32,
    net: &Net,
) -> Result<(), NoMemory>
    requires fits { base + length net.now.cells < 2 ^ 32 }
    requires inputs { net.now.inputs ≤ base }
    requires no_boxes { net.now.boxes ≡ [] }
    ensures { OnOk result (lists_of clauses.new.items ≡ lists_of clauses.old.items ++ cells_after base net.now.cells) }
{
    for (place, cell) in net.cells().iter().enumerate() {
        push_free_cell(clauses, base, place as u32, *cell)?;
    }
    Ok(())
}
