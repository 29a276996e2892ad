//! A table from a diagram over the pins of its box. The least row is taken, so the answer is one; rows that no choice
//! suits are 0, as nothing reaches them and 0 is what a table begins with.

ghost use Rattle.std.specs.Prelude.{◌≡◌, ◌+◌, ◌*◌, ◌^◌, ◌<◌, ◌≤◌, ℕ, length, take, IfOk};
ghost use Rattle.bb_bits.specs.Numbers.{number_of};
ghost use Rattle.bb_bits.specs.Tables.{row_of};
ghost use Rattle.bb_uniq.specs.Inside.Nodes.{IsRef};
ghost use Rattle.bb_uniq.specs.Inside.Meaning.{truth_of};
ghost use Rattle.bb_input.specs.Inside.Rows.{HasLeastRows, IsLeastRow, IsFalseForEach};

use crate::counting::count_up;
use bb_bits::{NoMemory, Table, number_spelled_once, tables_have_few_inputs};
use bb_dd::{Diagrams, Ref};
use bb_quant::least;
use std::alloc::Global;

/// `point` has zeros at first. Its first bits spell the row, and those after it get the outputs.
pub(crate) fn least_table(
    alloc: Global,
    d: &Diagrams,
    f: Ref,
    inputs: u32,
    outputs: u32,
    point: &mut [bool],
) -> Result<Table, NoMemory>
    requires f { IsRef d.now.store f.0 }
    requires small { outputs * 2 ^ inputs ≤ 2 ^ 24 }
    requires point { length point.old ≡ d.now.store.vars }
    requires pins { inputs + outputs ≤ d.now.store.vars }
    requires zeros { number_of (take inputs point.old) ≡ 0 }
    requires some { IsFalseForEach d.now.store.vars (truth_of d.now.store f.0) inputs }
    ensures inputs { IfOk result (λ table. table.inputs ≡ inputs) }
    ensures outputs { IfOk result (λ table. table.outputs ≡ outputs) }
    ensures rows { 0 < outputs
        → IfOk result (λ table. HasLeastRows d.now.store.vars (truth_of d.now.store f.0) table (2 ^ inputs)) }
{
    let mut table = Table::zeros(alloc, inputs, outputs)?;
    if outputs > 0 {
        fill_rows(d, f, &mut table, point);
    }
    Ok(table)
}

/// Counting up changes few bits a row, and spelling each row anew changes all.
fn fill_rows(d: &Diagrams, f: Ref, table: &mut Table, point: &mut [bool])
    requires f { IsRef d.now.store f.0 }
    requires outputs { 0 < table.old.outputs }
    requires point { length point.old ≡ d.now.store.vars }
    requires pins { table.old.inputs + table.old.outputs ≤ d.now.store.vars }
    requires zeros { number_of (take table.old.inputs point.old) ≡ 0 }
    requires some { IsFalseForEach d.now.store.vars (truth_of d.now.store f.0) table.old.inputs }
    ensures inputs { table.new.inputs ≡ table.old.inputs }
    ensures outputs { table.new.outputs ≡ table.old.outputs }
    ensures rows { HasLeastRows d.now.store.vars (truth_of d.now.store f.0) table.new (2 ^ table.old.inputs) }
{
    tables_have_few_inputs();
    number_spelled_once();
    let inputs = table.inputs();
    for row in 0..1 << inputs {
        fill_row(d, f, table, row, point);
        count_up(&mut point[..inputs as usize]);
    }
}

/// Where no outputs suit, the bits after the row stay 0.
fn fill_row(d: &Diagrams, f: Ref, table: &mut Table, row: u32, point: &mut [bool])
    requires f { IsRef d.now.store f.0 }
    requires point { length point.old ≡ d.now.store.vars }
    requires pins { table.old.inputs + table.old.outputs ≤ d.now.store.vars }
    requires row { number_of (take table.old.inputs point.old) ≡ row }
    requires below { row < 2 ^ table.old.inputs }
    requires some { IsFalseForEach d.now.store.vars (truth_of d.now.store f.0) table.old.inputs }
    ensures len { length point.new ≡ length point.old }
    ensures begins { take table.old.inputs point.new ≡ take table.old.inputs point.old }
    ensures inputs { table.new.inputs ≡ table.old.inputs }
    ensures outputs { table.new.outputs ≡ table.old.outputs }
    ensures row { IsLeastRow d.now.store.vars (truth_of d.now.store f.0) table.new.outputs
        (take table.new.inputs point.old) (row_of table.new row) }
    ensures others { (other : ℕ) → other < row → row_of table.new other ≡ row_of table.old other }
{
    let inputs = table.inputs() as usize;
    let _ = least(d, f, false, inputs, point);
    write_row(table, row, &point[inputs..]);
}

/// Takes the first bits of `bits`, one for each output pin.
pub fn write_row(table: &mut Table, row: u32, bits: &[bool])
    requires row { row < 2 ^ table.old.inputs }
    requires bits { table.old.outputs ≤ length bits.now }
    ensures inputs { table.new.inputs ≡ table.old.inputs }
    ensures outputs { table.new.outputs ≡ table.old.outputs }
    ensures row { row_of table.new row ≡ take table.old.outputs bits.now }
    ensures others { (other : ℕ) → other < row → row_of table.new other ≡ row_of table.old other }
{
    for pin in 0..table.outputs() {
        table.set(row, pin, bits[pin as usize]);
    }
}
