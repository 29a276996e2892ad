//! A table from the stage of its box: each row is the least with which the boxes after it can still be filled. The pins
//! before the box are not free: each gets the bit of the first input pin that sees it. Where two such pins have
//! different bits no vector leads, so which one is read changes no output; the first makes the row unique.

ghost use Rattle.std.specs.Prelude.{◌≡◌, ◌≢◌, ◌+◌, ◌*◌, ◌^◌, ◌<◌, ◌≤◌, ◌++◌, ℕ, Bool, false, List, length, map, take};
ghost use Rattle.std.specs.Prelude.{drop, replicate, All, IfOk};
ghost use Rattle.bb_bits.specs.Numbers.{number_of};
ghost use Rattle.bb_bits.specs.Tables.{row_of};
ghost use Rattle.bb_net.specs.Values.{bit_of};
ghost use Rattle.bb_uniq.specs.Inside.Nodes.{IsRef};
ghost use Rattle.bb_uniq.specs.Inside.Meaning.{truth_of};
ghost use Rattle.bb_nest.specs.Inside.StageRows.{IsStageRow, HasStageRows, prefix_of};

use crate::spelling::spell;
use bb_bits::{NoMemory, Table, number_spelled_once, tables_have_few_inputs};
use bb_dd::{Diagrams, Ref};
use bb_input::write_row;
use bb_quant::least;
use std::alloc::Global;

/// `readers[q]` is the input pin that sees pin `q`. A row is the least at which `f` is 0, or 0 where there is none.
pub(crate) fn stage_table(
    alloc: Global,
    d: &Diagrams,
    f: Ref,
    readers: &[usize],
    inputs: u32,
    outputs: u32,
    point: &mut [bool],
) -> Result<Table, NoMemory>
    requires f { IsRef d.now.store f.0 }
    requires small { outputs * 2 ^ inputs ≤ 2 ^ 24 }
    requires point { length point.old ≡ d.now.store.vars }
    requires pins { length readers.now + (inputs + outputs) ≤ d.now.store.vars }
    requires readers { All (λ p. p < inputs) readers.now }
    ensures len { length point.new ≡ length point.old }
    ensures inputs { IfOk result (λ table. table.inputs ≡ inputs) }
    ensures outputs { IfOk result (λ table. table.outputs ≡ outputs) }
    ensures rows { 0 < outputs
        → IfOk result (λ table.
        HasStageRows d.now.store.vars (truth_of d.now.store f.0) readers.now table (2 ^ inputs)) }
{
    let mut table = Table::zeros(alloc, inputs, outputs)?;
    if outputs > 0 {
        fill_rows(d, f, readers, &mut table, point);
    }
    Ok(table)
}

fn fill_rows(d: &Diagrams, f: Ref, readers: &[usize], table: &mut Table, point: &mut [bool])
    requires f { IsRef d.now.store f.0 }
    requires outputs { 0 < table.old.outputs }
    requires point { length point.old ≡ d.now.store.vars }
    requires pins { length readers.now + (table.old.inputs + table.old.outputs) ≤ d.now.store.vars }
    requires readers { All (λ p. p < table.old.inputs) readers.now }
    ensures len { length point.new ≡ length point.old }
    ensures inputs { table.new.inputs ≡ table.old.inputs }
    ensures outputs { table.new.outputs ≡ table.old.outputs }
    ensures rows { HasStageRows d.now.store.vars (truth_of d.now.store f.0) readers.now table.new
        (2 ^ table.old.inputs) }
{
    tables_have_few_inputs();
    number_spelled_once();
    let inputs = table.inputs();
    for row in 0..1 << inputs {
        fill_row(d, f, readers, table, row, point);
    }
}

/// `point` is scratch; the pins before, the inputs and the outputs are written anew for each row.
fn fill_row(
    d: &Diagrams,
    f: Ref,
    readers: &[usize],
    table: &mut Table,
    row: u32,
    point: &mut [bool],
)
    requires f { IsRef d.now.store f.0 }
    requires point { length point.old ≡ d.now.store.vars }
    requires pins { length readers.now + (table.old.inputs + table.old.outputs) ≤ d.now.store.vars }
    requires readers { All (λ p. p < table.old.inputs) readers.now }
    requires row { row < 2 ^ table.old.inputs }
    ensures len { length point.new ≡ length point.old }
    ensures inputs { table.new.inputs ≡ table.old.inputs }
    ensures outputs { table.new.outputs ≡ table.old.outputs }
    ensures row { (ins : List Bool) → length ins ≡ table.old.inputs → number_of ins ≡ row
        → IsStageRow d.now.store.vars (truth_of d.now.store f.0) table.old.outputs (prefix_of readers.now ins)
        (row_of table.new row) }
    ensures others { (other : ℕ) → other < row → row_of table.new other ≡ row_of table.old other }
{
    number_spelled_once();
    let start = readers.len();
    let prefix = start + table.inputs() as usize;
    spell(row, &mut point[start..prefix]);
    copy_seen(readers, point);
    if !least(d, f, false, prefix, point) {
        clear(&mut point[prefix..]);
    }
    write_row(table, row, &point[prefix..]);
}

fn clear(bits: &mut [bool])
    ensures { bits.new ≡ replicate (length bits.old) false }
{
    bits.fill(false);
}

/// The bits of the input pins have to be written before.
fn copy_seen(readers: &[usize], point: &mut [bool])
    requires there { All (λ p. length readers.now + p < length point.old) readers.now }
    requires fit { length readers.now ≤ length point.old }
    ensures copied { point.new
        ≡ map (λ p. bit_of point.old (length readers.now + p)) readers.now ++ drop (length readers.now) point.old }
{
    for (q, p) in readers.iter().enumerate() {
        point[q] = point[readers.len() + *p];
    }
}
