//! Tables that fit the boxes of a netlist: tests of a premise that the calls have.

ghost use Rattle.std.specs.Prelude.{◌≡◌, true, length};
ghost use Rattle.bb_net.specs.Kinds.{per_box};
ghost use Rattle.bb_net.specs.Values.{FitBoxes};

use bb_bits::{Table, tables_have_all_bits};
use bb_net::BoxPins;
use std::alloc::Global;
use std::test::Fail;

/// Rows in order, row 0 first.
pub(crate) fn table_of(
    alloc: Global,
    ins: usize,
    outs: usize,
    rows: &[bool],
) -> Result<Table, Fail> {
    if ins > 4 || outs > 4 {
        return Err(Fail::new("too many pins"));
    }
    let outs = outs as u32;
    let mut table = Table::zeros(alloc, ins as u32, outs)?;
    for row in 0..1u32 << ins {
        for pin in 0..outs {
            let bit = rows.get((row * outs + pin) as usize);
            table.set(row, pin, bit == Some(&true));
        }
    }
    Ok(table)
}

fn has_pins(table: &Table, pins: &BoxPins) -> bool
    ensures inputs { result ≡ true → table.now.inputs ≡ length pins.now.ins }
    ensures outputs { result ≡ true → table.now.outputs ≡ length pins.now.outs }
{
    table.inputs() as usize == pins.ins().len() && table.outputs() as usize == pins.outs().len()
}

/// Each box has a sharing class whose table has its numbers of pins.
pub(crate) fn fit_kinds(tables: &[Table], kinds: &[u32], boxes: &[BoxPins]) -> bool
    ensures { result ≡ true → FitBoxes (per_box kinds.now tables.now) boxes.now }
{
    tables_have_all_bits(tables);
    if kinds.len() != boxes.len() {
        return false;
    }
    for (b, kind) in kinds.iter().enumerate() {
        let Some(table) = tables.get(*kind as usize) else {
            return false;
        };
        if !has_pins(table, &boxes[b]) {
            return false;
        }
    }
    true
}
