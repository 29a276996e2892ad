//! Tables from the first variables of a model: their variables come before those of the samples, so they stay where
//! they are when samples are added. One table for each sharing class, in the order of first boxes.

ghost use Rattle.std.specs.Prelude.{◌≡◌, ◌*◌, ◌^◌, ◌<◌, ◌≤◌, All, length, map, IfOk};
ghost use Rattle.bb_net.specs.Completions.{table_bits, HaveSmallTables};
ghost use Rattle.bb_net.specs.Kinds.{representatives};
ghost use Rattle.bb_net.specs.Netlists.{box_at};
ghost use Rattle.bb_net.specs.Pairs.{pin_count};
ghost use Rattle.bb_expand.specs.Inside.ReadTables.{tables_in};

use crate::laws::laws_below;
use crate::rows::box_bits;
use bb_bits::{NoMemory, Table};
use bb_net::{BoxPins, Pair};
use std::alloc::Global;

// Bits are row by row, output pins within a row.
fn read_table(alloc: Global, pins: &BoxPins, bits: &[bool]) -> Result<Table, NoMemory>
    requires small { length pins.now.outs * 2 ^ length pins.now.ins ≤ 2 ^ 24 }
    requires few { length pins.now.ins < 2 ^ 32 }
    requires count { length bits.now ≡ length pins.now.outs * 2 ^ length pins.now.ins }
    ensures table { IfOk result (λ table.
        table ≡ record { inputs = length pins.now.ins; outputs = length pins.now.outs; rows = bits.now }) }
{
    let outs = pins.outs().len() as u32;
    let mut table = Table::zeros(alloc, pins.ins().len() as u32, outs)?;
    for (i, bit) in bits.iter().enumerate() {
        table.set(i as u32 / outs, i as u32 % outs, *bit);
    }
    Ok(table)
}

fn tables_of_boxes(
    alloc: Global,
    firsts: &[u32],
    boxes: &[BoxPins],
    model: &[bool],
) -> Result<Vec<Table>, NoMemory>
    requires there { All (λ b. b < length boxes.now) firsts.now }
    requires small { HaveSmallTables (map (box_at boxes.now) firsts.now) }
    requires few { pin_count boxes.now ≤ 2048 }
    requires bits { table_bits (map (box_at boxes.now) firsts.now) ≤ length model.now }
    ensures tables { IfOk result (λ tables. tables.items ≡ tables_in (map (box_at boxes.now) firsts.now) model.now) }
{
    let mut tables = Vec::with_capacity(alloc, firsts.len())?;
    let mut start = 0;
    for b in firsts {
        let pins = &boxes[*b as usize];
        let end = start + box_bits(pins) as usize;
        tables.push(read_table(alloc, pins, &model[start..end])?)?;
        start = end;
    }
    Ok(tables)
}

// One box for each sharing class, the first: its pins give the size of the table.
pub(crate) fn shown_boxes(alloc: Global, pair: &Pair) -> Result<Vec<u32>, NoMemory>
    ensures shown { IfOk result (λ firsts.
        map (box_at pair.now.imp.boxes) firsts.items ≡ representatives pair.now.kinds pair.now.imp.boxes) }
    ensures there { IfOk result (λ firsts. All (λ b. b < length pair.now.imp.boxes) firsts.items) }
{
    laws_below();
    let _ = pair.imp();
    let firsts = pair.first_boxes(alloc)?;
    Ok(firsts)
}

pub(crate) fn read_tables(
    alloc: Global,
    pair: &Pair,
    model: &[bool],
) -> Result<Vec<Table>, NoMemory>
    requires small { HaveSmallTables (representatives pair.now.kinds pair.now.imp.boxes) }
    requires bits { table_bits (representatives pair.now.kinds pair.now.imp.boxes) ≤ length model.now }
    ensures tables { IfOk result (λ tables.
        tables.items ≡ tables_in (representatives pair.now.kinds pair.now.imp.boxes) model.now) }
{
    let firsts = shown_boxes(alloc, pair)?;
    let tables = tables_of_boxes(alloc, &firsts, pair.imp().boxes(), model)?;
    Ok(tables)
}
