//! All tables from one set of stages. Each box's table is read at its own stage, where earlier boxes still have free
//! pins, so no table has to be substituted into the functions of a later one.

ghost use Rattle.std.specs.Prelude.{◌≡◌, ◌≤◌, ◌<◌, ℕ, length, IfOk};
ghost use Rattle.bb_net.specs.Completions.{HaveSmallTables};
ghost use Rattle.bb_net.specs.Pairs.{pin_count};
ghost use Rattle.bb_net.specs.Values.{table_at};
ghost use Rattle.bb_sym.specs.Inside.Made.{AreRefs, ref_at};
ghost use Rattle.bb_uniq.specs.Inside.Meaning.{truth_of};
ghost use Rattle.bb_nest.specs.Inside.Readers.{AllSeeRefs};
ghost use Rattle.bb_nest.specs.Inside.StageRows.{IsStageTable};

use crate::rows::stage_table;
use crate::seeing::readers;
use bb_bits::{NoMemory, Table};
use bb_dd::{Diagrams, Ref};
use bb_net::BoxPins;
use std::alloc::Global;

/// Boxes have to be nested. `refs` has the cells at all pins in order.
pub(crate) fn all_tables(
    alloc: Global,
    d: &Diagrams,
    stages: &[Ref],
    refs: &[Ref],
    boxes: &[BoxPins],
    point: &mut [bool],
) -> Result<Vec<Table>, NoMemory>
    requires stages { AreRefs d.now.store stages.now }
    requires count { length stages.now ≡ length boxes.now }
    requires refs { length refs.now ≡ pin_count boxes.now }
    requires vars { pin_count boxes.now ≤ d.now.store.vars }
    requires few { pin_count boxes.now ≤ 2048 }
    requires point { length point.old ≡ d.now.store.vars }
    requires small { HaveSmallTables boxes.now }
    requires seen { AllSeeRefs boxes.now refs.now }
    ensures count { IfOk result (λ tables. length tables.items ≡ length boxes.now) }
    ensures tables { IfOk result (λ tables. (b : ℕ) → b < length boxes.now
        → IsStageTable d.now.store.vars (truth_of d.now.store (ref_at stages.now b).0) refs.now boxes.now b
        (table_at tables.items b)) }
{
    let mut tables = Vec::with_capacity(alloc, boxes.len())?;
    let mut start = 0;
    for (b, pins) in boxes.iter().enumerate() {
        let ins = pins.ins().len();
        let outs = pins.outs().len();
        let seen = readers(alloc, &refs[start..start + ins], &refs[..start])?;
        let table = stage_table(alloc, d, stages[b], &seen, ins as u32, outs as u32, point)?;
        tables.push(table)?;
        start += ins + outs;
    }
    Ok(tables)
}
