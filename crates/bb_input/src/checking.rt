//! The verdict from the quantified diagrams. With at most one box the table is read from the last diagram before that
//! box was quantified; `bb_nest` does the same for several nested boxes, and by a law both answer alike where there is
//! one box.

ghost use Rattle.std.specs.Prelude.{◌≡◌, ◌≤◌, false, replicate, IfOk, OnOk, IsErrOf};
ghost use Rattle.bb_bits.specs.Truth.{IsBeadOfAny};
ghost use Rattle.bb_bits.specs.TruthSets.{HasMoreThan};
ghost use Rattle.bb_net.specs.Conditions.{SomeChoicesSuit};
ghost use Rattle.bb_input.specs.Inside.Answers.{IsAnswer, IsFinishable, AreLeastTables};
ghost use Rattle.bb_input.specs.InputFunctions.{input_functions};
ghost use Rattle.bb_input.specs.Inside.Prefixes.{IsPrefix};

use crate::order::count_pins;
use crate::rows::least_table;
use crate::staging::make_prefix;
use crate::{InputAnswer, Prefix};
use bb_bits::{NoMemory, Table, number_is_below, tables_have_all_bits, truth};
use bb_net::{Pair, value_goes_by_boxes};
use bb_sym::{RungFault, laws};
use std::alloc::Global;

/// Can boxes be filled, one after another, each by its own input pins and those of earlier boxes? With one box the
/// answer has its table.
///
/// # Errors
///
/// `Nodes` exactly where the functions of the check have more than `nodes` beads.
pub fn input(alloc: Global, pair: &Pair, nodes: u32, cache: u32) -> Result<InputAnswer, RungFault>
    requires nodes { nodes ≤ 50000000 }
    requires cache_least { 1 ≤ cache }
    requires cache_most { cache ≤ 1048576 }
    ensures answer { IfOk result (IsAnswer pair.now.spec pair.now.imp) }
    ensures nodes { IsErrOf result RungFault.Nodes
        → HasMoreThan (IsBeadOfAny (input_functions pair.now.spec pair.now.imp)) nodes }
    ensures within { HasMoreThan (IsBeadOfAny (input_functions pair.now.spec pair.now.imp)) nodes → OnOk result ⊥ }
{
    let made = make_prefix(alloc, pair, nodes, cache)?;
    let vars = count_pins(pair.imp().boxes()) + pair.imp().inputs();
    let mut point = vec![in alloc; false; vars as usize]?;
    let answer = reported(alloc, pair, &made, &mut point)?;
    Ok(answer)
}

/// `point` has zeros only.
fn reported(
    alloc: Global,
    pair: &Pair,
    made: &Prefix,
    point: &mut [bool],
) -> Result<InputAnswer, NoMemory>
    requires made { IsPrefix pair.now.spec pair.now.imp made.now }
    requires point { point.old ≡ replicate made.now.diagrams.store.vars false }
    ensures answer { IfOk result (IsAnswer pair.now.spec pair.now.imp) }
{
    truth::tables();
    truth::quantifiers();
    laws::functions();
    let imp_net = pair.imp();
    if made.diagrams.at(made.last, point) {
        return Ok(InputAnswer::Error);
    }
    if imp_net.boxes().len() > 1 {
        return Ok(InputAnswer::Clear);
    }
    if imp_net.table_bits().is_none() {
        return Ok(InputAnswer::Clear);
    }
    let tables = least_tables(alloc, pair, made, point)?;
    Ok(InputAnswer::Repair(tables))
}

/// Without a box the empty list is the answer: the outputs are right as they are.
fn least_tables(
    alloc: Global,
    pair: &Pair,
    made: &Prefix,
    point: &mut [bool],
) -> Result<Vec<Table>, NoMemory>
    requires made { IsPrefix pair.now.spec pair.now.imp made.now }
    requires point { point.old ≡ replicate made.now.diagrams.store.vars false }
    requires finishable { IsFinishable pair.now.imp }
    requires choices { SomeChoicesSuit pair.now.spec pair.now.imp }
    ensures tables { IfOk result (λ tables. AreLeastTables pair.now.spec pair.now.imp tables.items) }
{
    truth::quantifiers();
    laws::functions();
    laws::points();
    number_is_below();
    value_goes_by_boxes();
    let boxes = pair.imp().boxes();
    if boxes.is_empty() {
        return Ok(Vec::new(alloc));
    }
    let pins = &boxes[0];
    let ins = pins.ins().len() as u32;
    let outs = pins.outs().len() as u32;
    let table = least_table(alloc, &made.diagrams, made.stages[0], ins, outs, point)?;
    let mut tables = Vec::with_capacity(alloc, 1)?;
    tables.push(table)?;
    tables_have_all_bits(&tables);
    Ok(tables)
}
