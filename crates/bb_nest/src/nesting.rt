//! The check by choices of nested boxes. It continues the BDDs of `bb_input` and makes no further function, so `Nodes`
//! comes exactly where it comes there.

ghost use Rattle.std.specs.Prelude.{◌≡◌, ◌≤◌, ◌↔◌, true, length, IfOk, OnOk, IsErrOf};
ghost use Rattle.bb_bits.specs.Truth.{IsBeadOfAny};
ghost use Rattle.bb_bits.specs.TruthSets.{HasMoreThan};
ghost use Rattle.bb_input.specs.InputFunctions.{input_functions};
ghost use Rattle.bb_input.specs.Inside.Prefixes.{IsPrefix};
ghost use Rattle.bb_nest.specs.Answers.{IsInputAnswer, AreFinishable};
ghost use Rattle.bb_nest.specs.Inside.Readers.{AllSeeRefs};

use crate::cells::all_differ;
use crate::laws::laws_of_tables;
use crate::seeing::see_earlier;
use crate::tables::all_tables;
use bb_bits::{NoMemory, tables_have_all_bits};
use bb_input::{InputAnswer, Prefix, last_reports, make_prefix, stages_say};
use bb_net::Pair;
use bb_sym::{RungFault, laws};
use std::alloc::Global;

/// Can boxes be filled, one after another, each by its own input pins and those of earlier boxes? Nested boxes get
/// their tables in the answer.
///
/// # Errors
///
/// `Nodes` exactly where the functions of the check by choices have more than `nodes` beads.
pub fn nest(alloc: Global, pair: &Pair, nodes: u32, cache: u32) -> Result<InputAnswer, RungFault>
    requires nodes { nodes ≤ 50000000 }
    requires cache_least { 1 ≤ cache }
    requires cache_most { cache ≤ 1048576 }
    ensures answer { IfOk result (IsInputAnswer pair.now.spec pair.now.imp pair.now.kinds) }
    ensures nodes { IsErrOf result RungFault.Nodes
        → HasMoreThan (IsBeadOfAny (input_functions pair.now.spec pair.now.imp)) nodes }
    ensures within { HasMoreThan (IsBeadOfAny (input_functions pair.now.spec pair.now.imp)) nodes → OnOk result ⊥ }
{
    let made = make_prefix(alloc, pair, nodes, cache)?;
    let vars = made.pins.len() + pair.imp().inputs() as usize;
    let mut point = vec![in alloc; false; vars]?;
    let answer = reported(alloc, pair, &made, &mut point)?;
    Ok(answer)
}

fn reported(
    alloc: Global,
    pair: &Pair,
    made: &Prefix,
    point: &mut [bool],
) -> Result<InputAnswer, NoMemory>
    requires made { IsPrefix pair.now.spec pair.now.imp made.now }
    requires point { length point.old ≡ made.now.diagrams.store.vars }
    ensures answer { IfOk result (IsInputAnswer pair.now.spec pair.now.imp pair.now.kinds) }
{
    laws_of_tables();
    laws::functions();
    laws::points();
    stages_say();
    last_reports();
    made.diagrams.is_canonical();
    if made.diagrams.at(made.last, point) {
        return Ok(InputAnswer::Error);
    }
    if !is_finishable(pair, made) {
        return Ok(InputAnswer::Clear);
    }
    let boxes = pair.imp().boxes();
    let tables = all_tables(
        alloc,
        &made.diagrams,
        &made.stages,
        &made.pins,
        boxes,
        point,
    )?;
    tables_have_all_bits(&tables);
    Ok(InputAnswer::Repair(tables))
}

/// The tables are bounded as printed ones are. Where the test fails, choices suit but no tables are known, so the
/// answer is `Clear`.
fn is_finishable(pair: &Pair, made: &Prefix) -> bool
    requires made { IsPrefix pair.now.spec pair.now.imp made.now }
    ensures finishable { result ≡ true ↔ AreFinishable pair.now.imp pair.now.kinds }
    ensures seen { result ≡ true → AllSeeRefs pair.now.imp.boxes made.now.pins.items }
{
    laws::functions();
    made.diagrams.is_canonical();
    let imp = pair.imp();
    if !all_differ(pair) {
        return false;
    }
    if imp.table_bits().is_none() {
        return false;
    }
    see_earlier(imp.boxes(), &made.pins)
}
