//! The condition that the point's bits at the input pins are those that the inputs produce. Input pins are variables of
//! their own here, so that a box can be quantified by its pins; this ties them to the cells.

ghost use Rattle.std.specs.Prelude.{◌≡◌, length, IfOk, OnOk, IsErrOf};
ghost use Rattle.bb_bits.specs.Truth.{variable};
ghost use Rattle.bb_sym.specs.Plain.{table, one_of};
ghost use Rattle.bb_sym.specs.Inside.Made.{Makes, AreTooMany, Represents, RepresentAll, HaveCells};
ghost use Rattle.bb_input.specs.InputFunctions.{pins_and_inputs, boxes_first, in_places, is_missed, missed_functions};

use crate::order::{input_places, input_variables};
use bb_dd::{Diagrams, Ref};
use bb_net::Pair;
use bb_sym::plain::{PlainCells, picked, some_differ};
use bb_sym::{RungFault, laws};
use std::alloc::Global;

/// Also makes the difference at each pin, in order; they count as beads.
pub(crate) fn some_missed(
    alloc: Global,
    d: &mut Diagrams,
    pair: &Pair,
    made: &PlainCells,
) -> Result<Ref, RungFault>
    requires vars { pins_and_inputs pair.now.imp ≡ d.old.store.vars }
    requires variables { RepresentAll d.old.store (variable d.old.store.vars) made.now.variables.items }
    requires count { length made.now.variables.items ≡ d.old.store.vars }
    requires cells { HaveCells d.old.store (boxes_first pair.now.imp) pair.now.spec pair.now.imp made.now.spec.items
        made.now.imp.items }
    ensures result { IfOk result (Represents d.new.store (table (pins_and_inputs pair.now.imp) (one_of
        (is_missed pair.now.imp) (length (in_places pair.now.imp.boxes))))) }
    ensures makes { OnOk result (Makes d.old.store d.new.store (missed_functions pair.now.imp)) }
    ensures nodes { IsErrOf result RungFault.Nodes → AreTooMany d.old.store (missed_functions pair.now.imp) }
{
    laws::functions();
    laws::making();
    let imp_net = pair.imp();
    let variables = input_variables(alloc, imp_net.boxes())?;
    let places = input_places(alloc, imp_net.boxes())?;
    let given = picked(alloc, &made.variables, &variables)?;
    let there = picked(alloc, &made.imp, &places)?;
    let any = some_differ(alloc, d, &given, &there)?;
    Ok(any)
}
