//! The points that refute a choice: the inputs lead to these bits at the input pins, and some output is wrong. The
//! inputs are quantified afterwards, so what remains is about pins only.

ghost use Rattle.std.specs.Prelude.{◌≡◌, ◌≤◌, length, IfOk, OnOk, IsErrOf};
ghost use Rattle.bb_bits.specs.Truth.{variable};
ghost use Rattle.bb_net.specs.Pairs.{pin_count};
ghost use Rattle.bb_sym.specs.Plain.{table};
ghost use Rattle.bb_sym.specs.Inside.Made.{Makes, AreTooMany, Represents, RepresentAll, RepresentFirst, AreCells};
ghost use Rattle.bb_sym.specs.Inside.Made.{HaveCells};
ghost use Rattle.bb_input.specs.InputFunctions.{pins_and_inputs, boxes_first, refutes};
ghost use Rattle.bb_input.specs.Inside.Order.{AreStarts};
ghost use Rattle.bb_input.specs.Inside.Prefixes.{cell_functions, refuting_functions};

use crate::missing::some_missed;
use bb_dd::{Diagrams, Ref};
use bb_net::Pair;
use bb_sym::plain::{PlainCells, plain_cells, some_wrong};
use bb_sym::{RungFault, laws};
use std::alloc::Global;

pub(crate) fn ordered_cells(
    alloc: Global,
    d: &mut Diagrams,
    pair: &Pair,
    vars: u32,
    pins: u32,
    starts: &[u32],
) -> Result<PlainCells, RungFault>
    requires vars { vars ≡ pins_and_inputs pair.now.imp }
    requires store { vars ≡ d.old.store.vars }
    requires few { vars ≤ 2048 }
    requires pins { pins ≡ pin_count pair.now.imp.boxes }
    requires count { length starts.now ≡ length pair.now.imp.boxes }
    requires starts { AreStarts pair.now.imp.boxes starts.now }
    ensures variables { IfOk result (λ made.
        RepresentFirst d.new.store (variable d.new.store.vars) d.new.store.vars made.variables.items) }
    ensures refs { IfOk result (λ made.
        AreCells d.new.store pair.now.spec pair.now.imp made.spec.items made.imp.items) }
    ensures cells { IfOk result (λ made.
        HaveCells d.new.store (boxes_first pair.now.imp) pair.now.spec pair.now.imp made.spec.items made.imp.items) }
    ensures makes { OnOk result (Makes d.old.store d.new.store (cell_functions pair.now.spec pair.now.imp)) }
    ensures nodes { IsErrOf result RungFault.Nodes
        → AreTooMany d.old.store (cell_functions pair.now.spec pair.now.imp) }
{
    let spec = pair.spec();
    let imp = pair.imp();
    let made = plain_cells(alloc, d, spec, imp, vars, pins, starts)?;
    Ok(made)
}

/// Each function on the way counts as beads, so the definitions list them all: wrong outputs, missed pins, the
/// complement of these, and the conjunction.
pub(crate) fn refuting(
    alloc: Global,
    d: &mut Diagrams,
    pair: &Pair,
    made: &PlainCells,
) -> Result<Ref, RungFault>
    requires vars { pins_and_inputs pair.now.imp ≡ d.old.store.vars }
    requires variables { RepresentAll d.old.store (variable d.old.store.vars) made.now.variables.items }
    requires count { length made.now.variables.items ≡ d.old.store.vars }
    requires refs { AreCells d.old.store pair.now.spec pair.now.imp made.now.spec.items made.now.imp.items }
    requires cells { HaveCells d.old.store (boxes_first pair.now.imp) pair.now.spec pair.now.imp made.now.spec.items
        made.now.imp.items }
    ensures result { IfOk result (Represents d.new.store (table (pins_and_inputs pair.now.imp) (refutes
        pair.now.spec pair.now.imp))) }
    ensures makes { OnOk result (Makes d.old.store d.new.store (refuting_functions pair.now.spec pair.now.imp)) }
    ensures nodes { IsErrOf result RungFault.Nodes
        → AreTooMany d.old.store (refuting_functions pair.now.spec pair.now.imp) }
{
    laws::functions();
    laws::making();
    let spec = pair.spec();
    let imp = pair.imp();
    let wrong = some_wrong(alloc, d, spec, imp, made)?;
    let missed = some_missed(alloc, d, pair, made)?;
    let led = d.not(missed)?;
    let both = d.and(wrong, led)?;
    Ok(both)
}
