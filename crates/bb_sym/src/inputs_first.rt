//! The variable order inputs, then pins box after box. Pins are quantified from the last on, so they are last in the
//! order and what remains needs no renaming.

ghost use Rattle.std.specs.Prelude.{◌≡◌, ◌+◌, ◌<◌, ◌≤◌, ℕ, [], length, take, IfOk, OnOk, IsErrOf, slice_index_or};
ghost use Rattle.bb_net.specs.Values.{output_pins};
ghost use Rattle.bb_sym.specs.Functions.{inputs_first, plain_functions, inputs_and_pins};
ghost use Rattle.bb_sym.specs.Inside.Made.{Makes, AreTooMany, AreCells, HaveCells};

use crate::RungFault;
use crate::cells::{PlainCells, plain_cells};
use bb_bits::NoMemory;
use bb_dd::{Diagrams, Ref};
use bb_net::{BoxPins, Net};
use std::alloc::Global;

pub(crate) fn ordered_cells(
    alloc: Global,
    d: &mut Diagrams,
    spec: &Net,
    imp: &Net,
    vars: u32,
) -> Result<PlainCells, RungFault>
    requires inputs { spec.now.inputs ≡ imp.now.inputs }
    requires no_box { spec.now.boxes ≡ [] }
    requires few { vars ≤ 2048 }
    requires vars { vars ≡ inputs_and_pins imp.now }
    requires store { vars ≡ d.old.store.vars }
    ensures refs { IfOk result (λ made. AreCells d.new.store spec.now imp.now made.spec.items made.imp.items) }
    ensures cells { IfOk result (λ made.
        HaveCells d.new.store (inputs_first imp.now) spec.now imp.now made.spec.items made.imp.items) }
    ensures makes { OnOk result (Makes d.old.store d.new.store (plain_functions spec.now imp.now)) }
    ensures nodes { IsErrOf result RungFault.Nodes → AreTooMany d.old.store (plain_functions spec.now imp.now) }
{
    let starts = first_variables(alloc, imp.inputs(), imp.boxes())?;
    let made = plain_cells(alloc, d, spec, imp, vars, 0, &starts)?;
    Ok(made)
}

pub(crate) fn count_pins(boxes: &[BoxPins]) -> u32
    requires { output_pins boxes.now ≤ 2048 }
    ensures { result ≡ output_pins boxes.now }
{
    let mut count = 0;
    for pins in boxes {
        count += pins.outs().len() as u32;
    }
    count
}

/// Box `b` has its output pins from entry `b` on.
fn first_variables(alloc: Global, first: u32, boxes: &[BoxPins]) -> Result<Vec<u32>, NoMemory>
    requires { first + output_pins boxes.now ≤ 2048 }
    ensures count { IfOk result (λ starts. length starts.items ≡ length boxes.now) }
    ensures starts { IfOk result (λ starts.
        (b : ℕ) → b < length boxes.now → slice_index_or starts.items b 0 ≡ first + output_pins (take b boxes.now)) }
{
    let mut starts = Vec::with_capacity(alloc, boxes.len())?;
    let mut next = first;
    for pins in boxes {
        starts.push(next)?;
        next += pins.outs().len() as u32;
    }
    Ok(starts)
}
