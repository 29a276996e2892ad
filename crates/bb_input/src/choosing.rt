//! The quantifiers of the check: input pins for all, output pins for some, from the last box to the first, so that the
//! choice for a box may depend on everything before it. The functions are 1 where no choices suit, so the quantifiers
//! are the opposite ones.

ghost use Rattle.std.specs.Prelude.{◌≡◌, ◌+◌, ◌-◌, ◌<◌, ◌≤◌, ℕ, length, take, drop, IfOk, OnOk, IsErrOf};
ghost use Rattle.std.specs.Prelude.{slice_index_or};
ghost use Rattle.bb_net.specs.Netlists.{box_at};
ghost use Rattle.bb_net.specs.Pairs.{pin_count};
ghost use Rattle.bb_uniq.specs.Inside.Nodes.{IsRef};
ghost use Rattle.bb_uniq.specs.Inside.Meaning.{truth_of};
ghost use Rattle.bb_sym.specs.Inside.Made.{Makes, AreTooMany, Represents, ref_at};
ghost use Rattle.bb_input.specs.Inside.Order.{AreStarts};
ghost use Rattle.bb_input.specs.Inside.Prefixes.{boxes_after};
ghost use Rattle.bb_input.specs.InputFunctions.{box_quantified, boxes_quantified, box_functions, boxes_functions};

use bb_dd::{Diagrams, Ref};
use bb_net::BoxPins;
use bb_sym::plain::quantify_block;
use bb_sym::{RungFault, laws};
use std::alloc::Global;

/// `stages[b]` is the function before box `b` is quantified: from it the rows of that box are read. Output pins of box
/// `b` begin at `starts[b]`, and its input pins are right before them.
pub(crate) fn quantify_boxes(
    alloc: Global,
    d: &mut Diagrams,
    f: Ref,
    boxes: &[BoxPins],
    starts: &[u32],
    stages: &mut [Ref],
) -> Result<Ref, RungFault>
    requires f { IsRef d.old.store f.0 }
    requires vars { pin_count boxes.now ≤ d.old.store.vars }
    requires few { d.old.store.vars ≤ 2048 }
    requires count { length starts.now ≡ length boxes.now }
    requires starts { AreStarts boxes.now starts.now }
    requires stages { length stages.old ≡ length boxes.now }
    ensures count { length stages.new ≡ length boxes.now }
    ensures stages { OnOk result ((b : ℕ) → b < length boxes.now
        → Represents d.new.store (boxes_after (b + 1) boxes.now (truth_of d.old.store f.0)) (ref_at stages.new b)) }
    ensures result { IfOk result (Represents d.new.store (boxes_quantified 0 boxes.now (truth_of d.old.store f.0))) }
    ensures makes { OnOk result (Makes d.old.store d.new.store (boxes_functions 0 boxes.now
        (truth_of d.old.store f.0))) }
    ensures nodes { IsErrOf result RungFault.Nodes
        → AreTooMany d.old.store (boxes_functions 0 boxes.now (truth_of d.old.store f.0)) }
{
    laws::making();
    let mut r = f;
    let mut left = boxes.len();
    while left > 0 {
        left -= 1;
        stages[left] = r;
        r = quantify_box(alloc, d, r, starts[left], &boxes[left])?;
    }
    Ok(r)
}

/// "For all outputs", then "for some inputs": the result is 1 where some row has no outputs that suit.
fn quantify_box(
    alloc: Global,
    d: &mut Diagrams,
    f: Ref,
    start: u32,
    pins: &BoxPins,
) -> Result<Ref, RungFault>
    requires f { IsRef d.old.store f.0 }
    requires before { length pins.now.ins ≤ start }
    requires vars { start + length pins.now.outs ≤ d.old.store.vars }
    requires few { d.old.store.vars ≤ 2048 }
    ensures result { IfOk result (Represents d.new.store (box_quantified (start - length pins.now.ins) pins.now
        (truth_of d.old.store f.0))) }
    ensures makes { OnOk result (Makes d.old.store d.new.store (box_functions (start - length pins.now.ins) pins.now
        (truth_of d.old.store f.0))) }
    ensures nodes { IsErrOf result RungFault.Nodes
        → AreTooMany d.old.store (box_functions (start - length pins.now.ins) pins.now (truth_of d.old.store f.0)) }
{
    laws::making();
    let ins = pins.ins().len() as u32;
    let outs = pins.outs().len() as u32;
    let r = quantify_block(alloc, d, true, f, start, outs)?;
    let r = quantify_block(alloc, d, false, r, start - ins, ins)?;
    Ok(r)
}
