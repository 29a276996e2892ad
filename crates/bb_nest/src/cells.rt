//! Nestedness by cells, for callers that have no BDDs; it implies nestedness by functions. The checks themselves do not
//! use it: two netlists of one text may read different ones of several equal cells at a pin.

ghost use Rattle.std.specs.Prelude.{◌≡◌, ◌≢◌, ◌<◌, ◌↔◌, ℕ, true, length, take, All, AllPairs, Contains, slice_index};
ghost use Rattle.bb_net.specs.Netlists.{box_at};
ghost use Rattle.bb_nest.specs.Nested.{AreNestedByCells, pin_cells};
ghost use Rattle.bb_nest.specs.Inside.Readers.{HoldBoxes};

use bb_net::{BoxPins, Pair, kinds_may_differ};

/// Each box has a sharing class of its own, and its input pins include the cells at all pins of the boxes before it.
pub fn nested(pair: &Pair) -> bool
    ensures { result ≡ true ↔ AreNestedByCells pair.now.imp pair.now.kinds }
{
    all_differ(pair) && hold_earlier(pair.imp().boxes())
}

/// Boxes that share a table are never nested: two of them cannot each be given rows of their own. Sharing classes are
/// numbered by first box, so if all differ each number is its box.
pub(crate) fn all_differ(pair: &Pair) -> bool
    ensures { result ≡ true ↔ AllPairs ◌≢◌ pair.now.kinds }
{
    kinds_may_differ();
    are_places(pair.kinds())
}

fn are_places(kinds: &[u32]) -> bool
    ensures { result ≡ true ↔ ((b : ℕ) → b < length kinds.now → slice_index kinds.now b ≡ b) }
{
    for (b, kind) in kinds.iter().enumerate() {
        if *kind as usize != b {
            return false;
        }
    }
    true
}

fn hold_earlier(boxes: &[BoxPins]) -> bool
    ensures { result ≡ true ↔ ((b : ℕ) → b < length boxes.now → HoldBoxes (box_at boxes.now b).ins (take b boxes.now)) }
{
    for (b, pins) in boxes.iter().enumerate() {
        if !hold_boxes(pins.ins(), &boxes[..b]) {
            return false;
        }
    }
    true
}

fn hold_boxes(ins: &[u32], boxes: &[BoxPins]) -> bool
    ensures { result ≡ true ↔ HoldBoxes ins.now boxes.now }
{
    for pins in boxes {
        if !hold_pins(ins, pins) {
            return false;
        }
    }
    true
}

fn hold_pins(ins: &[u32], pins: &BoxPins) -> bool
    ensures { result ≡ true ↔ All (Contains ins.now) (pin_cells pins.now) }
{
    hold_cells(ins, pins.ins()) && hold_cells(ins, pins.outs())
}

fn hold_cells(ins: &[u32], cells: &[u32]) -> bool
    ensures { result ≡ true ↔ All (Contains ins.now) cells.now }
{
    for cell in cells {
        if !ins.contains(cell) {
            return false;
        }
    }
    true
}
