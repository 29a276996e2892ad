//! The bound on inputs and pins of boxes. It counts down from the bound, so no sum can overflow.
ghost use Rattle.std.specs.Prelude.{◌≡◌, ◌+◌, ◌<◌, ◌≤◌, length, IfSome, IfNone, MatchBool};
ghost use Rattle.bb_net.specs.Pairs.{pin_count};
ghost use Rattle.bb_match.specs.Refusals.{most_pins};

use bb_net::BoxPins;

const MOST_PINS: usize = 2048;

fn left_without(left: usize, pins: &BoxPins) -> Option<usize>
    ensures some { IfSome result (λ rest. rest + (length pins.now.ins + length pins.now.outs) ≡ left) }
    ensures none { IfNone result (left < length pins.now.ins + length pins.now.outs) }
{
    left.checked_sub(pins.ins().len())?
        .checked_sub(pins.outs().len())
}

/// More than 2,048 together.
pub(crate) fn are_too_many(inputs: u32, boxes: &[BoxPins]) -> bool
    ensures many { MatchBool result (most_pins < inputs + pin_count boxes.now) (inputs + pin_count boxes.now
        ≤ most_pins) }
{
    let Some(mut left) = MOST_PINS.checked_sub(inputs as usize) else {
        return true;
    };
    for pins in boxes {
        let Some(rest) = left_without(left, pins) else {
            return true;
        };
        left = rest;
    }
    false
}
