//! The variable order of this check: box after box, input pins before output pins, then the inputs. Inputs are
//! quantified first, so they are last. A box's pins are adjacent, so each box is two blocks.

ghost use Rattle.std.specs.Prelude.{◌≡◌, ◌+◌, ◌++◌, ◌<◌, ◌≤◌, ℕ, length, take, IfOk, OnOk, slice_index_or};
ghost use Rattle.std.specs.List.{range_with_len};
ghost use Rattle.bb_net.specs.Netlists.{box_at};
ghost use Rattle.bb_net.specs.Pairs.{pin_count};
ghost use Rattle.bb_input.specs.InputFunctions.{in_places, pin_places};
ghost use Rattle.bb_input.specs.Inside.Order.{AreStarts, in_variables};

use bb_bits::NoMemory;
use bb_net::BoxPins;
use std::alloc::Global;

#[tactic(auto, using(crate::proofs::OrderLemmas::count_more, crate::proofs::OrderLemmas::fits_more))]
pub(crate) fn count_pins(boxes: &[BoxPins]) -> u32
    requires { pin_count boxes.now ≤ 2048 }
    ensures { result ≡ pin_count boxes.now }
{
    let mut count = 0;
    for pins in boxes {
        count += pins.ins().len() as u32 + pins.outs().len() as u32;
    }
    count
}

/// Entry `b` is for box `b`; its input pins are right before.
#[tactic(auto, using(crate::proofs::OrderLemmas::count_more, crate::proofs::OrderLemmas::fits_more))]
pub(crate) fn first_outputs(alloc: Global, boxes: &[BoxPins]) -> Result<Vec<u32>, NoMemory>
    requires { pin_count boxes.now ≤ 2048 }
    ensures count { IfOk result (λ starts. length starts.items ≡ length boxes.now) }
    ensures starts { IfOk result (λ starts. AreStarts boxes.now starts.items) }
{
    let mut starts = Vec::with_capacity(alloc, boxes.len())?;
    let mut next = 0;
    for pins in boxes {
        let start = next + pins.ins().len() as u32;
        starts.push(start)?;
        next = start + pins.outs().len() as u32;
    }
    Ok(starts)
}

/// In the same order as `input_places`.
#[tactic(auto, using(crate::proofs::OrderLemmas::variable_lists))]
pub(crate) fn input_variables(alloc: Global, boxes: &[BoxPins]) -> Result<Vec<u32>, NoMemory>
    requires { pin_count boxes.now ≤ 2048 }
    ensures { IfOk result (λ variables. variables.items ≡ in_variables 0 boxes.now) }
{
    let mut variables = Vec::new(alloc);
    let mut next = 0;
    for pins in boxes {
        let count = pins.ins().len() as u32;
        push_range(&mut variables, next, count)?;
        next += count + pins.outs().len() as u32;
    }
    Ok(variables)
}

fn push_range(into: &mut Vec<u32>, first: u32, count: u32) -> Result<(), NoMemory>
    requires { first + count ≤ 2048 }
    ensures { OnOk result (into.new.items ≡ into.old.items ++ range_with_len first count) }
{
    for k in 0..count {
        into.push(first + k)?;
    }
    Ok(())
}

/// In the same order as `input_variables`, so both lists are compared entry by entry.
#[tactic(auto, using(crate::proofs::OrderLemmas::places_more))]
pub(crate) fn input_places(alloc: Global, boxes: &[BoxPins]) -> Result<Vec<u32>, NoMemory>
    ensures { IfOk result (λ places. places.items ≡ in_places boxes.now) }
{
    let mut places = Vec::new(alloc);
    for pins in boxes {
        places.extend_from_slice(pins.ins())?;
    }
    Ok(places)
}

/// In the order of the pins' variables.
#[tactic(auto, using(crate::proofs::PinLemmas::pins_more))]
pub(crate) fn all_places(alloc: Global, boxes: &[BoxPins]) -> Result<Vec<u32>, NoMemory>
    ensures { IfOk result (λ places. places.items ≡ pin_places boxes.now) }
{
    let mut places = Vec::new(alloc);
    for pins in boxes {
        places.extend_from_slice(pins.ins())?;
        places.extend_from_slice(pins.outs())?;
    }
    Ok(places)
}
