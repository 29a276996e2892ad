//! Rows of steps: constants, bits of nets, and zeros on the left. Places of bits go from the most significant on, as in
//! all lists of bits here.

ghost use Rattle.std.specs.Prelude.{◌≡◌, ◌<◌, ◌≤◌, ◌+◌, ◌-◌, ◌^◌, ◌++◌, ◌∷◌, [], List, length, map, IfOk, OnOk, nat_le};
ghost use Rattle.std.specs.Prelude.{if◌then◌else◌};
ghost use Rattle.std.specs.List.{range_with_len};
ghost use Rattle.bb_bits.specs.Numbers.{bits_of};
ghost use Rattle.bb_names.specs.declared.net.NetInfo.{NetInfo};
ghost use Rattle.bb_expr.specs.declared.step.BitStep.{BitStep};
ghost use Rattle.bb_expr.specs.declared.step.BitStep.TheVariants as of;
ghost use Rattle.bb_expr.specs.Cells.{MadeTerms};
ghost use Rattle.bb_expr.specs.Inside.Growing.{Adds, AddsRow, widened};

use crate::step::BitStep;
use bb_bits::NoMemory;
use std::alloc::Global;

/// Appends a step; the result is its place.
pub(crate) fn push(steps: &mut Vec<BitStep>, step: BitStep) -> Result<u32, NoMemory>
    requires { length steps.old.items < 2 ^ 32 }
    ensures place { IfOk result (λ place. place ≡ length steps.old.items) }
    ensures steps { OnOk result (steps.new.items ≡ steps.old.items ++ step ∷ []) }
{
    let place = steps.len() as u32;
    steps.push(step)?;
    Ok(place)
}

/// Appends a step to a row of steps, and its place to the row's places.
pub(crate) fn add(
    steps: &mut Vec<BitStep>,
    places: &mut Vec<u32>,
    step: BitStep,
) -> Result<(), NoMemory>
    requires { length steps.old.items < 2 ^ 32 }
    ensures { (rows old : List BitStep) → AddsRow rows old steps.old.items places.old.items
        → OnOk result (AddsRow (rows ++ step ∷ []) old steps.new.items places.new.items) }
{
    let place = push(steps, step)?;
    places.push(place)?;
    Ok(())
}

pub(crate) fn constants(
    alloc: Global,
    steps: &mut Vec<BitStep>,
    bits: &[bool],
) -> Result<Vec<u32>, NoMemory>
    requires { length steps.old.items + length bits.now ≤ 2 ^ 32 }
    ensures { IfOk result (λ places. AddsRow (map of.Const bits.now) steps.old.items steps.new.items places.items) }
{
    let mut places = Vec::with_capacity(alloc, bits.len())?;
    for bit in bits {
        add(steps, &mut places, BitStep::Const(*bit))?;
    }
    Ok(places)
}

/// `from` is counted from the leftmost bit of the net.
pub(crate) fn net_bits(
    alloc: Global,
    steps: &mut Vec<BitStep>,
    net: u32,
    from: u32,
    count: u32,
) -> Result<Vec<u32>, NoMemory>
    requires room { length steps.old.items + count ≤ 2 ^ 32 }
    requires fits { from + count ≤ 2 ^ 32 }
    ensures { IfOk result (λ places.
        AddsRow (map (of.Net net) (range_with_len from count)) steps.old.items steps.new.items places.items) }
{
    let mut places = Vec::with_capacity(alloc, count as usize)?;
    for turn in 0..count {
        add(steps, &mut places, BitStep::Net(net, from + turn))?;
    }
    Ok(places)
}

/// Operands are unsigned, so a wider context adds zeros and never a sign. Bits that are wide enough are left as they
/// are.
pub(crate) fn extended(
    alloc: Global,
    steps: &mut Vec<BitStep>,
    bits: &[u32],
    width: u32,
) -> Result<Vec<u32>, NoMemory>
    requires { length steps.old.items + (width - length bits.now) ≤ 2 ^ 32 }
    ensures made { (nets : List NetInfo) (m : MadeTerms) (old : List BitStep) → Adds nets m old steps.old.items bits.now
        → IfOk result (λ places. Adds nets (widened width m) old steps.new.items places.items) }
    ensures grown { OnOk result (length steps.new.items ≡ length steps.old.items + (width - length bits.now)) }
    ensures count { IfOk result (λ places. length places.items ≡ length bits.now + (width - length bits.now)) }
{
    let mut places = Vec::with_capacity(alloc, width as usize)?;
    let missing = (width as usize).saturating_sub(bits.len());
    for turn in 0..missing {
        add(steps, &mut places, BitStep::Const(false))?;
    }
    places.extend_from_slice(bits)?;
    Ok(places)
}

fn without(rest: u32, power: u32) -> u32
    ensures { result ≡ (if nat_le power rest then rest - power else rest) }
{
    if power <= rest { rest - power } else { rest }
}

pub(crate) fn number_bits(alloc: Global, number: u32) -> Result<Vec<bool>, NoMemory>
    ensures { IfOk result (λ bits. bits.items ≡ bits_of 32 number) }
{
    let mut bits = Vec::with_capacity(alloc, 32)?;
    let mut rest = number;
    for turn in 0..32u32 {
        let power = 1u32 << (31 - turn);
        bits.push(power <= rest)?;
        rest = without(rest, power);
    }
    Ok(bits)
}
