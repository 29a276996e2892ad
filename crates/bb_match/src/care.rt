//! The care output: found among the outputs of the specification by its name, and taken out of them.
ghost use Rattle.std.specs.Prelude.{◌≡◌, ◌⊎◌, ◌<◌, ◌^◌, length, slice_get, IfErr, IfNone, IfOk, IfSome, Some};
ghost use Rattle.bb_net.specs.Flats.{IsFlat};
ghost use Rattle.bb_match.specs.declared.fault.MatchFault.TheVariants as faults;
ghost use Rattle.bb_match.specs.Pairing.{without, without_output};
ghost use Rattle.bb_match.specs.Refusals.{IsMissing};

use crate::fault::MatchFault;
use bb_bits::{Name, NoMemory};
use bb_care::{numbers_below, with_outs};
use bb_net::{Flat, FlatParts, Net};
use std::alloc::Global;

/// The first place of a text; none where it is missing.
pub fn place_of(texts: &[Name], text: &[u8]) -> Option<usize>
    ensures some { IfSome result (λ place. slice_get texts.now place ≡ Some text.now) }
    ensures none { IfNone result (IsMissing texts.now text.now) }
{
    for (place, name) in texts.iter().enumerate() {
        if name.bytes() == text {
            return Some(place);
        }
    }
    None
}

/// `NoCare` where none of the outputs has this name.
pub(crate) fn care_place(alloc: Global, outs: &[Name], care: &[u8]) -> Result<usize, MatchFault>
    ensures ok { IfOk result (λ place. slice_get outs.now place ≡ Some care.now) }
    ensures fault { IfErr result (λ fault.
        (fault ≡ faults.NoMemory) ⊎ ((fault ≡ faults.NoCare care.now) × IsMissing outs.now care.now)) }
{
    match place_of(outs, care) {
        Some(place) => Ok(place),
        None => Err(MatchFault::NoCare {
            name: Name::of(alloc, care)?,
        }),
    }
}

fn net_without(alloc: Global, net: Net, place: usize) -> Result<Net, NoMemory>
    requires there { place < length net.outs }
    requires few { length net.outs < 2 ^ 32 }
    ensures net { IfOk result (λ rest. rest ≡ record net { outs = without place net.outs }) }
{
    let mut picks = numbers_below(alloc, net.outs().len() as u32)?;
    let _ = picks.remove(place);
    with_outs(alloc, net, &picks)
}

/// Only an output of the top is taken out; registers come after these and keep their order.
pub(crate) fn without_output(alloc: Global, flat: Flat, place: usize) -> Result<Flat, NoMemory>
    requires there { place < length flat.outs }
    ensures rest { IfOk result (λ rest. rest ≡ without_output place flat) }
    ensures kept { IfOk result (λ rest. IsFlat flat) }
{
    let FlatParts {
        net,
        ins,
        regs,
        mut outs,
        boxes,
    } = flat.into_parts();
    let rest = net_without(alloc, net, place)?;
    let _ = outs.remove(place);
    Ok(Flat::of(rest, ins, regs, outs, boxes))
}
