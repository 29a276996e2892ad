//! The causes for which two netlists are refused, tried in the order of their ranks. The order is part of the report: a
//! register that one side lacks, or a clock that is no input, is reported as such before any clocks are compared.
ghost use Rattle.std.specs.Prelude.{◌≡◌, ◌⊎◌, ◌∷◌, ◌+◌, ◌<◌, ◌≤◌, [], ℕ, List, All, None, IsSome, IfErr, OnOk};
ghost use Rattle.bb_net.specs.Pairs.{BoxTexts, pin_count};
ghost use Rattle.bb_bits.specs.Closures.{IsFirst};
ghost use Rattle.bb_net.specs.declared.flat.Reg.{Reg};
ghost use Rattle.bb_match.specs.declared.fault.MatchFault.TheVariants as faults;
ghost use Rattle.bb_net.specs.CutPoints.{state_texts};
ghost use Rattle.bb_match.specs.Inside.Places.{ArePlaces, IsIndexOf};
ghost use Rattle.bb_match.specs.Refusals.{AreAmong, HaveSameClocks, Fit, HasNoClock, IsFirstClockedApart};
ghost use Rattle.bb_match.specs.Refusals.{IsFirstMissing, IsFirstPairRefusal, most_pins};

use crate::clocks::{first_clocked_apart, first_without_clock};
use crate::fault::MatchFault;
use crate::index::Index;
use crate::pins::are_too_many;
use crate::places::{Places, first_missing};
use bb_bits::Name;
use bb_net::{BoxName, Flat, Net, Reg};

/// A specification has to be complete.
pub(crate) fn check_boxes(boxes: &[BoxName]) -> Result<(), MatchFault>
    ensures ok { OnOk result (boxes.now ≡ []) }
    ensures fault { IfErr result (λ fault. (fault ≡ faults.NoMemory)
        ⊎ ((box : BoxTexts) × (rest : List BoxTexts) × (boxes.now ≡ box ∷ rest) × (fault ≡ faults.SpecBox box.path))) }
{
    match boxes.first() {
        None => Ok(()),
        Some(first) => Err(MatchFault::SpecBox {
            name: first.path().clone()?,
        }),
    }
}

fn check_ports(others: &Places, texts: &[Name]) -> Result<(), MatchFault>
    ensures ok { (list : List (List ℕ)) → ArePlaces list others.now.entries → OnOk result (AreAmong texts.now list) }
    ensures fault { (list : List (List ℕ)) → ArePlaces list others.now.entries
        → IfErr result (λ fault. (fault ≡ faults.NoMemory)
        ⊎ ((n : List ℕ) × (fault ≡ faults.PortDiffers n) × IsFirstMissing texts.now list n)) }
{
    match first_missing(others, texts) {
        None => Ok(()),
        Some(text) => Err(MatchFault::PortDiffers {
            name: text.clone()?,
        }),
    }
}

fn check_registers(others: &Places, texts: &[Name]) -> Result<(), MatchFault>
    ensures ok { (list : List (List ℕ)) → ArePlaces list others.now.entries → OnOk result (AreAmong texts.now list) }
    ensures fault { (list : List (List ℕ)) → ArePlaces list others.now.entries
        → IfErr result (λ fault. (fault ≡ faults.NoMemory)
        ⊎ ((n : List ℕ) × (fault ≡ faults.RegDiffers n) × IsFirstMissing texts.now list n)) }
{
    match first_missing(others, texts) {
        None => Ok(()),
        Some(text) => Err(MatchFault::RegDiffers {
            name: text.clone()?,
        }),
    }
}

fn check_clocks(regs: &[Reg]) -> Result<(), MatchFault>
    ensures ok { OnOk result (All (λ r. IsSome r.clock) regs.now) }
    ensures fault { IfErr result (λ fault. (fault ≡ faults.NoMemory)
        ⊎ ((r : Reg) × IsFirst HasNoClock regs.now r × (fault ≡ faults.ClockNotInput r.text))) }
{
    match first_without_clock(regs) {
        None => Ok(()),
        Some(r) => Err(MatchFault::ClockNotInput {
            name: r.text.clone()?,
        }),
    }
}

fn check_same_clocks(spec: &Flat, imp: &Flat, imp_regs: &Places) -> Result<(), MatchFault>
    requires places { ArePlaces (state_texts imp.now) imp_regs.now.entries }
    ensures ok { OnOk result (HaveSameClocks spec.now imp.now) }
    ensures fault { IfErr result (λ fault. (fault ≡ faults.NoMemory)
        ⊎ ((n : List ℕ) × (fault ≡ faults.ClockDiffers n) × IsFirstClockedApart spec.now imp.now n)) }
{
    match first_clocked_apart(spec, imp, imp_regs) {
        None => Ok(()),
        Some(r) => Err(MatchFault::ClockDiffers {
            name: r.text.clone()?,
        }),
    }
}

fn check_pins(net: &Net) -> Result<(), MatchFault>
    ensures ok { OnOk result (net.now.inputs + pin_count net.now.boxes ≤ most_pins) }
    ensures fault { IfErr result (λ fault.
        (fault ≡ faults.TooManyPins) × (most_pins < net.now.inputs + pin_count net.now.boxes)) }
{
    if are_too_many(net.inputs(), net.boxes()) {
        Err(MatchFault::TooManyPins)
    } else {
        Ok(())
    }
}

/// Without a care output; with one, that output is taken out of the specification before.
pub(crate) fn check(
    spec: &Flat,
    of_spec: &Index,
    imp: &Flat,
    of_imp: &Index,
) -> Result<(), MatchFault>
    requires of_spec { IsIndexOf spec.now of_spec.now.reg_texts.items of_spec.now.ins.entries
        of_spec.now.regs.entries of_spec.now.outs.entries }
    requires of_imp { IsIndexOf imp.now of_imp.now.reg_texts.items of_imp.now.ins.entries of_imp.now.regs.entries
        of_imp.now.outs.entries }
    ensures ok { OnOk result (Fit None spec.now imp.now) }
    ensures fault { IfErr result (λ fault. (fault ≡ faults.NoMemory) ⊎ IsFirstPairRefusal None spec.now imp.now fault) }
{
    check_boxes(spec.boxes())?;
    check_ports(&of_imp.ins, spec.ins())?;
    check_ports(&of_imp.outs, spec.outs())?;
    check_ports(&of_spec.ins, imp.ins())?;
    check_ports(&of_spec.outs, imp.outs())?;
    check_registers(&of_imp.regs, &of_spec.reg_texts)?;
    check_registers(&of_spec.regs, &of_imp.reg_texts)?;
    check_clocks(spec.regs())?;
    check_clocks(imp.regs())?;
    check_same_clocks(spec, imp, &of_imp.regs)?;
    check_pins(imp.net())
}
