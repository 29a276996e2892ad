//! Joins two netlists that fit. The specification stays as it is and only the implementation's inputs and outputs are
//! permuted, so a report lists everything as the specification does.
ghost use Rattle.std.specs.Prelude.{◌≡◌, ◌++◌, length, map, None, IfOk, OnOk};
ghost use Rattle.bb_net.specs.Flats.{IsFlat};
ghost use Rattle.bb_net.specs.CutPoints.{TopOutput, NextState, state_texts, cut_inputs, cut_outputs};
ghost use Rattle.bb_match.specs.Pairing.{IsPlainPairOf, Picks, output_name};
ghost use Rattle.bb_match.specs.Inside.Places.{IsIndexOf};
ghost use Rattle.bb_match.specs.Refusals.{Fit};

use crate::index::Index;
use crate::kinds::kinds_of;
use crate::parts::PairParts;
use crate::places::places_after;
use bb_bits::{Name, NoMemory};
use bb_net::{Flat, FlatParts, OutName, Reg};
use std::alloc::Global;

/// Port bits by name, then registers by name, which come after all port bits.
pub(crate) fn input_numbers(
    alloc: Global,
    spec: &Flat,
    of_spec: &Index,
    imp: &Flat,
    of_imp: &Index,
) -> Result<Vec<u32>, NoMemory>
    requires fit { Fit None spec.now imp.now }
    requires of_spec { IsIndexOf spec.now of_spec.now.reg_texts.items of_spec.now.ins.entries
        of_spec.now.regs.entries of_spec.now.outs.entries }
    requires of_imp { IsIndexOf imp.now of_imp.now.reg_texts.items of_imp.now.ins.entries of_imp.now.regs.entries
        of_imp.now.outs.entries }
    ensures numbers { IfOk result (λ numbers. Picks (cut_inputs spec.now) numbers.items (cut_inputs imp.now)) }
{
    let ins = spec.ins();
    places_after(
        alloc,
        &of_spec.ins,
        imp.ins(),
        ins.len() as u32,
        &of_spec.regs,
        &of_imp.reg_texts,
    )
}

/// The reverse direction of `input_numbers`: outputs are picked in the order of the specification.
pub(crate) fn output_picks(
    alloc: Global,
    spec: &Flat,
    of_spec: &Index,
    imp: &Flat,
    of_imp: &Index,
) -> Result<Vec<u32>, NoMemory>
    requires fit { Fit None spec.now imp.now }
    requires of_spec { IsIndexOf spec.now of_spec.now.reg_texts.items of_spec.now.ins.entries
        of_spec.now.regs.entries of_spec.now.outs.entries }
    requires of_imp { IsIndexOf imp.now of_imp.now.reg_texts.items of_imp.now.ins.entries of_imp.now.regs.entries
        of_imp.now.outs.entries }
    ensures picks { IfOk result (λ picks. Picks (cut_outputs imp.now) picks.items (cut_outputs spec.now)) }
{
    let outs = imp.outs();
    places_after(
        alloc,
        &of_imp.outs,
        spec.outs(),
        outs.len() as u32,
        &of_imp.regs,
        &of_spec.reg_texts,
    )
}

fn add_outs(outs: Vec<Name>, names: &mut Vec<OutName>) -> Result<(), NoMemory>
    ensures added { OnOk result (names.new.items
        ≡ names.old.items ++ map (λ text. output_name (TopOutput text)) outs.items) }
{
    for text in outs {
        names.push(OutName { next: false, text })?;
    }
    Ok(())
}

fn add_next_states(regs: Vec<Reg>, names: &mut Vec<OutName>) -> Result<(), NoMemory>
    ensures added { OnOk result (names.new.items
        ≡ names.old.items ++ map (λ r. output_name (NextState r.text)) regs.items) }
{
    for r in regs {
        names.push(OutName {
            next: true,
            text: r.text,
        })?;
    }
    Ok(())
}

// In the order of a flat netlist's outputs.
fn out_names(alloc: Global, outs: Vec<Name>, regs: Vec<Reg>) -> Result<Vec<OutName>, NoMemory>
    ensures names { IfOk result (λ names. names.items
        ≡ map (λ text. output_name (TopOutput text)) outs.items
        ++ map (λ r. output_name (NextState r.text)) regs.items) }
{
    let mut names = Vec::with_capacity(alloc, outs.len().saturating_add(regs.len()))?;
    add_outs(outs, &mut names)?;
    add_next_states(regs, &mut names)?;
    Ok(names)
}

/// `numbers` are those of the implementation's inputs, `picks` the outputs to be taken from it.
pub(crate) fn joined(
    alloc: Global,
    spec: Flat,
    imp: Flat,
    shared: bool,
    mut reg_texts: Vec<Name>,
    numbers: &[u32],
    picks: &[u32],
) -> Result<PairParts, NoMemory>
    requires fit { Fit None spec imp }
    requires texts { reg_texts.items ≡ state_texts spec }
    requires numbers { Picks (cut_inputs spec) numbers.now (cut_inputs imp) }
    requires picks { Picks (cut_outputs imp) picks.now (cut_outputs spec) }
    ensures pair { IfOk result (λ p. IsPlainPairOf shared spec imp p) }
    ensures kept { IfOk result (λ p. IsFlat spec × IsFlat imp) }
{
    let FlatParts {
        net: spec_net,
        mut ins,
        regs,
        outs,
        boxes: _,
    } = spec.into_parts();
    let of_imp = imp.into_parts();
    let imp_net = of_imp.net.rearranged(alloc, numbers, picks)?;
    ins.append(&mut reg_texts)?;
    let outs = out_names(alloc, outs, regs)?;
    let kinds = kinds_of(alloc, &of_imp.boxes, shared)?;
    Ok(PairParts {
        spec: spec_net,
        imp: imp_net,
        ins,
        outs,
        boxes: of_imp.boxes,
        kinds,
    })
}
