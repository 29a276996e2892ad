//! Makes the pair of a specification and an implementation, or finds the first cause for which they are refused.
//!
//! Both netlists are taken by value: cells and names are moved into the pair. Copied are only the names by which it
//! looks things up, and those of the registers, which are names of inputs and of outputs.

ghost use Rattle.std.specs.Prelude.{◌≡◌, ◌⊎◌, ◌≤◌, length, IfOk, IfErr, MatchResult, None, Some, option_copied};
ghost use Rattle.bb_net.specs.CutPoints.{state_texts, cut_inputs, cut_outputs};
ghost use Rattle.bb_net.specs.Flats.{IsFlat};
ghost use Rattle.bb_match.specs.declared.fault.MatchFault.{MatchFault};
ghost use Rattle.bb_match.specs.declared.fault.MatchFault.TheVariants.{NoMemory};
ghost use Rattle.bb_match.specs.Pairing.{IsConstrainedPairOf, IsPairOf, IsPlainPairOf, Picks};
ghost use Rattle.bb_match.specs.Inside.Places.{IsIndexOf};
ghost use Rattle.bb_match.specs.Refusals.{Fit, IsFirstPairRefusal};

use crate::care::{care_place, without_output};
use crate::checking::{check, check_boxes};
use crate::fault::MatchFault;
use crate::index::{Index, index_of};
use crate::joining::{input_numbers, joined, output_picks};
use crate::laws::pairs_are_kept;
use crate::parts::PairParts;
use bb_bits::Name;
use bb_net::{Flat, Pair};
use std::alloc::Global;

// `ins` has the numbers of the implementation's inputs in the specification, `outs` those of the specification's
// outputs in the implementation: the two arguments of `Net::rearranged`.
#[derive(Drop)]
struct Numbers {
    ins: Vec<u32>,
    outs: Vec<u32>,
}

fn numbered(
    alloc: Global,
    spec: &Flat,
    of_spec: &Index,
    imp: &Flat,
    of_imp: &Index,
) -> Result<Numbers, MatchFault>
    requires of_spec { IsIndexOf spec.now of_spec.now.reg_texts.items of_spec.now.ins.entries of_spec.now.regs.entries
        of_spec.now.outs.entries }
    requires of_imp { IsIndexOf imp.now of_imp.now.reg_texts.items of_imp.now.ins.entries of_imp.now.regs.entries
        of_imp.now.outs.entries }
    ensures fit { IfOk result (λ found. Fit None spec.now imp.now) }
    ensures ins { IfOk result (λ found. Picks (cut_inputs spec.now) found.ins.items (cut_inputs imp.now)) }
    ensures outs { IfOk result (λ found. Picks (cut_outputs imp.now) found.outs.items (cut_outputs spec.now)) }
    ensures fault { IfErr result (λ fault. (fault ≡ NoMemory) ⊎ IsFirstPairRefusal None spec.now imp.now fault) }
{
    check(spec, of_spec, imp, of_imp)?;
    let ins = input_numbers(alloc, spec, of_spec, imp, of_imp)?;
    let outs = output_picks(alloc, spec, of_spec, imp, of_imp)?;
    Ok(Numbers { ins, outs })
}

// The index of the implementation is dropped before the netlists are taken apart.
fn index_and_number(
    alloc: Global,
    spec: &Flat,
    of_spec: &Index,
    imp: &Flat,
) -> Result<Numbers, MatchFault>
    requires of_spec { IsIndexOf spec.now of_spec.now.reg_texts.items of_spec.now.ins.entries of_spec.now.regs.entries
        of_spec.now.outs.entries }
    ensures fit { IfOk result (λ found. Fit None spec.now imp.now) }
    ensures ins { IfOk result (λ found. Picks (cut_inputs spec.now) found.ins.items (cut_inputs imp.now)) }
    ensures outs { IfOk result (λ found. Picks (cut_outputs imp.now) found.outs.items (cut_outputs spec.now)) }
    ensures fault { IfErr result (λ fault. (fault ≡ NoMemory) ⊎ IsFirstPairRefusal None spec.now imp.now fault) }
{
    let of_imp = index_of(alloc, imp)?;
    numbered(alloc, spec, of_spec, imp, &of_imp)
}

fn matched(alloc: Global, spec: &Flat, imp: &Flat) -> Result<(Vec<Name>, Numbers), MatchFault>
    ensures fit { IfOk result (λ found. Fit None spec.now imp.now) }
    ensures texts { IfOk result (λ found. found.0.items ≡ state_texts spec.now) }
    ensures ins { IfOk result (λ found. Picks (cut_inputs spec.now) found.1.ins.items (cut_inputs imp.now)) }
    ensures outs { IfOk result (λ found. Picks (cut_outputs imp.now) found.1.outs.items (cut_outputs spec.now)) }
    ensures fault { IfErr result (λ fault. (fault ≡ NoMemory) ⊎ IsFirstPairRefusal None spec.now imp.now fault) }
{
    let of_spec = index_of(alloc, spec)?;
    let found = index_and_number(alloc, spec, &of_spec, imp);
    let reg_texts = of_spec.into_reg_texts();
    Ok((reg_texts, found?))
}

// Without a care output.
fn laid(alloc: Global, spec: Flat, imp: Flat, shared: bool) -> Result<PairParts, MatchFault>
    ensures ok { IfOk result (λ parts. IsPlainPairOf shared spec imp parts) }
    ensures kept { IfOk result (λ parts. IsFlat spec × IsFlat imp) }
    ensures fault { IfErr result (λ fault. (fault ≡ NoMemory) ⊎ IsFirstPairRefusal None spec imp fault) }
{
    let (reg_texts, numbers) = matched(alloc, &spec, &imp)?;
    let parts = joined(
        alloc,
        spec,
        imp,
        shared,
        reg_texts,
        &numbers.ins,
        &numbers.outs,
    )?;
    Ok(parts)
}

fn plain_pair(alloc: Global, spec: Flat, imp: Flat, shared: bool) -> Result<Pair, MatchFault>
    ensures ok { IfOk result (λ p. IsPlainPairOf shared spec imp p) }
    ensures kept { IfOk result (λ p. IsFlat spec × IsFlat imp) }
    ensures fault { IfErr result (λ fault. (fault ≡ NoMemory) ⊎ IsFirstPairRefusal None spec imp fault) }
{
    pairs_are_kept();
    let parts = laid(alloc, spec, imp, shared)?;
    Ok(parts.into_pair())
}

// The care output is taken out first; then the pair is that of the rest, made as every pair is, and guarded last. So
// fit, refusals and the order of outputs are defined once. An implementation that has an output of this name differs in
// a port.
fn constrained_pair(
    alloc: Global,
    spec: Flat,
    imp: Flat,
    care: &[u8],
    shared: bool,
) -> Result<Pair, MatchFault>
    ensures ok { IfOk result (λ p. IsConstrainedPairOf care.now shared spec imp p) }
    ensures kept { IfOk result (λ p. IsFlat spec × IsFlat imp) }
    ensures fault { IfErr result (λ fault. (fault ≡ NoMemory) ⊎ IsFirstPairRefusal (Some care.now) spec imp fault) }
{
    pairs_are_kept();
    check_boxes(spec.boxes())?;
    let place = care_place(alloc, spec.outs(), care)?;
    let cell = spec.net().outs()[place];
    let rest = without_output(alloc, spec, place)?;
    let parts = laid(alloc, rest, imp, shared)?;
    let p = parts.constrained(alloc, cell)?;
    Ok(p)
}

fn pair_or_fault(
    alloc: Global,
    spec: Flat,
    imp: Flat,
    care: Option<&[u8]>,
    shared: bool,
) -> Result<Pair, MatchFault>
    ensures ok { IfOk result (λ p. IsPairOf (option_copied care.entry) shared spec imp p) }
    ensures kept { IfOk result (λ p. IsFlat spec × IsFlat imp) }
    ensures fault { IfErr result (λ fault.
        (fault ≡ NoMemory) ⊎ IsFirstPairRefusal (option_copied care.entry) spec imp fault) }
{
    match care {
        None => plain_pair(alloc, spec, imp, shared),
        Some(care) => constrained_pair(alloc, spec, imp, care, shared),
    }
}

/// Pairs a specification with an implementation, whose netlists are moved into the pair, or reports the first cause for
/// which they are refused.
///
/// Inputs, outputs and registers are matched by their names, and come in the order of the specification: the bits of
/// input ports, then the register bits; the bits of output ports, then the next states of the registers. With `shared`,
/// boxes of one module are of one sharing class; otherwise each is of a class of its own.
///
/// With `care`, the name of a bit of an output port of the specification, this bit is no output of the pair, and the
/// others count only at the vectors at which it is 1.
pub fn pair(
    alloc: Global,
    spec: Flat,
    imp: Flat,
    care: Option<&[u8]>,
    shared: bool,
) -> Result<Pair, MatchFault>
    // The result is the pair of the two, or the first cause.
    ensures ok { IfOk result (λ p. IsPairOf (option_copied care.entry) shared spec imp p) }
    ensures fault { IfErr result (λ fault.
        (fault ≡ NoMemory) ⊎ IsFirstPairRefusal (option_copied care.entry) spec imp fault) }

    // A pair is answered where there is no cause, and else the first, unless memory runs out.
    ensures only_fit { Fit (option_copied care.entry) spec imp → IfErr result (λ fault. fault ≡ NoMemory) }
    ensures only_fault { (first : MatchFault) → IsFirstPairRefusal (option_copied care.entry) spec imp first
        → MatchResult result (λ p. ⊥) (λ fault. (fault ≡ first) ⊎ (fault ≡ NoMemory)) }

    // What the two kept, and how small the netlists are.
    ensures kept { IfOk result (λ p. IsFlat spec × IsFlat imp) }
    ensures plain_small { option_copied care.entry ≡ None
        → IfOk result (λ p. (length p.spec.cells ≤ 2000000) × (length p.imp.cells ≤ 2000000)) }
    ensures small { IfOk result (λ p. (length p.spec.cells ≤ 4000000) × (length p.imp.cells ≤ 6000000)) }
{
    let p = pair_or_fault(alloc, spec, imp, care, shared)?;
    Ok(p)
}
