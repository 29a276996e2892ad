//! Whether each event keeps the invariant of the specification, and the report where one does not. The specification
//! is elaborated once more for it, since the pair has taken its netlist; nothing is kept for comparisons without an
//! invariant.

ghost use Rattle.std.specs.Prelude.{◌≡◌, ◌⊎◌, ◌+◌, ◌*◌, ◌<◌, ◌≤◌, ◌++◌, [], codes, length, true, false, IfNone, IfOk};
ghost use Rattle.std.specs.Prelude.{IfSome, List, None, OnOk, Option, ℕ, Vec, Bool, drop, take, zip};
ghost use Rattle.std.specs.List.{flat_map};
ghost use Rattle.std.specs.declared.alloc.Global.{Global};
ghost use Rattle.bb_checks.specs.Reports.{printed_input};
ghost use Rattle.bb_invariant.specs.declared.deciding.Invariance.TheVariants as answers;
ghost use Rattle.bb_invariant.specs.Invariance.{IsTooLarge};
ghost use Rattle.bb_match.specs.Refusals.{IsMissing};
ghost use Rattle.bb_net.specs.Flats.{FlatNet};
ghost use Rattle.bb_options.specs.Rungs.{AreBounds};
ghost use Rattle.bb_unroll.specs.Events.{CanBeUnrolled, IsBrokenAt, IsKept, IsOutputCell, edge_at};
ghost use Rattle.bb_unroll.specs.Unrolled.{fall_input, rise_input, unrolled_inputs};
ghost use Rattle.bb_verdict.specs.InvariantAnswers.{edge_text};
ghost use Rattle.bb_verdict.specs.Inside.BrokenTexts.{broken_bytes, edge_of, edges_text};

use bb_bits::{Name, NoMemory};
use bb_checks::{Options, push_inputs};
use bb_invariant::{Invariance, check_invariant};
use bb_match::place_of;
use bb_net::Flat;
use std::alloc::Global;

// The most inputs that a pair may have.
const MOST_INPUTS: usize = 2048;

/// The cell that is the output of this name.
pub(crate) fn output_cell(spec: &Flat, name: &Name) -> Option<u32>
    ensures some { IfSome result (λ k. IsOutputCell spec.now name.now k) }
    ensures there { IfSome result (λ k. k < length spec.now.net.cells) }
    ensures none { IfNone result (IsMissing spec.now.outs name.now) }
{
    let place = place_of(spec.outs(), name.bytes())?;
    Some(spec.net().outs()[place])
}

fn is_too_wide(spec: &Flat) -> bool
    ensures wide { result ≡ true → 2048 < unrolled_inputs spec.now }
    ensures few { result ≡ false → unrolled_inputs spec.now ≤ 2048 }
{
    let count = spec.net().inputs() as usize + 3 * spec.ins().len();
    count > MOST_INPUTS
}

/// `Open` also where the unrolled specification has more inputs than a pair may have.
pub(crate) fn decided(
    alloc: Global,
    spec: &Flat,
    invariant: u32,
    options: &Options,
) -> Result<Invariance, NoMemory>
    requires can { CanBeUnrolled spec.now }
    requires invariant { invariant < length spec.now.net.cells }
    requires bounds { AreBounds options.now }
    ensures kept { IfOk result (λ answer. answer ≡ answers.Kept → IsKept spec.now invariant None) }
    ensures broken { IfOk result (λ answer. (x : Vec Bool Global) → answer ≡ answers.Broken x
        → IsBrokenAt spec.now invariant None x.items) }
    ensures open { IfOk result (λ answer. answer ≡ answers.Open
        → (2048 < unrolled_inputs spec.now)
        ⊎ IsTooLarge spec.now invariant None options.now.nodes options.now.clauses) }
{
    if is_too_wide(spec) {
        return Ok(Invariance::Open);
    }
    check_invariant(
        alloc,
        spec,
        invariant,
        None,
        options.nodes,
        options.cache,
        options.clauses,
    )
}

fn push_edge(text: &mut Vec<u8>, name: &Name, rises: bool, falls: bool) -> Result<(), NoMemory>
    ensures text { OnOk result (text.new.items ≡ text.old.items
        ++ edge_text name.now (edge_of rises falls)) }
{
    if rises || falls {
        text.extend_from_slice(b" ")?;
        text.extend_from_slice(name.bytes())?;
        text.extend_from_slice(if rises { b"=rise" } else { b"=fall" })?;
    }
    Ok(())
}

fn push_edges(text: &mut Vec<u8>, spec: &Flat, x: &[bool]) -> Result<(), NoMemory>
    requires bits { length x.now ≡ unrolled_inputs spec.now }
    ensures text { OnOk result (text.new.items ≡ text.old.items ++ edges_text spec.now x.now 0 spec.now.ins) }
{
    let ports = spec.ins().len();
    let rises = spec.net().inputs() as usize + ports;
    for (i, name) in spec.ins().iter().enumerate() {
        push_edge(text, name, x[rises + i], x[rises + ports + i])?;
    }
    Ok(())
}

/// `inputs` has the names of the inputs and then those of the registers.
pub(crate) fn broken_report(
    alloc: Global,
    spec: &Flat,
    inputs: &[Name],
    x: &[bool],
) -> Result<Vec<u8>, NoMemory>
    requires inputs { length inputs.now ≡ spec.now.net.inputs }
    requires bits { length x.now ≡ unrolled_inputs spec.now }
    ensures text { IfOk result (λ text. text.items ≡ broken_bytes spec.now inputs.now x.now) }
{
    let count = spec.net().inputs() as usize;
    let mut text = Vec::from_slice(alloc, b"invariant broken\ninput")?;
    push_inputs(&mut text, inputs, &x[..count])?;
    text.extend_from_slice(b"\nedges")?;
    push_edges(&mut text, spec, x)?;
    text.extend_from_slice(b"\nthen")?;
    push_inputs(&mut text, spec.ins(), &x[count..count + spec.ins().len()])?;
    text.extend_from_slice(b"\nverdict open\n")?;
    Ok(text)
}
