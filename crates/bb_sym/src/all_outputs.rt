//! The check of all outputs together: a vector at which, whatever the boxes give, some output is wrong, which may be
//! another output for other contents. It refutes more than the check output by output, at the price of the disjunction
//! of all differences. All functions are made before a vector is looked for, so `Nodes` comes exactly where their beads
//! exceed the budget, whatever would be found.

ghost use Rattle.std.specs.Prelude.{◌≡◌, ◌≤◌, ◌+◌, ◌++◌, ℕ, [], length, map, Some, None, IfOk, OnOk, IsErrOf, IfSome};
ghost use Rattle.std.specs.Prelude.{IfNone};
ghost use Rattle.bb_bits.specs.Truth.{IsBeadOfAny};
ghost use Rattle.bb_bits.specs.TruthSets.{HasMoreThan};
ghost use Rattle.bb_net.specs.Conditions.{AlwaysSomeWrongAt, AllRightTogether};
ghost use Rattle.bb_net.specs.Values.{output_pins};
ghost use Rattle.bb_sym.specs.Functions.{output_functions, all_always_wrong, inputs_and_pins};
ghost use Rattle.bb_sym.specs.Finds.{FindsVector};
ghost use Rattle.bb_sym.specs.Inside.Made.{Makes, AreTooMany, Represents, RepresentAll};

use crate::blocks::quantify_block;
use crate::differences::some_wrong;
use crate::inputs_first::{count_pins, ordered_cells};
use crate::{Found, RungFault};
use bb_bits::truth;
use bb_dd::{Diagrams, Ref};
use bb_net::{Net, Pair};
use bb_quant::least;
use bb_uniq::laws;
use std::alloc::Global;

/// The least vector at which, whatever the boxes give, some output is wrong. `output` of the answer is none, since it
/// may be another one for other contents.
///
/// # Errors
///
/// `Nodes` exactly where the functions of the check have more than `nodes` beads.
pub fn output(
    alloc: Global,
    pair: &Pair,
    nodes: u32,
    cache: u32,
) -> Result<Option<Found>, RungFault>
    requires nodes { nodes ≤ 50000000 }
    requires cache_least { 1 ≤ cache }
    requires cache_most { cache ≤ 1048576 }
    ensures found { IfOk result (λ answer.
        IfSome answer (FindsVector pair.now.imp (AlwaysSomeWrongAt pair.now.spec pair.now.imp))) }
    ensures none { IfOk result (λ answer. IfNone answer (AllRightTogether pair.now.spec pair.now.imp)) }
    ensures nodes { IsErrOf result RungFault.Nodes
        → HasMoreThan (IsBeadOfAny (output_functions pair.now.spec pair.now.imp)) nodes }
    ensures within { HasMoreThan (IsBeadOfAny (output_functions pair.now.spec pair.now.imp)) nodes → OnOk result ⊥ }
{
    let spec = pair.spec();
    let imp = pair.imp();
    output_of(alloc, spec, imp, nodes, cache)
}

/// As [`output`], for two netlists that need not be a pair: the specification without boxes, the same inputs, as many
/// outputs, and at most 2,048 inputs and output pins together. A search that fills boxes has no pair.
///
/// # Errors
///
/// `Nodes` exactly where the functions of the check have more than `nodes` beads.
pub fn output_of(
    alloc: Global,
    spec: &Net,
    imp: &Net,
    nodes: u32,
    cache: u32,
) -> Result<Option<Found>, RungFault>
    requires inputs { spec.now.inputs ≡ imp.now.inputs }
    requires outputs { length spec.now.outs ≡ length imp.now.outs }
    requires no_box { spec.now.boxes ≡ [] }
    requires few { inputs_and_pins imp.now ≤ 2048 }
    requires nodes { nodes ≤ 50000000 }
    requires cache_least { 1 ≤ cache }
    requires cache_most { cache ≤ 1048576 }
    ensures found { IfOk result (λ answer. IfSome answer (FindsVector imp.now (AlwaysSomeWrongAt spec.now imp.now))) }
    ensures none { IfOk result (λ answer. IfNone answer (AllRightTogether spec.now imp.now)) }
    ensures nodes { IsErrOf result RungFault.Nodes
        → HasMoreThan (IsBeadOfAny (output_functions spec.now imp.now)) nodes }
    ensures within { HasMoreThan (IsBeadOfAny (output_functions spec.now imp.now)) nodes → OnOk result ⊥ }
{
    truth::quantifiers();
    truth::sizes();
    laws::sequences();
    let inputs = imp.inputs();
    let pins = count_pins(imp.boxes());
    let mut d = Diagrams::start(alloc, inputs + pins, nodes, cache)?;
    let wrong = output_diagram(alloc, &mut d, spec, imp, inputs, pins)?;
    d.is_canonical();
    let mut point = vec![in alloc; false; (inputs + pins) as usize]?;
    if !least(&d, wrong, true, 0, &mut point) {
        return Ok(None);
    }
    point.truncate(inputs as usize);
    Ok(Some(Found {
        output: None,
        input: point,
    }))
}

/// The pins come after the inputs, so quantifying them leaves a diagram over the inputs.
fn output_diagram(
    alloc: Global,
    d: &mut Diagrams,
    spec: &Net,
    imp: &Net,
    inputs: u32,
    pins: u32,
) -> Result<Ref, RungFault>
    requires same { spec.now.inputs ≡ imp.now.inputs }
    requires outputs { length spec.now.outs ≡ length imp.now.outs }
    requires no_box { spec.now.boxes ≡ [] }
    requires inputs { inputs ≡ imp.now.inputs }
    requires pins { pins ≡ output_pins imp.now.boxes }
    requires vars { inputs + pins ≡ d.old.store.vars }
    requires few { d.old.store.vars ≤ 2048 }
    ensures result { IfOk result (Represents d.new.store (all_always_wrong spec.now imp.now)) }
    ensures makes { OnOk result (Makes d.old.store d.new.store (output_functions spec.now imp.now)) }
    ensures nodes { IsErrOf result RungFault.Nodes → AreTooMany d.old.store (output_functions spec.now imp.now) }
{
    let made = ordered_cells(alloc, d, spec, imp, inputs + pins)?;
    let any = some_wrong(alloc, d, spec, imp, &made)?;
    let r = quantify_block(alloc, d, true, any, inputs, pins)?;
    Ok(r)
}
