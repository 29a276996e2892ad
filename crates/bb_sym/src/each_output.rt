//! The check output by output: an output that at some vector is wrong whatever the boxes give. Each output has its own
//! diagram, so no disjunction over all outputs is made, but an error that needs two outputs together is missed. All
//! outputs are made before the first vector is looked for, so `Nodes` does not depend on what is found.

ghost use Rattle.std.specs.Prelude.{◌≡◌, ◌≤◌, ◌<◌, ◌+◌, ℕ, length, Some, IfOk, OnOk, IsErrOf, IfSome, IfNone};
ghost use Rattle.std.specs.List.{flat_map};
ghost use Rattle.bb_bits.specs.Truth.{IsBeadOfAny};
ghost use Rattle.bb_bits.specs.TruthSets.{HasMoreThan};
ghost use Rattle.bb_net.specs.Conditions.{IsAlwaysWrong, EachSometimesRight};
ghost use Rattle.bb_net.specs.Values.{output_pins};
ghost use Rattle.bb_sym.specs.Functions.{inputs_first, local_functions, always_wrong, wrong_for_all_pins};
ghost use Rattle.bb_sym.specs.Plain.{output_numbers};
ghost use Rattle.bb_sym.specs.Finds.{FindsOutput, IsSometimesRight};
ghost use Rattle.bb_sym.specs.Inside.Made.{Makes, AreTooMany, Represents, RepresentAll, RepresentFirst, HaveCells};

use crate::blocks::quantify_block;
use crate::cells::PlainCells;
use crate::differences::wrong_output;
use crate::inputs_first::{count_pins, ordered_cells};
use crate::searching::first_true;
use crate::{Found, RungFault};
use bb_bits::truth;
use bb_dd::{Diagrams, Ref};
use bb_net::Pair;
use bb_uniq::laws;
use std::alloc::Global;

/// The first such output, and the least vector for it.
///
/// # Errors
///
/// `Nodes` exactly where the functions of the check have more than `nodes` beads.
pub fn local(alloc: Global, pair: &Pair, nodes: u32, cache: u32) -> Result<Option<Found>, RungFault>
    requires nodes { nodes ≤ 50000000 }
    requires cache_least { 1 ≤ cache }
    requires cache_most { cache ≤ 1048576 }
    ensures found { IfOk result (λ answer. IfSome answer (FindsOutput pair.now.imp
        (IsAlwaysWrong pair.now.spec pair.now.imp) (IsSometimesRight pair.now.spec pair.now.imp))) }
    ensures none { IfOk result (λ answer. IfNone answer (EachSometimesRight pair.now.spec pair.now.imp)) }
    ensures nodes { IsErrOf result RungFault.Nodes
        → HasMoreThan (IsBeadOfAny (local_functions pair.now.spec pair.now.imp)) nodes }
    ensures within { HasMoreThan (IsBeadOfAny (local_functions pair.now.spec pair.now.imp)) nodes → OnOk result ⊥ }
{
    truth::quantifiers();
    truth::sizes();
    laws::sequences();
    let inputs = pair.imp().inputs();
    let pins = count_pins(pair.imp().boxes());
    let mut d = Diagrams::start(alloc, inputs + pins, nodes, cache)?;
    let wrong = local_diagrams(alloc, &mut d, pair, inputs, pins)?;
    d.is_canonical();
    let mut point = vec![in alloc; false; (inputs + pins) as usize]?;
    match first_true(&d, &wrong, &mut point) {
        Some(j) => {
            point.truncate(inputs as usize);
            Ok(Some(Found {
                output: Some(j as u32),
                input: point,
            }))
        }
        None => Ok(None),
    }
}

fn local_diagrams(
    alloc: Global,
    d: &mut Diagrams,
    pair: &Pair,
    inputs: u32,
    pins: u32,
) -> Result<Vec<Ref>, RungFault>
    requires inputs { inputs ≡ pair.now.imp.inputs }
    requires pins { pins ≡ output_pins pair.now.imp.boxes }
    requires vars { inputs + pins ≡ d.old.store.vars }
    requires few { d.old.store.vars ≤ 2048 }
    ensures refs { IfOk result (λ refs.
        RepresentFirst d.new.store (always_wrong pair.now.spec pair.now.imp) (length pair.now.imp.outs) refs.items) }
    ensures makes { OnOk result (Makes d.old.store d.new.store (local_functions pair.now.spec pair.now.imp)) }
    ensures nodes { IsErrOf result RungFault.Nodes
        → AreTooMany d.old.store (local_functions pair.now.spec pair.now.imp) }
{
    let spec = pair.spec();
    let imp = pair.imp();
    let made = ordered_cells(alloc, d, spec, imp, inputs + pins)?;
    let refs = always_wrong_outputs(alloc, d, pair, &made, inputs, pins)?;
    Ok(refs)
}

fn always_wrong_outputs(
    alloc: Global,
    d: &mut Diagrams,
    pair: &Pair,
    made: &PlainCells,
    inputs: u32,
    pins: u32,
) -> Result<Vec<Ref>, RungFault>
    requires made { HaveCells d.old.store (inputs_first pair.now.imp) pair.now.spec pair.now.imp made.now.spec.items
        made.now.imp.items }
    requires inputs { inputs ≡ pair.now.imp.inputs }
    requires pins { pins ≡ output_pins pair.now.imp.boxes }
    requires vars { inputs + pins ≡ d.old.store.vars }
    requires few { d.old.store.vars ≤ 2048 }
    ensures refs { IfOk result (λ refs.
        RepresentFirst d.new.store (always_wrong pair.now.spec pair.now.imp) (length pair.now.imp.outs) refs.items) }
    ensures makes { OnOk result (Makes d.old.store d.new.store (flat_map
        (wrong_for_all_pins pair.now.spec pair.now.imp) (output_numbers pair.now.imp))) }
    ensures nodes { IsErrOf result RungFault.Nodes
        → AreTooMany d.old.store (flat_map (wrong_for_all_pins pair.now.spec pair.now.imp)
        (output_numbers pair.now.imp)) }
{
    let count = pair.imp().outs().len();
    let mut refs = Vec::with_capacity(alloc, count)?;
    for j in 0..count {
        let r = always_wrong_output(alloc, d, pair, made, j, inputs, pins)?;
        refs.push(r)?;
    }
    Ok(refs)
}

fn always_wrong_output(
    alloc: Global,
    d: &mut Diagrams,
    pair: &Pair,
    made: &PlainCells,
    j: usize,
    inputs: u32,
    pins: u32,
) -> Result<Ref, RungFault>
    requires made { HaveCells d.old.store (inputs_first pair.now.imp) pair.now.spec pair.now.imp made.now.spec.items
        made.now.imp.items }
    requires j { j < length pair.now.imp.outs }
    requires inputs { inputs ≡ pair.now.imp.inputs }
    requires pins { pins ≡ output_pins pair.now.imp.boxes }
    requires vars { inputs + pins ≡ d.old.store.vars }
    requires few { d.old.store.vars ≤ 2048 }
    ensures result { IfOk result (Represents d.new.store (always_wrong pair.now.spec pair.now.imp j)) }
    ensures makes { OnOk result (Makes d.old.store d.new.store (wrong_for_all_pins pair.now.spec pair.now.imp j)) }
    ensures nodes { IsErrOf result RungFault.Nodes
        → AreTooMany d.old.store (wrong_for_all_pins pair.now.spec pair.now.imp j) }
{
    let f = wrong_output(d, pair, made, j)?;
    let r = quantify_block(alloc, d, true, f, inputs, pins)?;
    Ok(r)
}
