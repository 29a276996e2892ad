//! All diagrams of the check, made before any is looked at, so `Nodes` does not depend on the answer. `bb_nest`
//! continues from them, which is why they are one public value. The call has its name since a type and a call may not
//! differ in the case of one letter only.

ghost use Rattle.std.specs.Prelude.{◌≡◌, ◌≤◌, ◌+◌, length, map, IfOk, OnOk, IsErrOf};
ghost use Rattle.bb_bits.specs.Truth.{IsBeadOfAny};
ghost use Rattle.bb_bits.specs.TruthSets.{HasMoreThan};
ghost use Rattle.bb_net.specs.Pairs.{pin_count};
ghost use Rattle.bb_sym.specs.Inside.Made.{Makes, AreTooMany, ref_at};
ghost use Rattle.bb_input.specs.InputFunctions.{pin_places, input_functions};
ghost use Rattle.bb_input.specs.Inside.Prefixes.{IsPrefix};

use crate::choosing::quantify_boxes;
use crate::order::{all_places, count_pins, first_outputs};
use crate::refuting::{ordered_cells, refuting};
use bb_bits::NoMemory;
use bb_dd::{Diagrams, Ref};
use bb_net::Pair;
use bb_sym::plain::{PlainCells, picked, quantify_block};
use bb_sym::{RungFault, laws};
use std::alloc::Global;

/// Stages of the check. Variables: the pins, box after box, input pins before output pins, then the inputs.
#[derive(Drop)]
pub struct Prefix {
    /// The store; further diagrams may be made in it.
    pub diagrams: Diagrams,
    /// `stages[b]` is 1 where no choices suit for the boxes after `b`, the pins up to its own having the bits of the
    /// point.
    pub stages: Vec<Ref>,
    /// 1 everywhere where no choices suit at all, else 0 everywhere.
    pub last: Ref,
    /// The cell at each pin, in the order of the variables.
    pub pins: Vec<Ref>,
}

/// Makes all functions of the check, the inputs quantified before the boxes.
///
/// # Errors
///
/// `Nodes` exactly where the functions of the check have more than `nodes` beads.
pub fn make_prefix(alloc: Global, pair: &Pair, nodes: u32, cache: u32) -> Result<Prefix, RungFault>
    requires nodes { nodes ≤ 50000000 }
    requires cache_least { 1 ≤ cache }
    requires cache_most { cache ≤ 1048576 }
    ensures made { IfOk result (IsPrefix pair.now.spec pair.now.imp) }
    ensures nodes { IsErrOf result RungFault.Nodes
        → HasMoreThan (IsBeadOfAny (input_functions pair.now.spec pair.now.imp)) nodes }
    ensures within { HasMoreThan (IsBeadOfAny (input_functions pair.now.spec pair.now.imp)) nodes → OnOk result ⊥ }
{
    laws::making();
    let inputs = pair.imp().inputs();
    let pins = count_pins(pair.imp().boxes());
    let d = Diagrams::start(alloc, pins + inputs, nodes, cache)?;
    let made = input_diagrams(alloc, d, pair, inputs, pins)?;
    made.diagrams.is_canonical();
    Ok(made)
}

fn input_diagrams(
    alloc: Global,
    mut d: Diagrams,
    pair: &Pair,
    inputs: u32,
    pins: u32,
) -> Result<Prefix, RungFault>
    requires inputs { inputs ≡ pair.now.imp.inputs }
    requires pins { pins ≡ pin_count pair.now.imp.boxes }
    requires vars { pins + inputs ≡ d.store.vars }
    ensures made { IfOk result (IsPrefix pair.now.spec pair.now.imp) }
    ensures makes { IfOk result (λ made.
        Makes d.store made.diagrams.store (input_functions pair.now.spec pair.now.imp)) }
    ensures nodes { IsErrOf result RungFault.Nodes → AreTooMany d.store (input_functions pair.now.spec pair.now.imp) }
{
    laws::making();
    let imp_net = pair.imp();
    let starts = first_outputs(alloc, imp_net.boxes())?;
    let made = ordered_cells(alloc, &mut d, pair, pins + inputs, pins, &starts)?;
    let both = refuting(alloc, &mut d, pair, &made)?;
    let refuted = quantify_block(alloc, &mut d, false, both, pins, inputs)?;
    let mut stages = vec![in alloc; refuted; imp_net.boxes().len()]?;
    let last = quantify_boxes(
        alloc,
        &mut d,
        refuted,
        imp_net.boxes(),
        &starts,
        &mut stages,
    )?;
    let pins = cells_at_pins(alloc, pair, &made)?;
    Ok(Prefix {
        diagrams: d,
        stages,
        last,
        pins,
    })
}

fn cells_at_pins(alloc: Global, pair: &Pair, made: &PlainCells) -> Result<Vec<Ref>, NoMemory>
    requires { length made.now.imp.items ≡ length pair.now.imp.cells }
    ensures { IfOk result (λ refs. refs.items ≡ map (ref_at made.now.imp.items) (pin_places pair.now.imp.boxes)) }
{
    let places = all_places(alloc, pair.imp().boxes())?;
    let refs = picked(alloc, &made.imp, &places)?;
    Ok(refs)
}
