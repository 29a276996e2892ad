//! Builds the unrolled netlist gate by gate.
//!
//! Each part says up to which place the cells then are those of the definition, so that the order of all cells is
//! proved once, for the definition.

ghost use Rattle.std.specs.Prelude.{◌≡◌, ◌+◌, ◌*◌, ◌<◌, ◌≤◌, ◌^◌, ℕ, [], ◌∷◌, All, length, suc, IfOk, IfSome, OnOk};
ghost use Rattle.bb_net.specs.Netlists.{Netlist, reads_of};
ghost use Rattle.bb_unroll.specs.Inside.Building.{gate_in, gates_begin, input_in, place_in, unrolled_before};
ghost use Rattle.bb_unroll.specs.Events.{CanBeUnrolled};
ghost use Rattle.bb_unroll.specs.Unrolled.{first_edge, first_state, gates, never, unrolled, unrolled_inputs, violation};
ghost use Rattle.bb_unroll.specs.Unrolled.{with_care, with_violation};

use crate::places::{
    Frame, first_gate, next_place, place_in, present_place, stores_place, unrolled_inputs,
};
use bb_bits::NoMemory;
use bb_net::{Cell, Flat, Net};
use std::alloc::Global;

fn input_in(spec: &Flat, frame: Frame, i: u32) -> Cell
    requires inputs { unrolled_inputs spec.now ≤ 2048 }
    requires input { i < spec.now.net.inputs }
    requires there { i + 2 < length spec.now.net.cells }
    ensures cell { result ≡ input_in spec.now frame i }
{
    match frame {
        Frame::Present => Cell::Input(i),
        Frame::Next => {
            let place = next_place(spec, i + 2);
            Cell::And(place, place)
        }
    }
}

fn gate_in(spec: &Flat, frame: Frame, cell: Cell) -> Cell
    requires inputs { unrolled_inputs spec.now ≤ 2048 }
    requires input { (i : ℕ) → cell ≡ Cell.Input i
        → (i < spec.now.net.inputs) × (i + 2 < length spec.now.net.cells) }
    requires there { All (λ k. k < length spec.now.net.cells) (reads_of [] cell) }
    ensures cell { result ≡ gate_in spec.now frame cell }
{
    match cell {
        Cell::Const(b) => Cell::Const(b),
        Cell::Input(i) => input_in(spec, frame, i),
        Cell::Not(a) => Cell::Not(place_in(spec, frame, a)),
        Cell::And(a, b) => Cell::And(place_in(spec, frame, a), place_in(spec, frame, b)),
        Cell::Or(a, b) => Cell::Or(place_in(spec, frame, a), place_in(spec, frame, b)),
        Cell::Xor(a, b) => Cell::Xor(place_in(spec, frame, a), place_in(spec, frame, b)),
        Cell::Mux(c, t, e) => Cell::Mux(
            place_in(spec, frame, c),
            place_in(spec, frame, t),
            place_in(spec, frame, e),
        ),
        Cell::BoxOut(b, p) => Cell::BoxOut(b, p),
    }
}

fn add_gates(spec: &Flat, frame: Frame, net: &mut Net) -> Result<(), NoMemory>
    requires can { CanBeUnrolled spec.now }
    requires inputs { unrolled_inputs spec.now ≤ 2048 }
    requires before { net.old ≡ unrolled_before spec.now (gates_begin spec.now frame) }
    ensures gates { OnOk result (net.new
        ≡ unrolled_before spec.now (gates_begin spec.now frame + length (gates spec.now))) }
{
    for k in first_gate(spec) as usize..spec.net().cells().len() {
        net.push(gate_in(spec, frame, spec.net().cells()[k]))?;
    }
    Ok(())
}

fn add_edges(spec: &Flat, net: &mut Net) -> Result<(), NoMemory>
    requires can { CanBeUnrolled spec.now }
    requires inputs { unrolled_inputs spec.now ≤ 2048 }
    requires before { net.old ≡ unrolled_before spec.now (first_edge spec.now) }
    ensures edges { OnOk result (net.new ≡ unrolled_before spec.now (first_state spec.now)) }
{
    let ports = spec.ins().len() as u32;
    let rises = spec.net().inputs() + ports + 2;
    for i in 0..ports {
        let does_not_rise = net.push(Cell::Not(rises + i))?;
        net.push(Cell::And(rises + ports + i, does_not_rise))?;
    }
    Ok(())
}

fn add_states(spec: &Flat, net: &mut Net) -> Result<(), NoMemory>
    requires can { CanBeUnrolled spec.now }
    requires inputs { unrolled_inputs spec.now ≤ 2048 }
    requires before { net.old ≡ unrolled_before spec.now (first_state spec.now) }
    ensures states { OnOk result (net.new ≡ unrolled_before spec.now (gates_begin spec.now Frame.Next)) }
{
    for j in 0..spec.regs().len() {
        let stores = stores_place(spec, &spec.regs()[j]);
        let next = present_place(spec, spec.net().outs()[spec.outs().len() + j]);
        let present = spec.ins().len() as u32 + j as u32 + 2;
        net.push(Cell::Mux(stores, next, present))?;
    }
    Ok(())
}

fn unrolled(alloc: Global, spec: &Flat) -> Result<Net, NoMemory>
    requires can { CanBeUnrolled spec.now }
    requires inputs { unrolled_inputs spec.now ≤ 2048 }
    ensures net { IfOk result (λ net. net ≡ unrolled spec.now) }
{
    let mut net = Net::start(alloc, unrolled_inputs(spec))?;
    add_gates(spec, Frame::Present, &mut net)?;
    add_edges(spec, &mut net)?;
    add_states(spec, &mut net)?;
    add_gates(spec, Frame::Next, &mut net)?;
    Ok(net)
}

// Returns the place of the violation, which is no output yet: a care cell may follow.
fn add_violation(spec: &Flat, invariant: u32, net: &mut Net) -> Result<u32, NoMemory>
    requires can { CanBeUnrolled spec.now }
    requires inputs { unrolled_inputs spec.now ≤ 2048 }
    requires invariant { invariant < length spec.now.net.cells }
    requires before { net.old ≡ unrolled spec.now }
    ensures cells { OnOk result (net.new ≡ record (with_violation spec.now invariant net.old) { outs = [] }) }
    ensures out { IfOk result (λ out. out ≡ suc (length net.old.cells)) }
{
    let does_not_hold = net.push(Cell::Not(next_place(spec, invariant)))?;
    net.push(Cell::And(present_place(spec, invariant), does_not_hold))
}

fn add_out(spec: &Flat, care: Option<u32>, violation: u32, net: &mut Net) -> Result<(), NoMemory>
    requires inputs { unrolled_inputs spec.now ≤ 2048 }
    requires care { IfSome care (λ c. c < length spec.now.net.cells) }
    requires present { first_edge spec.now ≤ length net.old.cells }
    requires violation { violation + 1 ≡ length net.old.cells }
    requires room { length net.old.cells + 1 < 2 ^ 32 }
    requires outs { net.old.outs ≡ [] }
    ensures out { OnOk result (net.new ≡ with_care spec.now care (record net.old { outs = violation ∷ [] })) }
{
    match care {
        None => net.add_out(violation),
        Some(care) => {
            let out = net.push(Cell::And(present_place(spec, care), violation))?;
            net.add_out(out)
        }
    }
}

/// `invariant` and `care` are places of cells of the specification. The one output of the netlist is 1 where the
/// invariant is 1 as an event comes and 0 after it, and where the care cell, if one is given, is 1 as it comes.
pub fn violation(
    alloc: Global,
    spec: &Flat,
    invariant: u32,
    care: Option<u32>,
) -> Result<Net, NoMemory>
    requires can { CanBeUnrolled spec.now }
    requires inputs { unrolled_inputs spec.now ≤ 2048 }
    requires invariant { invariant < length spec.now.net.cells }
    requires care { IfSome care (λ c. c < length spec.now.net.cells) }
    ensures net { IfOk result (λ net. net ≡ violation spec.now invariant care) }
{
    let mut net = unrolled(alloc, spec)?;
    let violation = add_violation(spec, invariant, &mut net)?;
    add_out(spec, care, violation, &mut net)?;
    Ok(net)
}

/// A netlist with the same inputs whose one output is always 0, with which a violation is compared.
pub fn never(alloc: Global, inputs: u32) -> Result<Net, NoMemory>
    requires inputs { inputs ≤ 2048 }
    ensures net { IfOk result (λ net. net ≡ never inputs) }
{
    let mut net = Net::start(alloc, inputs)?;
    net.add_out(0)?;
    Ok(net)
}
