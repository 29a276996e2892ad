//! Where the cells of a specification stand in its unrolling.

ghost use Rattle.std.specs.Prelude.{◌≡◌, ◌<◌, ◌≤◌, length};
ghost use Rattle.bb_unroll.specs.Inside.Building.{place_in};
ghost use Rattle.bb_unroll.specs.Unrolled.{clock_of, first_edge, first_gate, first_state, next_place, present_place};
ghost use Rattle.bb_unroll.specs.Unrolled.{stores_place, unrolled_inputs};

use bb_net::{Flat, Reg};

/// As the event comes, or after it.
#[derive(Clone, Copy, Debug)]
pub enum Frame {
    Present,
    Next,
}

pub fn unrolled_inputs(spec: &Flat) -> u32
    requires inputs { unrolled_inputs spec.now ≤ 2048 }
    ensures inputs { result ≡ unrolled_inputs spec.now }
{
    spec.net().inputs() + 3 * spec.ins().len() as u32
}

pub fn first_gate(spec: &Flat) -> u32
    requires inputs { unrolled_inputs spec.now ≤ 2048 }
    ensures place { result ≡ first_gate spec.now }
    ensures there { result ≤ length spec.now.net.cells }
    ensures small { length spec.now.net.cells ≤ 2000000 }
{
    spec.net().inputs() + 2
}

/// Two constants, 2,048 inputs and 2,000,000 gates come before it at most.
pub fn first_edge(spec: &Flat) -> u32
    requires inputs { unrolled_inputs spec.now ≤ 2048 }
    ensures place { result ≡ first_edge spec.now }
    ensures small { result ≤ 2002050 }
{
    let gates = spec.net().cells().len() as u32 - first_gate(spec);
    unrolled_inputs(spec) + 2 + gates
}

pub fn first_state(spec: &Flat) -> u32
    requires inputs { unrolled_inputs spec.now ≤ 2048 }
    ensures place { result ≡ first_state spec.now }
    ensures small { result ≤ 2004098 }
{
    first_edge(spec) + 2 * spec.ins().len() as u32
}

pub fn present_place(spec: &Flat, k: u32) -> u32
    requires inputs { unrolled_inputs spec.now ≤ 2048 }
    requires there { k < length spec.now.net.cells }
    ensures place { result ≡ present_place spec.now k }
{
    let first = first_gate(spec);
    if k < first {
        k
    } else {
        unrolled_inputs(spec) + 2 + (k - first)
    }
}

pub fn next_place(spec: &Flat, k: u32) -> u32
    requires inputs { unrolled_inputs spec.now ≤ 2048 }
    requires there { k < length spec.now.net.cells }
    ensures place { result ≡ next_place spec.now k }
{
    let ports = spec.ins().len() as u32;
    let first = first_gate(spec);
    if k < 2 {
        k
    } else if k < ports + 2 {
        spec.net().inputs() + k
    } else if k < first {
        first_state(spec) + (k - (ports + 2))
    } else {
        first_state(spec) + spec.regs().len() as u32 + (k - first)
    }
}

/// The cell that is 1 where the clock of a register has its edge.
pub fn stores_place(spec: &Flat, reg: &Reg) -> u32
    requires inputs { unrolled_inputs spec.now ≤ 2048 }
    requires clock { clock_of reg.now.clock < length spec.now.ins }
    ensures place { result ≡ stores_place spec.now reg.now }
{
    let clock = reg.clock.unwrap_or(0);
    if reg.falling {
        first_edge(spec) + (2 * clock + 1)
    } else {
        spec.net().inputs() + (spec.ins().len() as u32 + clock) + 2
    }
}

pub fn place_in(spec: &Flat, frame: Frame, k: u32) -> u32
    requires inputs { unrolled_inputs spec.now ≤ 2048 }
    requires there { k < length spec.now.net.cells }
    ensures place { result ≡ place_in spec.now frame k }
{
    match frame {
        Frame::Present => present_place(spec, k),
        Frame::Next => next_place(spec, k),
    }
}
