//! Operators bit by bit on earlier steps: complements, operators of chains, tests for a bit that is 1, choices, and
//! replications. Circuits on whole words are in bb_word; these need none, since no bit depends on its neighbour.

ghost use Rattle.std.specs.Prelude.{◌≡◌, ◌≤◌, ◌+◌, ◌-◌, ◌*◌, ◌^◌, ◌∷◌, [], List, length, IfOk, OnOk, IsTrue, ◌↔◌};
ghost use Rattle.bb_ast.specs.declared.expr.Op.TheVariants as ops;
ghost use Rattle.bb_names.specs.declared.net.NetInfo.{NetInfo};
ghost use Rattle.bb_expr.specs.declared.step.BitStep.{BitStep};
ghost use Rattle.bb_expr.specs.Lists.{copies};
ghost use Rattle.bb_expr.specs.Cells.{MadeTerms, operated, chained, op_cells, arm_made};
ghost use Rattle.bb_expr.specs.Inside.Growing.{Adds, complemented, gated, gate_step, reduced};

use crate::rows::{add, push};
use crate::step::BitStep;
use bb_ast::Op;
use bb_bits::NoMemory;
use std::alloc::Global;

pub(crate) fn inverted(
    alloc: Global,
    steps: &mut Vec<BitStep>,
    bits: &[u32],
) -> Result<Vec<u32>, NoMemory>
    requires { length steps.old.items + length bits.now ≤ 2 ^ 32 }
    ensures made { (nets : List NetInfo) (m : MadeTerms) (old : List BitStep) → Adds nets m old steps.old.items bits.now
        → IfOk result (λ places. Adds nets (complemented m) old steps.new.items places.items) }
    ensures grown { OnOk result (length steps.new.items ≡ length steps.old.items + length bits.now) }
    ensures count { IfOk result (λ places. length places.items ≡ length bits.now) }
{
    let mut places = Vec::with_capacity(alloc, bits.len())?;
    for bit in bits {
        add(steps, &mut places, BitStep::Not(*bit))?;
    }
    Ok(places)
}

fn gate(op: Op, left: u32, right: u32) -> BitStep
    ensures { result ≡ gate_step op left right }
{
    match op {
        Op::And => BitStep::And(left, right),
        Op::Or => BitStep::Or(left, right),
        Op::Xor | Op::Xnor => BitStep::Xor(left, right),
    }
}

fn gates(
    alloc: Global,
    steps: &mut Vec<BitStep>,
    op: Op,
    left: &[u32],
    right: &[u32],
) -> Result<Vec<u32>, NoMemory>
    requires same { length left.now ≡ length right.now }
    requires room { length steps.old.items + length left.now ≤ 2 ^ 32 }
    ensures made { (nets : List NetInfo) (m n : MadeTerms) (old mid : List BitStep) → Adds nets m old mid left.now
        → Adds nets n mid steps.old.items right.now
        → IfOk result (λ places. Adds nets (gated op m n) old steps.new.items places.items) }
    ensures grown { OnOk result (length steps.new.items ≡ length steps.old.items + length left.now) }
    ensures count { IfOk result (λ places. length places.items ≡ length left.now) }
{
    let mut places = Vec::with_capacity(alloc, left.len())?;
    for i in 0..left.len() {
        add(steps, &mut places, gate(op, left[i], right[i]))?;
    }
    Ok(places)
}

fn is_inverted(op: Op) -> bool
    ensures { IsTrue result ↔ (op ≡ ops.Xnor) }
{
    match op {
        Op::And | Op::Or | Op::Xor => false,
        Op::Xnor => true,
    }
}

pub(crate) fn operate(
    alloc: Global,
    steps: &mut Vec<BitStep>,
    op: Op,
    left: &[u32],
    right: &[u32],
) -> Result<Vec<u32>, NoMemory>
    requires same { length left.now ≡ length right.now }
    requires room { length steps.old.items + op_cells op * length left.now ≤ 2 ^ 32 }
    ensures made { (nets : List NetInfo) (m n : MadeTerms) (old mid : List BitStep) → Adds nets m old mid left.now
        → Adds nets n mid steps.old.items right.now
        → IfOk result (λ places.
        Adds nets (chained m n (operated op m.bits n.bits)) old steps.new.items places.items) }
    ensures grown { OnOk result (length steps.new.items ≡ length steps.old.items + op_cells op * length left.now) }
    ensures count { IfOk result (λ places. length places.items ≡ length left.now) }
{
    let places = gates(alloc, steps, op, left, right)?;
    if is_inverted(op) {
        inverted(alloc, steps, &places)
    } else {
        Ok(places)
    }
}

/// From the most significant bit on, as the definition has it: the terms of cells have an order.
pub(crate) fn any_bit(steps: &mut Vec<BitStep>, bits: &[u32]) -> Result<u32, NoMemory>
    requires some { 1 ≤ length bits.now }
    requires room { length steps.old.items + (length bits.now - 1) ≤ 2 ^ 32 }
    ensures made { (nets : List NetInfo) (m : MadeTerms) (old : List BitStep) → Adds nets m old steps.old.items bits.now
        → IfOk result (λ place. Adds nets (reduced m) old steps.new.items (place ∷ [])) }
    ensures grown { OnOk result (length steps.new.items ≡ length steps.old.items + (length bits.now - 1)) }
{
    let mut any = bits[0];
    for i in 1..bits.len() {
        any = push(steps, BitStep::Or(any, bits[i]))?;
    }
    Ok(any)
}

pub(crate) fn select(
    alloc: Global,
    steps: &mut Vec<BitStep>,
    condition: u32,
    chosen: &[u32],
    others: &[u32],
) -> Result<Vec<u32>, NoMemory>
    requires same { length chosen.now ≡ length others.now }
    requires some { 1 ≤ length chosen.now }
    requires room { length steps.old.items + length chosen.now ≤ 2 ^ 32 }
    ensures made { (nets : List NetInfo) (e c t : MadeTerms) (old first second : List BitStep)
        → Adds nets e old first others.now → Adds nets (reduced c) first second (condition ∷ [])
        → Adds nets t second steps.old.items chosen.now
        → IfOk result (λ places. Adds nets (arm_made c t e) old steps.new.items places.items) }
    ensures grown { OnOk result (length steps.new.items ≡ length steps.old.items + length chosen.now) }
    ensures count { IfOk result (λ places. length places.items ≡ length chosen.now) }
{
    let mut places = Vec::with_capacity(alloc, chosen.len())?;
    for i in 0..chosen.len() {
        add(
            steps,
            &mut places,
            BitStep::Mux(condition, chosen[i], others[i]),
        )?;
    }
    Ok(places)
}

/// The same places again and no new steps: the parts of a replication make their cells once.
pub(crate) fn copied(alloc: Global, bits: &[u32], count: u32) -> Result<Vec<u32>, NoMemory>
    requires { count * length bits.now ≤ 65536 }
    ensures { IfOk result (λ places. places.items ≡ copies count bits.now) }
{
    let mut places = Vec::with_capacity(alloc, count as usize * bits.len())?;
    for turn in 0..count {
        places.extend_from_slice(bits)?;
    }
    Ok(places)
}
