//! What is kept of an expression until its cells are made: its operators, and what drives its low bits.
//!
//! An expression may be far wider than what it is assigned to, and the expressions of all modules are held at once. So
//! its steps are dropped here: a bit of a net takes room only where an operator reads it or it is assigned. The same
//! cells result at the same places as from all steps.

ghost use Rattle.std.specs.Prelude.{◌≡◌, [], map, IfOk, OnOk};
ghost use Rattle.bb_bits.specs.Bits.{low_bits};
ghost use Rattle.bb_blast.specs.Inside.Logic.{IsLogicOf, Kept, kept_of, operand_in, operator_of, result_of, with_step};

use crate::sources::count_of;
use bb_bits::NoMemory;
use bb_expr::{BitStep, Lowered};
use std::alloc::Global;

/// Constants and bits of nets are operands and not operators, as they need no cell of their own.
#[derive(Clone, Copy, Debug)]
pub enum Operand {
    Const(bool),
    /// The index of the net in the module, and the place of the bit from the leftmost on.
    Net(u32, u32),
    /// The operator with this number, counted in the expression.
    Cell(u32),
}

/// Each operator becomes one cell.
#[derive(Clone, Copy, Debug)]
pub enum Operator {
    Not(Operand),
    And(Operand, Operand),
    Or(Operand, Operand),
    Xor(Operand, Operand),
    /// The second operand where the first is 1, else the third.
    Mux(Operand, Operand, Operand),
}

/// The operators in topological order, and what drives the low bits, most significant first.
#[derive(Debug, Drop)]
pub struct Logic {
    pub operators: Vec<Operator>,
    pub bits: Vec<Operand>,
}

/// A step that is not there counts as the constant 0.
pub(crate) fn operand_at(results: &[Operand], step: u32) -> Operand
    ensures operand { result ≡ operand_in results.now step }
{
    results
        .get(step as usize)
        .copied()
        .unwrap_or(Operand::Const(false))
}

fn result_of(step: BitStep, next: u32) -> Operand
    ensures operand { result ≡ result_of next step }
{
    match step {
        BitStep::Const(high) => Operand::Const(high),
        BitStep::Net(net, bit) => Operand::Net(net, bit),
        BitStep::Not(_) | BitStep::And(_, _) | BitStep::Or(_, _) => Operand::Cell(next),
        BitStep::Xor(_, _) | BitStep::Mux(_, _, _) => Operand::Cell(next),
    }
}

fn operator_of(results: &[Operand], step: BitStep) -> Option<Operator>
    ensures operator { result ≡ operator_of (operand_in results.now) step }
{
    let operator = match step {
        BitStep::Const(_) | BitStep::Net(_, _) => return None,
        BitStep::Not(a) => Operator::Not(operand_at(results, a)),
        BitStep::And(a, b) => Operator::And(operand_at(results, a), operand_at(results, b)),
        BitStep::Or(a, b) => Operator::Or(operand_at(results, a), operand_at(results, b)),
        BitStep::Xor(a, b) => Operator::Xor(operand_at(results, a), operand_at(results, b)),
        BitStep::Mux(c, t, e) => Operator::Mux(
            operand_at(results, c),
            operand_at(results, t),
            operand_at(results, e),
        ),
    };
    Some(operator)
}

fn add_step(
    step: BitStep,
    results: &mut Vec<Operand>,
    operators: &mut Vec<Operator>,
) -> Result<(), NoMemory>
    ensures kept { OnOk result (◌≡◌ {A = Kept} (record { operators = operators.new.items; results = results.new.items })
        (with_step (record { operators = operators.old.items; results = results.old.items }) step)) }
{
    let operator = operator_of(results, step);
    results.push(result_of(step, count_of(operators)))?;
    let Some(operator) = operator else {
        return Ok(());
    };
    operators.push(operator)?;
    Ok(())
}

fn add_steps(
    steps: &[BitStep],
    results: &mut Vec<Operand>,
    operators: &mut Vec<Operator>,
) -> Result<(), NoMemory>
    requires results { results.now.items ≡ [] }
    requires operators { operators.now.items ≡ [] }
    ensures results { OnOk result (results.new.items ≡ (kept_of steps.now).results) }
    ensures operators { OnOk result (operators.new.items ≡ (kept_of steps.now).operators) }
{
    for step in steps {
        add_step(*step, results, operators)?;
    }
    Ok(())
}

fn operands_at(alloc: Global, results: &[Operand], steps: &[u32]) -> Result<Vec<Operand>, NoMemory>
    ensures operands { IfOk result (λ operands. operands.items ≡ map (operand_in results.now) steps.now) }
{
    let mut operands = Vec::with_capacity(alloc, steps.len())?;
    for step in steps {
        operands.push(operand_at(results, *step))?;
    }
    Ok(operands)
}

fn low_bits(count: usize, bits: &[u32]) -> &[u32]
    ensures low { result.now ≡ low_bits count bits.now }
{
    &bits[bits.len().saturating_sub(count)..]
}

/// `count` is the width of what is assigned: the bits above it are truncated, but their operators stay.
pub(crate) fn logic_of(alloc: Global, lowered: &Lowered, count: usize) -> Result<Logic, NoMemory>
    ensures logic { IfOk result (IsLogicOf count lowered.now) }
{
    let mut results = Vec::with_capacity(alloc, lowered.steps.len())?;
    let mut operators = Vec::new(alloc);
    add_steps(&lowered.steps, &mut results, &mut operators)?;
    let bits = operands_at(alloc, &results, low_bits(count, &lowered.bits))?;
    Ok(Logic { operators, bits })
}
