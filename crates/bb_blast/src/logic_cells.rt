//! The cells of an expression's operators, and the places of its bits.
//!
//! Constants and bits of nets make no cell here: they are in the list already, and an operand names their place.
//! Otherwise a list could be of any length, since lowering leaves open how many of its steps are no operators.

ghost use Rattle.std.specs.Prelude.{◌≡◌, ◌<◌, ◌++◌, All, length, map, IfOk, OnOk};
ghost use Rattle.bb_blast.specs.Inside.Counting.{after};
ghost use Rattle.bb_blast.specs.Inside.Logic.{IsLogicAmong, IsOperandBelow, IsOperatorBelow, constant_place};
ghost use Rattle.bb_blast.specs.Inside.Logic.{net_bit_place, operand_in, operand_place, operator_cell, with_logic};
ghost use Rattle.bb_blast.specs.Inside.Logic.{logic_places};

use crate::logic::{Logic, Operand, Operator, operand_at};
use crate::sources::{after, next_place};
use bb_bits::NoMemory;
use bb_net::LooseCell;

/// A site: where the cells of a scope are appended, and what they read.
#[derive(Clone, Copy, Debug)]
pub(crate) struct Spot<'a> {
    /// The place of the first cell after the bits of nets.
    pub others: u32,
    /// The place of the first bit of the scope.
    pub bits: u32,
    /// For each net of the module the number of its first bit, counted in the scope.
    pub starts: &'a [u32],
}

/// The first two cells of every list are the constants 0 and 1.
pub(crate) fn constant_place(high: bool) -> u32
    ensures place { result ≡ constant_place high }
{
    if high { 1 } else { 0 }
}

fn net_bit(bits: u32, starts: &[u32], net: u32, bit: u32) -> u32
    requires net { net < length starts.now }
    ensures place { result ≡ net_bit_place bits starts.now net bit }
{
    after(after(bits, starts[net as usize]), bit)
}

fn operand_place(spot: Spot<'_>, first: u32, operand: Operand) -> u32
    requires below { IsOperandBelow (length spot.starts.now) operand }
    ensures place { result ≡ operand_place spot.entry.bits spot.entry.starts.now first operand }
{
    match operand {
        Operand::Const(high) => constant_place(high),
        Operand::Net(net, bit) => net_bit(spot.bits, spot.starts, net, bit),
        Operand::Cell(number) => after(first, number),
    }
}

fn operator_cell(spot: Spot<'_>, first: u32, operator: Operator) -> LooseCell
    requires below { IsOperatorBelow (length spot.starts.now) operator }
    ensures cell { result ≡ operator_cell (operand_place spot.entry.bits spot.entry.starts.now first) operator }
{
    match operator {
        Operator::Not(a) => LooseCell::Not(operand_place(spot, first, a)),
        Operator::And(a, b) => LooseCell::And(
            operand_place(spot, first, a),
            operand_place(spot, first, b),
        ),
        Operator::Or(a, b) => LooseCell::Or(
            operand_place(spot, first, a),
            operand_place(spot, first, b),
        ),
        Operator::Xor(a, b) => LooseCell::Xor(
            operand_place(spot, first, a),
            operand_place(spot, first, b),
        ),
        Operator::Mux(c, t, e) => LooseCell::Mux(
            operand_place(spot, first, c),
            operand_place(spot, first, t),
            operand_place(spot, first, e),
        ),
    }
}

fn add_operators(
    spot: Spot<'_>,
    first: u32,
    operators: &[Operator],
    cells: &mut Vec<LooseCell>,
) -> Result<(), NoMemory>
    requires below { All (IsOperatorBelow (length spot.starts.now)) operators.now }
    ensures added { OnOk result (cells.new.items
        ≡ cells.old.items
        ++ map (operator_cell (operand_place spot.entry.bits spot.entry.starts.now first)) operators.now) }
{
    for operator in operators {
        cells.push(operator_cell(spot, first, *operator))?;
    }
    Ok(())
}

fn note_operands(
    spot: Spot<'_>,
    first: u32,
    operands: &[Operand],
    places: &mut Vec<u32>,
) -> Result<(), NoMemory>
    requires below { All (IsOperandBelow (length spot.starts.now)) operands.now }
    ensures noted { OnOk result (places.new.items
        ≡ map (operand_place spot.entry.bits spot.entry.starts.now first) operands.now) }
{
    places.clear();
    for operand in operands {
        places.push(operand_place(spot, first, *operand))?;
    }
    Ok(())
}

/// `places` is cleared first, and then has the places of the low bits, most significant first.
pub(crate) fn add_logic(
    spot: Spot<'_>,
    logic: &Logic,
    places: &mut Vec<u32>,
    cells: &mut Vec<LooseCell>,
) -> Result<(), NoMemory>
    requires below { IsLogicAmong (length spot.starts.now) logic.now }
    ensures places { OnOk result (places.new.items
        ≡ logic_places spot.entry.others spot.entry.bits spot.entry.starts.now cells.old.items logic.now) }
    ensures added { OnOk result (cells.new.items
        ≡ with_logic spot.entry.others spot.entry.bits spot.entry.starts.now cells.old.items logic.now) }
{
    let first = next_place(spot.others, cells);
    add_operators(spot, first, &logic.operators, cells)?;
    note_operands(spot, first, &logic.bits, places)
}

/// For what has one bit, as the input of a gate: no list of places is needed.
pub(crate) fn add_one_bit(
    spot: Spot<'_>,
    logic: &Logic,
    cells: &mut Vec<LooseCell>,
) -> Result<u32, NoMemory>
    requires below { IsLogicAmong (length spot.starts.now) logic.now }
    ensures place { IfOk result (λ place. place ≡ operand_place spot.entry.bits spot.entry.starts.now
        (after spot.entry.others (length cells.old.items)) (operand_in logic.now.bits.items 0)) }
    ensures added { OnOk result (cells.new.items
        ≡ with_logic spot.entry.others spot.entry.bits spot.entry.starts.now cells.old.items logic.now) }
{
    let first = next_place(spot.others, cells);
    add_operators(spot, first, &logic.operators, cells)?;
    Ok(operand_place(spot, first, operand_at(&logic.bits, 0)))
}
