//! Operators on words, instantiated among the steps of an expression. No operator is written twice: bb_word makes its
//! netlist, and the cells of this netlist are appended with their operands moved to new places. A constant is added
//! only where something reads it, so that the bound of three steps for each cell holds also for operators with few
//! cells.

ghost use Rattle.std.specs.Prelude.{◌≡◌, ◌≤◌, ◌<◌, ◌+◌, ◌-◌, ◌^◌, ◌++◌, [], ℕ, true, ◌||◌, List, All, map, length};
ghost use Rattle.std.specs.Prelude.{IfOk, OnOk};
ghost use Rattle.bb_names.specs.declared.net.NetInfo.{NetInfo};
ghost use Rattle.bb_net.specs.Netlists.{cell_at, ReadsBefore};
ghost use Rattle.bb_word.specs.Folds.{fold_cells};
ghost use Rattle.bb_word.specs.Meanings.{word_width};
ghost use Rattle.bb_word.specs.Words.{word_cells, AreWidths};
ghost use Rattle.bb_expr.specs.declared.step.BitStep.{BitStep};
ghost use Rattle.bb_expr.specs.Cells.{MadeTerms};
ghost use Rattle.bb_expr.specs.Inside.Growing.{Adds, word_joined, fold_joined};
ghost use Rattle.bb_expr.specs.Inside.Instantiation.{is_read, read_by, is_out, after_inputs, constant_steps, moved};
ghost use Rattle.bb_expr.specs.Inside.Instantiation.{instantiated, IsInstantiated};

use crate::rows::push;
use crate::step::BitStep;
use bb_ast::{FoldOp, WordOp};
use bb_bits::NoMemory;
use bb_net::{Cell, Net};
use std::alloc::Global;

/// Where a netlist is instantiated: the places of its constants, and of its first cell after the inputs.
#[derive(Clone, Copy, Debug)]
struct Instantiation {
    zero: u32,
    one: u32,
    first: usize,
}

fn reads(cell: Cell, place: u32) -> bool
    ensures { result ≡ is_read place cell }
{
    match cell {
        Cell::Const(_) | Cell::Input(_) | Cell::BoxOut(_, _) => false,
        Cell::Not(a) => a == place,
        Cell::And(a, b) | Cell::Or(a, b) | Cell::Xor(a, b) => a == place || b == place,
        Cell::Mux(c, t, e) => c == place || t == place || e == place,
    }
}

fn some_reads(cells: &[Cell], place: u32) -> bool
    ensures { result ≡ read_by place cells.now }
{
    for cell in cells {
        if reads(*cell, place) {
            return true;
        }
    }
    false
}

fn some_out(outs: &[u32], place: u32) -> bool
    ensures { result ≡ is_out place outs.now }
{
    for out in outs {
        if *out == place {
            return true;
        }
    }
    false
}

fn needs(cells: &[Cell], outs: &[u32], place: u32) -> bool
    ensures { result ≡ (read_by place cells.now || is_out place outs.now) }
{
    some_reads(cells, place) || some_out(outs, place)
}

/// Where nothing reads it, the place is 0 and means nothing.
fn constant(steps: &mut Vec<BitStep>, bit: bool, needed: bool) -> Result<u32, NoMemory>
    requires { length steps.old.items < 2 ^ 32 }
    ensures place { IfOk result (λ place. needed ≡ true → place ≡ length steps.old.items) }
    ensures steps { OnOk result (steps.new.items ≡ steps.old.items ++ constant_steps bit needed) }
{
    if needed {
        push(steps, BitStep::Const(bit))
    } else {
        Ok(0)
    }
}

/// Cells 0 and 1 of the netlist are its constants, and its inputs follow; neither is appended.
fn place_of(at: Instantiation, inputs: &[u32], place: u32) -> u32
    requires few { length inputs.now ≤ 131072 }
    requires room { 2 + length inputs.now ≤ place → at.first + (place - (2 + length inputs.now)) < 2 ^ 32 }
    ensures { result ≡ moved at inputs.now place }
{
    let after = 2 + inputs.len() as u32;
    if place == 0 {
        at.zero
    } else if place == 1 {
        at.one
    } else if place < after {
        inputs[place as usize - 2]
    } else {
        (at.first + (place - after) as usize) as u32
    }
}

fn step_of(at: Instantiation, inputs: &[u32], cell: Cell) -> BitStep
    requires few { length inputs.now ≤ 131072 }
    requires reads { (place : ℕ) × (at.first + (place - (2 + length inputs.now)) ≤ 2 ^ 32)
        × ReadsBefore (length inputs.now) [] place cell }
    ensures { result ≡ instantiated (moved at inputs.now) cell }
{
    match cell {
        Cell::Const(bit) => BitStep::Const(bit),
        // Never reached: no input comes after the inputs, and there are no boxes.
        Cell::Input(_) | Cell::BoxOut(_, _) => BitStep::Const(false),
        Cell::Not(a) => BitStep::Not(place_of(at, inputs, a)),
        Cell::And(a, b) => BitStep::And(place_of(at, inputs, a), place_of(at, inputs, b)),
        Cell::Or(a, b) => BitStep::Or(place_of(at, inputs, a), place_of(at, inputs, b)),
        Cell::Xor(a, b) => BitStep::Xor(place_of(at, inputs, a), place_of(at, inputs, b)),
        Cell::Mux(c, t, e) => BitStep::Mux(
            place_of(at, inputs, c),
            place_of(at, inputs, t),
            place_of(at, inputs, e),
        ),
    }
}

fn instantiate_cells(
    steps: &mut Vec<BitStep>,
    at: Instantiation,
    inputs: &[u32],
    cells: &[Cell],
) -> Result<(), NoMemory>
    requires few { length inputs.now ≤ 131072 }
    requires first { at.first + length cells.now ≤ 2 ^ 32 }
    requires room { length steps.old.items + length cells.now ≤ 2 ^ 32 }
    requires earlier { (k : ℕ) → k < length cells.now
        → ReadsBefore (length inputs.now) [] (2 + length inputs.now + k) (cell_at cells.now k) }
    ensures { OnOk result (steps.new.items ≡ steps.old.items ++ map (instantiated (moved at inputs.now)) cells.now) }
{
    for cell in cells {
        push(steps, step_of(at, inputs, *cell))?;
    }
    Ok(())
}

fn moved_outs(
    alloc: Global,
    at: Instantiation,
    inputs: &[u32],
    outs: &[u32],
) -> Result<Vec<u32>, NoMemory>
    requires few { length inputs.now ≤ 131072 }
    requires there { (count : ℕ) × (at.first + count ≤ 2 ^ 32)
        × All (λ place. place < 2 + length inputs.now + count) outs.now }
    ensures { IfOk result (λ places. places.items ≡ map (moved at inputs.now) outs.now) }
{
    let mut places = Vec::with_capacity(alloc, outs.len())?;
    for out in outs {
        places.push(place_of(at, inputs, *out))?;
    }
    Ok(places)
}

#[tactic(auto, using(crate::proofs::InstantiatedPlaces::prefix_there))]
fn first_after(net: &Net) -> usize
    ensures first { result ≡ net.now.inputs + 2 }
    ensures there { result ≤ length net.now.cells }
{
    net.inputs() as usize + 2
}

fn after(net: &Net) -> &[Cell]
    ensures { result.now ≡ after_inputs net.now }
{
    let first = first_after(net);
    &net.cells()[first..]
}

/// Appends a netlist without boxes, with its inputs at these places, and gives the places of its outputs.
fn instantiate(
    alloc: Global,
    steps: &mut Vec<BitStep>,
    net: &Net,
    inputs: &[u32],
) -> Result<Vec<u32>, NoMemory>
    requires inputs { net.now.inputs ≡ length inputs.now }
    requires boxes { net.now.boxes ≡ [] }
    requires few { length inputs.now ≤ 131072 }
    requires room { length steps.old.items + 2 + (length net.now.cells - (length inputs.now + 2)) ≤ 2 ^ 32 }
    ensures { IfOk result (λ places. IsInstantiated net.now inputs.now steps.old.items steps.new.items places.items) }
{
    let cells = after(net);
    let zero = constant(steps, false, needs(cells, net.outs(), 0))?;
    let one = constant(steps, true, needs(cells, net.outs(), 1))?;
    let first = steps.len();
    let at = Instantiation { zero, one, first };
    instantiate_cells(steps, at, inputs, cells)?;
    moved_outs(alloc, at, inputs, net.outs())
}

/// The inputs are the left word and then the right one, each from its most significant bit on.
pub(crate) fn word(
    alloc: Global,
    steps: &mut Vec<BitStep>,
    op: WordOp,
    left: &[u32],
    right: &[u32],
) -> Result<Vec<u32>, NoMemory>
    requires widths { AreWidths op (length left.now) (length right.now) }
    requires few_left { length left.now ≤ 65536 }
    requires few_right { length right.now ≤ 65536 }
    requires few_cells { word_cells op (length left.now) (length right.now) ≤ 2000000 }
    requires room { length steps.old.items + 2 + word_cells op (length left.now) (length right.now) ≤ 2 ^ 32 }
    ensures made { (nets : List NetInfo) (m n : MadeTerms) (old mid : List BitStep) → Adds nets m old mid left.now
        → Adds nets n mid steps.old.items right.now
        → IfOk result (λ places. Adds nets (word_joined op m n) old steps.new.items places.items) }
    ensures count { IfOk result (λ places. length places.items ≡ word_width op (length left.now)) }
    ensures grown { OnOk result (length steps.new.items
        ≤ length steps.old.items + 2 + word_cells op (length left.now) (length right.now)) }
{
    let net = bb_word::word(alloc, op, left.len() as u32, right.len() as u32)?;
    let mut inputs = Vec::with_capacity(alloc, left.len() + right.len())?;
    inputs.extend_from_slice(left)?;
    inputs.extend_from_slice(right)?;
    instantiate(alloc, steps, &net, &inputs)
}

pub(crate) fn fold(
    alloc: Global,
    steps: &mut Vec<BitStep>,
    op: FoldOp,
    bits: &[u32],
) -> Result<Vec<u32>, NoMemory>
    requires some { 1 ≤ length bits.now }
    requires few { length bits.now ≤ 65536 }
    requires room { length steps.old.items + 2 + fold_cells op (length bits.now) ≤ 2 ^ 32 }
    ensures made { (nets : List NetInfo) (m : MadeTerms) (old : List BitStep) → Adds nets m old steps.old.items bits.now
        → IfOk result (λ places. Adds nets (fold_joined op m) old steps.new.items places.items) }
    ensures count { IfOk result (λ places. length places.items ≡ 1) }
    ensures grown { OnOk result (length steps.new.items
        ≤ length steps.old.items + 2 + fold_cells op (length bits.now)) }
{
    let net = bb_word::fold(alloc, op, bits.len() as u32)?;
    instantiate(alloc, steps, &net, bits)
}
