//! Shifts by an amount that is a word (IEEE 1364-2005, 5.1.12), as a logarithmic shifter: one stage of choices for each
//! bit of the amount, and not one row for each distance.

ghost use Rattle.std.specs.Prelude.{◌≡◌, ◌+◌, ◌*◌, ◌<◌, ◌≤◌, ◌^◌, ◌∷◌, [], min, All, length, map, IfOk, OnOk};
ghost use Rattle.bb_net.specs.declared.cell.Cell.TheVariants.{Mux};
ghost use Rattle.bb_word.specs.Circuits.{shifted, up, down};
ghost use Rattle.bb_word.specs.Laws.Formulas.{formulas};
ghost use Rattle.bb_word.specs.Inside.Adding.{Adds, HasConstants, nothing, with_cells};
ghost use Rattle.bb_word.specs.Inside.Moving.{move, both_choices};

use bb_bits::NoMemory;
use bb_net::{Cell, Net};
use std::alloc::Global;

/// `Up` is `<<`, to more significant places.
#[derive(Clone, Copy)]
pub(crate) enum Direction {
    Up,
    Down,
}

/// Place 0 is the constant 0, which comes in at the low end.
#[tactic(auto, using(crate::proofs::MoveLemmas::near))]
fn moved_up(alloc: Global, bits: &[u32], distance: usize) -> Result<Vec<u32>, NoMemory>
    requires near { distance ≤ length bits.now }
    ensures moved { IfOk result (λ moved. moved.items ≡ up 0 distance bits.now) }
{
    let mut moved = vec![in alloc; 0u32; distance]?;
    moved.extend_from_slice(&bits[..bits.len() - distance])?;
    Ok(moved)
}

/// Place 0 comes in at the high end.
#[tactic(auto, using(crate::proofs::MoveLemmas::near))]
fn moved_down(alloc: Global, bits: &[u32], distance: usize) -> Result<Vec<u32>, NoMemory>
    requires near { distance ≤ length bits.now }
    ensures moved { IfOk result (λ moved. moved.items ≡ down 0 distance bits.now) }
{
    let zeros = vec![in alloc; 0u32; distance]?;
    let mut moved = Vec::from_slice(alloc, &bits[distance..])?;
    moved.extend_from_slice(&zeros)?;
    Ok(moved)
}

fn moved_word(
    alloc: Global,
    direction: Direction,
    bits: &[u32],
    distance: usize,
) -> Result<Vec<u32>, NoMemory>
    requires near { distance ≤ length bits.now }
    ensures moved { IfOk result (λ moved. moved.items ≡ move direction 0 distance bits.now) }
{
    match direction {
        Direction::Up => moved_up(alloc, bits, distance),
        Direction::Down => moved_down(alloc, bits, distance),
    }
}

/// Stops at the width, where everything is shifted out: an amount may have more bits than any distance that matters.
fn doubled(distance: usize, width: usize) -> usize
    requires { distance ≤ 65536 }
    ensures { result ≡ min width (2 * distance) }
{
    if 2 * distance < width {
        2 * distance
    } else {
        width
    }
}

fn add_choice(net: &mut Net, choice: u32, a: u32, b: u32) -> Result<u32, NoMemory>
    requires room { length net.old.cells + 1 < 2 ^ 32 }
    requires choice { choice < length net.old.cells }
    requires first { a < length net.old.cells }
    requires second { b < length net.old.cells }
    ensures ok { OnOk result (net.new ≡ with_cells net.old (Mux choice a b ∷ [])) }
    ensures place { IfOk result (λ place. place ≡ length net.old.cells) }
{
    net.push(Cell::Mux(choice, a, b))
}

fn add_choices(
    alloc: Global,
    net: &mut Net,
    choice: u32,
    chosen: &[u32],
    others: &[u32],
) -> Result<Vec<u32>, NoMemory>
    requires same { length chosen.now ≡ length others.now }
    requires room { length net.old.cells + length chosen.now < 2 ^ 32 }
    requires choice { choice < length net.old.cells }
    requires chosen { All (λ bit. bit < length net.old.cells) chosen.now }
    requires others { All (λ bit. bit < length net.old.cells) others.now }
    ensures made { IfOk result (λ places. Adds net.old net.new places.items
        (λ part. both_choices (part choice) (map part chosen.now) (map part others.now)) nothing) }
    ensures grown { OnOk result (length net.new.cells ≡ length net.old.cells + length chosen.now) }
    ensures count { IfOk result (λ places. length places.items ≡ length chosen.now) }
{
    let mut places = Vec::with_capacity(alloc, chosen.len())?;
    for i in 0..chosen.len() {
        let place = add_choice(net, choice, chosen[i], others[i])?;
        places.push(place)?;
    }
    Ok(places)
}

fn add_stage(
    alloc: Global,
    net: &mut Net,
    direction: Direction,
    choice: u32,
    distance: usize,
    bits: &[u32],
) -> Result<Vec<u32>, NoMemory>
    requires near { distance ≤ length bits.now }
    requires room { length net.old.cells + length bits.now < 2 ^ 32 }
    requires constants { HasConstants net.old.cells }
    requires choice { choice < length net.old.cells }
    requires there { All (λ bit. bit < length net.old.cells) bits.now }
    ensures made { IfOk result (λ places. Adds net.old net.new places.items
        (λ part. both_choices (part choice) (move direction formulas.zero distance (map part bits.now))
        (map part bits.now))
        nothing) }
    ensures grown { OnOk result (length net.new.cells ≡ length net.old.cells + length bits.now) }
    ensures count { IfOk result (λ places. length places.items ≡ length bits.now) }
{
    let moved = moved_word(alloc, direction, bits, distance)?;
    add_choices(alloc, net, choice, &moved, bits)
}

/// The amount's least significant bit comes first and moves by 1; each further one moves by twice as much, up to the
/// width.
pub(crate) fn add_shift(
    alloc: Global,
    net: &mut Net,
    direction: Direction,
    bits: &[u32],
    amount: &[u32],
) -> Result<Vec<u32>, NoMemory>
    requires some { 1 ≤ length bits.now }
    requires few { length bits.now ≤ 65536 }
    requires room { length net.old.cells + length amount.now * length bits.now < 2 ^ 32 }
    requires constants { HasConstants net.old.cells }
    requires bits { All (λ bit. bit < length net.old.cells) bits.now }
    requires amount { All (λ bit. bit < length net.old.cells) amount.now }
    ensures made { IfOk result (λ places. Adds net.old net.new places.items
        (λ part. shifted formulas (move direction formulas.zero) 1 (map part amount.now) (map part bits.now)) nothing) }
    ensures grown { OnOk result (length net.new.cells ≡ length net.old.cells + length amount.now * length bits.now) }
{
    let mut shifted = Vec::from_slice(alloc, bits)?;
    let mut distance = 1;
    for choice in amount {
        let stage = add_stage(alloc, net, direction, *choice, distance, &shifted)?;
        shifted = stage;
        distance = doubled(distance, bits.len());
    }
    Ok(shifted)
}
