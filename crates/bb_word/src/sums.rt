//! Complements, sums and differences (IEEE 1364-2005, 5.1.5), by a ripple-carry adder of five gates for each bit. Every
//! bit makes the same cells, so the carry out of the last one is a cell that nothing reads.

ghost use Rattle.std.specs.Prelude.{◌≡◌, ◌+◌, ◌*◌, ◌<◌, ◌^◌, ◌∷◌, [], All, length, map, IfOk, OnOk};
ghost use Rattle.bb_net.specs.declared.cell.Cell.TheVariants.{Not};
ghost use Rattle.bb_word.specs.Circuits.{complements, sum, difference};
ghost use Rattle.bb_word.specs.Laws.Formulas.{formulas};
ghost use Rattle.bb_word.specs.Inside.Adding.{Adds, HasConstants, nothing, with_cells, digit_cells};

use bb_bits::NoMemory;
use bb_net::{Cell, Net};
use std::alloc::Global;

#[derive(Clone, Copy)]
struct Digit {
    sum: u32,
    carry: u32,
}

pub(crate) fn add_complement(net: &mut Net, a: u32) -> Result<u32, NoMemory>
    requires room { length net.old.cells + 1 < 2 ^ 32 }
    requires there { a < length net.old.cells }
    ensures ok { OnOk result (net.new ≡ with_cells net.old (Not a ∷ [])) }
    ensures place { IfOk result (λ place. place ≡ length net.old.cells) }
{
    net.push(Cell::Not(a))
}

pub(crate) fn add_complements(
    alloc: Global,
    net: &mut Net,
    bits: &[u32],
) -> Result<Vec<u32>, NoMemory>
    requires room { length net.old.cells + length bits.now < 2 ^ 32 }
    requires there { All (λ bit. bit < length net.old.cells) bits.now }
    ensures made { IfOk result (λ places. Adds net.old net.new places.items
        (λ part. record {
          bits = complements formulas (map part bits.now);
          cells = complements formulas (map part bits.now);
        })
        nothing) }
    ensures grown { OnOk result (length net.new.cells ≡ length net.old.cells + length bits.now) }
    ensures count { IfOk result (λ places. length places.items ≡ length bits.now) }
{
    let mut places = Vec::with_capacity(alloc, bits.len())?;
    for bit in bits {
        let place = add_complement(net, *bit)?;
        places.push(place)?;
    }
    Ok(places)
}

/// A full adder. `differ` is shared between sum and carry, which makes five gates of six.
fn add_digit(net: &mut Net, a: u32, b: u32, c: u32) -> Result<Digit, NoMemory>
    requires room { length net.old.cells + 5 < 2 ^ 32 }
    requires left { a < length net.old.cells }
    requires right { b < length net.old.cells }
    requires carry { c < length net.old.cells }
    ensures ok { OnOk result (net.new ≡ with_cells net.old (digit_cells (length net.old.cells) a b c)) }
    ensures sum { IfOk result (λ digit. digit.sum ≡ length net.old.cells + 1) }
    ensures carry { IfOk result (λ digit. digit.carry ≡ length net.old.cells + 4) }
{
    let differ = net.push(Cell::Xor(a, b))?;
    let sum = net.push(Cell::Xor(differ, c))?;
    let both = net.push(Cell::And(a, b))?;
    let passed = net.push(Cell::And(differ, c))?;
    let carry = net.push(Cell::Or(both, passed))?;
    Ok(Digit { sum, carry })
}

pub(crate) fn add_sum(
    alloc: Global,
    net: &mut Net,
    carry: u32,
    left: &[u32],
    right: &[u32],
) -> Result<Vec<u32>, NoMemory>
    requires same { length left.now ≡ length right.now }
    requires room { length net.old.cells + 5 * length left.now < 2 ^ 32 }
    requires carry { carry < length net.old.cells }
    requires left { All (λ bit. bit < length net.old.cells) left.now }
    requires right { All (λ bit. bit < length net.old.cells) right.now }
    ensures made { IfOk result (λ places. Adds net.old net.new places.items
        (λ part. sum formulas (part carry) (map part left.now) (map part right.now)) nothing) }
    ensures grown { OnOk result (length net.new.cells ≡ length net.old.cells + 5 * length left.now) }
{
    let mut places = Vec::with_capacity(alloc, left.len())?;
    let mut next = carry;
    for i in 0..left.len() {
        let digit = add_digit(net, left[i], right[i], next)?;
        places.push(digit.sum)?;
        next = digit.carry;
    }
    Ok(places)
}

/// In two's complement: the complement of the right word and a carry in of 1, so the adder serves for both.
pub(crate) fn add_difference(
    alloc: Global,
    net: &mut Net,
    left: &[u32],
    right: &[u32],
) -> Result<Vec<u32>, NoMemory>
    requires same { length left.now ≡ length right.now }
    requires room { length net.old.cells + 6 * length left.now < 2 ^ 32 }
    requires constants { HasConstants net.old.cells }
    requires left { All (λ bit. bit < length net.old.cells) left.now }
    requires right { All (λ bit. bit < length net.old.cells) right.now }
    ensures made { IfOk result (λ places. Adds net.old net.new places.items
        (λ part. difference formulas (map part left.now) (map part right.now)) nothing) }
    ensures grown { OnOk result (length net.new.cells ≡ length net.old.cells + 6 * length left.now) }
{
    let complements = add_complements(alloc, net, right)?;
    add_sum(alloc, net, 1, left, &complements)
}
