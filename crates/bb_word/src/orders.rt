//! Comparisons of unsigned words (IEEE 1364-2005, 5.1.7 and 5.1.8). The one by order goes from the least significant
//! bit up, with two cells for each bit and no subtraction: the last bits that differ are the most significant ones, and
//! they decide.

ghost use Rattle.std.specs.Prelude.{◌≡◌, ◌+◌, ◌-◌, ◌*◌, ◌<◌, ◌≤◌, ◌^◌, ◌∷◌, [], All, length, map, IfOk, OnOk};
ghost use Rattle.bb_word.specs.Circuits.{equal_bits, equal, less};
ghost use Rattle.bb_word.specs.Laws.Formulas.{formulas};
ghost use Rattle.bb_word.specs.Inside.Adding.{Adds, HasConstants, nothing, with_cells, equality_cells, less_cells};

use crate::joint::{Joint, reduce};
use bb_bits::NoMemory;
use bb_net::{Cell, Net};
use std::alloc::Global;

fn add_equality_bit(net: &mut Net, a: u32, b: u32) -> Result<u32, NoMemory>
    requires room { length net.old.cells + 2 < 2 ^ 32 }
    requires left { a < length net.old.cells }
    requires right { b < length net.old.cells }
    ensures ok { OnOk result (net.new ≡ with_cells net.old (equality_cells (length net.old.cells) a b)) }
    ensures place { IfOk result (λ place. place ≡ length net.old.cells + 1) }
{
    let differ = net.push(Cell::Xor(a, b))?;
    net.push(Cell::Not(differ))
}

fn add_equality(
    alloc: Global,
    net: &mut Net,
    left: &[u32],
    right: &[u32],
) -> Result<Vec<u32>, NoMemory>
    requires same { length left.now ≡ length right.now }
    requires room { length net.old.cells + 2 * length left.now < 2 ^ 32 }
    requires left { All (λ bit. bit < length net.old.cells) left.now }
    requires right { All (λ bit. bit < length net.old.cells) right.now }
    ensures made { IfOk result (λ places. Adds net.old net.new places.items
        (λ part. equal_bits formulas (map part left.now) (map part right.now)) nothing) }
    ensures grown { OnOk result (length net.new.cells ≡ length net.old.cells + 2 * length left.now) }
    ensures count { IfOk result (λ places. length places.items ≡ length left.now) }
{
    let mut places = Vec::with_capacity(alloc, left.len())?;
    for i in 0..left.len() {
        let place = add_equality_bit(net, left[i], right[i])?;
        places.push(place)?;
    }
    Ok(places)
}

pub(crate) fn add_equal(
    alloc: Global,
    net: &mut Net,
    left: &[u32],
    right: &[u32],
) -> Result<u32, NoMemory>
    requires same { length left.now ≡ length right.now }
    requires some { 1 ≤ length left.now }
    requires room { length net.old.cells + 3 * length left.now < 2 ^ 32 }
    requires left { All (λ bit. bit < length net.old.cells) left.now }
    requires right { All (λ bit. bit < length net.old.cells) right.now }
    ensures made { IfOk result (λ place.
        Adds net.old net.new (place ∷ []) (λ part. equal formulas (map part left.now) (map part right.now)) nothing) }
    ensures grown { OnOk result (length net.new.cells
        ≡ length net.old.cells + 2 * length left.now + (length left.now - 1)) }
{
    let mut equal_bits = add_equality(alloc, net, left, right)?;
    equal_bits.reverse();
    reduce(net, Joint::Both, &equal_bits)
}

/// Where the two bits differ the right one is the answer (1 if the left is less); else the bits below decide.
fn add_less_bit(net: &mut Net, a: u32, b: u32, so_far: u32) -> Result<u32, NoMemory>
    requires room { length net.old.cells + 2 < 2 ^ 32 }
    requires left { a < length net.old.cells }
    requires right { b < length net.old.cells }
    requires below { so_far < length net.old.cells }
    ensures ok { OnOk result (net.new ≡ with_cells net.old (less_cells (length net.old.cells) a b so_far)) }
    ensures place { IfOk result (λ place. place ≡ length net.old.cells + 1) }
{
    let differ = net.push(Cell::Xor(a, b))?;
    net.push(Cell::Mux(differ, b, so_far))
}

/// Words without bits are equal, so the walk begins with place 0, the constant 0.
pub(crate) fn add_less(net: &mut Net, left: &[u32], right: &[u32]) -> Result<u32, NoMemory>
    requires same { length left.now ≡ length right.now }
    requires room { length net.old.cells + 2 * length left.now < 2 ^ 32 }
    requires constants { HasConstants net.old.cells }
    requires left { All (λ bit. bit < length net.old.cells) left.now }
    requires right { All (λ bit. bit < length net.old.cells) right.now }
    ensures made { IfOk result (λ place. Adds net.old net.new (place ∷ [])
        (λ part. less formulas formulas.zero (map part left.now) (map part right.now)) nothing) }
    ensures grown { OnOk result (length net.new.cells ≡ length net.old.cells + 2 * length left.now) }
{
    let mut so_far = 0;
    for i in 0..left.len() {
        so_far = add_less_bit(net, left[i], right[i], so_far)?;
    }
    Ok(so_far)
}
