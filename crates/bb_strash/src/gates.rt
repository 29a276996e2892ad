//! Normal forms of not, and, or, xor. An or becomes an and of inverters, and inverters are pulled out of xors, so that
//! gates with the same function of the same operands get one key; operands of commutative gates are sorted by place.
//! Constants, equal and complementary operands are folded.

ghost use Rattle.std.specs.Prelude.{◌≡◌, ◌⊎◌, ◌+◌, ◌<◌, ◌^◌, ◌&&◌, ◌||◌, not, [], length, IfOk, IfSome, OnOk};
ghost use Rattle.bb_net.specs.Netlists.{IsNetlist};
ghost use Rattle.bb_net.specs.Values.{xor};
ghost use Rattle.bb_strash.specs.Inside.Extensions.{bit, Extends, Gives};

use crate::bit_laws::bits;
use crate::inverters::{are_complements, inverted, without_inverter};
use crate::key::Index;
use crate::places::place_of_gate;
use bb_bits::NoMemory;
use bb_net::{Cell, Net};

/// No inverter of an inverter is made.
pub(crate) fn add_not(net: &mut Net, index: &mut Index, a: u32) -> Result<u32, NoMemory>
    requires none { net.old.boxes ≡ [] }
    requires a { a < length net.old.cells }
    requires room { length net.old.cells + 1 < 2 ^ 32 }
    ensures extends { OnOk result (Extends net.old net.new 1) }
    ensures gives { IfOk result (λ place. Gives net.new place (λ x. not (bit net.old x a))) }
{
    bits();
    net.keeps_its_order();
    if a == 0 {
        return Ok(1);
    }
    if a == 1 {
        return Ok(0);
    }
    match inverted(net, a) {
        Some(b) => Ok(b),
        None => place_of_gate(net, index, Cell::Not(a)),
    }
}

fn folded_and(net: &Net, a: u32, b: u32) -> Option<u32>
    requires none { net.now.boxes ≡ [] }
    requires a { a < length net.now.cells }
    requires b { b < length net.now.cells }
    ensures gives { IfSome result (λ place. Gives net.now place (λ x. bit net.now x a && bit net.now x b)) }
    ensures kept { IsNetlist net.now }
{
    bits();
    net.keeps_its_order();
    if a == b || b == 1 {
        return Some(a);
    }
    if a == 1 {
        return Some(b);
    }
    if a == 0 || b == 0 || are_complements(net, a, b) {
        return Some(0);
    }
    None
}

fn and_of(a: u32, b: u32) -> Cell
    ensures { (result ≡ Cell.And a b) ⊎ (result ≡ Cell.And b a) }
{
    if a < b {
        Cell::And(a, b)
    } else {
        Cell::And(b, a)
    }
}

pub(crate) fn add_and(net: &mut Net, index: &mut Index, a: u32, b: u32) -> Result<u32, NoMemory>
    requires none { net.old.boxes ≡ [] }
    requires a { a < length net.old.cells }
    requires b { b < length net.old.cells }
    requires room { length net.old.cells + 1 < 2 ^ 32 }
    ensures extends { OnOk result (Extends net.old net.new 1) }
    ensures gives { IfOk result (λ place. Gives net.new place (λ x. bit net.old x a && bit net.old x b)) }
{
    bits();
    match folded_and(net, a, b) {
        Some(place) => Ok(place),
        None => place_of_gate(net, index, and_of(a, b)),
    }
}

/// By De Morgan; adds at most four cells.
pub(crate) fn add_or(net: &mut Net, index: &mut Index, a: u32, b: u32) -> Result<u32, NoMemory>
    requires none { net.old.boxes ≡ [] }
    requires a { a < length net.old.cells }
    requires b { b < length net.old.cells }
    requires room { length net.old.cells + 4 < 2 ^ 32 }
    ensures extends { OnOk result (Extends net.old net.new 4) }
    ensures gives { IfOk result (λ place. Gives net.new place (λ x. bit net.old x a || bit net.old x b)) }
{
    bits();
    let not_a = add_not(net, index, a)?;
    let not_b = add_not(net, index, b)?;
    let neither = add_and(net, index, not_a, not_b)?;
    let either = add_not(net, index, neither)?;
    Ok(either)
}

// Complementary operands need no case: the caller has removed inverters.
fn folded_xor(net: &Net, a: u32, b: u32) -> Option<u32>
    requires none { net.now.boxes ≡ [] }
    requires a { a < length net.now.cells }
    requires b { b < length net.now.cells }
    ensures gives { IfSome result (λ place. Gives net.now place (λ x. xor (bit net.now x a) (bit net.now x b))) }
    ensures kept { IsNetlist net.now }
{
    bits();
    net.keeps_its_order();
    if a == b {
        return Some(0);
    }
    if a == 0 {
        return Some(b);
    }
    if b == 0 {
        return Some(a);
    }
    None
}

fn xor_of(a: u32, b: u32) -> Cell
    ensures { (result ≡ Cell.Xor a b) ⊎ (result ≡ Cell.Xor b a) }
{
    if a < b {
        Cell::Xor(a, b)
    } else {
        Cell::Xor(b, a)
    }
}

fn add_plain_xor(net: &mut Net, index: &mut Index, a: u32, b: u32) -> Result<u32, NoMemory>
    requires none { net.old.boxes ≡ [] }
    requires a { a < length net.old.cells }
    requires b { b < length net.old.cells }
    requires room { length net.old.cells + 1 < 2 ^ 32 }
    ensures extends { OnOk result (Extends net.old net.new 1) }
    ensures gives { IfOk result (λ place. Gives net.new place (λ x. xor (bit net.old x a) (bit net.old x b))) }
{
    bits();
    match folded_xor(net, a, b) {
        Some(place) => Ok(place),
        None => place_of_gate(net, index, xor_of(a, b)),
    }
}

fn add_signed(net: &mut Net, index: &mut Index, a: u32, inverse: bool) -> Result<u32, NoMemory>
    requires none { net.old.boxes ≡ [] }
    requires a { a < length net.old.cells }
    requires room { length net.old.cells + 1 < 2 ^ 32 }
    ensures extends { OnOk result (Extends net.old net.new 1) }
    ensures gives { IfOk result (λ place. Gives net.new place (λ x. xor inverse (bit net.old x a))) }
{
    net.keeps_its_order();
    if inverse {
        add_not(net, index, a)
    } else {
        Ok(a)
    }
}

/// Inverters of the operands move to the output, where two cancel.
pub(crate) fn add_xor(net: &mut Net, index: &mut Index, a: u32, b: u32) -> Result<u32, NoMemory>
    requires none { net.old.boxes ≡ [] }
    requires a { a < length net.old.cells }
    requires b { b < length net.old.cells }
    requires room { length net.old.cells + 2 < 2 ^ 32 }
    ensures extends { OnOk result (Extends net.old net.new 2) }
    ensures gives { IfOk result (λ place. Gives net.new place (λ x. xor (bit net.old x a) (bit net.old x b))) }
{
    bits();
    let one = without_inverter(net, a);
    let other = without_inverter(net, b);
    let plain = add_plain_xor(net, index, one.place, other.place)?;
    let place = add_signed(net, index, plain, one.inverted != other.inverted)?;
    Ok(place)
}
