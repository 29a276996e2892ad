//! Normal forms of multiplexers. A mux with a constant branch becomes an and or an or, so that it shares nodes with
//! gates; the others stay muxes.

ghost use Rattle.std.specs.Prelude.{◌≡◌, ◌+◌, ◌<◌, ◌^◌, ◌&&◌, ◌||◌, not, if◌then◌else◌, [], length, IfOk, OnOk};
ghost use Rattle.bb_strash.specs.Inside.Extensions.{bit, Extends, Gives};

use crate::bit_laws::bits;
use crate::gates::{add_and, add_not, add_or};
use crate::inverters::without_inverter;
use crate::key::Index;
use crate::places::place_of_gate;
use bb_bits::NoMemory;
use bb_net::{Cell, Net};

fn add_below(net: &mut Net, index: &mut Index, c: u32, e: u32) -> Result<u32, NoMemory>
    requires none { net.old.boxes ≡ [] }
    requires c { c < length net.old.cells }
    requires e { e < length net.old.cells }
    requires room { length net.old.cells + 5 < 2 ^ 32 }
    ensures extends { OnOk result (Extends net.old net.new 5) }
    ensures gives { IfOk result (λ place. Gives net.new place (λ x. not (bit net.old x c) && bit net.old x e)) }
{
    bits();
    let not_c = add_not(net, index, c)?;
    let place = add_and(net, index, not_c, e)?;
    Ok(place)
}

fn add_implies(net: &mut Net, index: &mut Index, c: u32, t: u32) -> Result<u32, NoMemory>
    requires none { net.old.boxes ≡ [] }
    requires c { c < length net.old.cells }
    requires t { t < length net.old.cells }
    requires room { length net.old.cells + 5 < 2 ^ 32 }
    ensures extends { OnOk result (Extends net.old net.new 5) }
    ensures gives { IfOk result (λ place. Gives net.new place (λ x. not (bit net.old x c) || bit net.old x t)) }
{
    bits();
    let not_c = add_not(net, index, c)?;
    let place = add_or(net, index, not_c, t)?;
    Ok(place)
}

// `c` is no inverter. Constant branches become gates of two operands.
fn add_plain_mux(net: &mut Net, index: &mut Index, c: u32, t: u32, e: u32) -> Result<u32, NoMemory>
    requires none { net.old.boxes ≡ [] }
    requires c { c < length net.old.cells }
    requires t { t < length net.old.cells }
    requires e { e < length net.old.cells }
    requires room { length net.old.cells + 5 < 2 ^ 32 }
    ensures extends { OnOk result (Extends net.old net.new 5) }
    ensures gives { IfOk result (λ place. Gives net.new place (λ x.
        if bit net.old x c then bit net.old x t else bit net.old x e)) }
{
    bits();
    net.keeps_its_order();
    if c == 0 {
        return Ok(e);
    }
    if e == 0 {
        return add_and(net, index, c, t);
    }
    if t == 1 {
        return add_or(net, index, c, e);
    }
    if t == 0 {
        return add_below(net, index, c, e);
    }
    if e == 1 {
        return add_implies(net, index, c, t);
    }
    place_of_gate(net, index, Cell::Mux(c, t, e))
}

/// An inverted condition swaps the branches, so `c ? t : e` and `!c ? e : t` are one gate.
pub(crate) fn add_mux(
    net: &mut Net,
    index: &mut Index,
    c: u32,
    t: u32,
    e: u32,
) -> Result<u32, NoMemory>
    requires none { net.old.boxes ≡ [] }
    requires c { c < length net.old.cells }
    requires t { t < length net.old.cells }
    requires e { e < length net.old.cells }
    requires room { length net.old.cells + 5 < 2 ^ 32 }
    ensures extends { OnOk result (Extends net.old net.new 5) }
    ensures gives { IfOk result (λ place. Gives net.new place (λ x.
        if bit net.old x c then bit net.old x t else bit net.old x e)) }
{
    bits();
    net.keeps_its_order();
    if t == e {
        return Ok(t);
    }
    let choice = without_inverter(net, c);
    if choice.inverted {
        add_plain_mux(net, index, choice.place, e, t)
    } else {
        add_plain_mux(net, index, choice.place, t, e)
    }
}
