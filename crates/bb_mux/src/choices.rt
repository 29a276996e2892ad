//! One node as cells: a multiplexer, or cheaper gates where a branch is a constant. Constants are known by their
//! places, so a look at a branch costs nothing. No index of gates is kept: nodes are distinct, so only inverters of
//! inputs can occur twice, and `bb_strash` shares these where that matters.

ghost use Rattle.std.specs.Prelude.{◌≡◌, ◌+◌, ◌<◌, ◌^◌, ◌&&◌, ◌||◌, not, if◌then◌else◌, [], ℕ, length, IfOk, OnOk};
ghost use Rattle.bb_net.specs.Netlists.{ReadsBefore};
ghost use Rattle.bb_strash.specs.Inside.Extensions.{bit, gate_bit, Extends, Gives};

use bb_bits::NoMemory;
use bb_net::{Cell, Net};
use bb_strash::bits;

/// `cell` is no output of a box.
fn push_gate(net: &mut Net, cell: Cell) -> Result<u32, NoMemory>
    requires none { net.old.boxes ≡ [] }
    requires reads { ReadsBefore net.old.inputs [] (length net.old.cells) cell }
    requires gate { (b p : ℕ) → cell ≡ Cell.BoxOut b p → ⊥ }
    requires room { length net.old.cells + 1 < 2 ^ 32 }
    ensures extends { OnOk result (Extends net.old net.new 1) }
    ensures gives { IfOk result (λ place. Gives net.new place (λ x. gate_bit x (bit net.old x) cell)) }
{
    bits();
    net.keeps_its_order();
    let place = net.push(cell)?;
    net.keeps_its_order();
    Ok(place)
}

/// `e` where `c` is 0, else 0.
fn push_below(net: &mut Net, c: u32, e: u32) -> Result<u32, NoMemory>
    requires none { net.old.boxes ≡ [] }
    requires c { c < length net.old.cells }
    requires e { e < length net.old.cells }
    requires room { length net.old.cells + 2 < 2 ^ 32 }
    ensures extends { OnOk result (Extends net.old net.new 2) }
    ensures gives { IfOk result (λ place. Gives net.new place (λ x. not (bit net.old x c) && bit net.old x e)) }
{
    bits();
    let not_c = push_gate(net, Cell::Not(c))?;
    let place = push_gate(net, Cell::And(not_c, e))?;
    Ok(place)
}

/// `t` where `c` is 1, else 1.
fn push_implies(net: &mut Net, c: u32, t: u32) -> Result<u32, NoMemory>
    requires none { net.old.boxes ≡ [] }
    requires c { c < length net.old.cells }
    requires t { t < length net.old.cells }
    requires room { length net.old.cells + 2 < 2 ^ 32 }
    ensures extends { OnOk result (Extends net.old net.new 2) }
    ensures gives { IfOk result (λ place. Gives net.new place (λ x. not (bit net.old x c) || bit net.old x t)) }
{
    bits();
    let not_c = push_gate(net, Cell::Not(c))?;
    let place = push_gate(net, Cell::Or(not_c, t))?;
    Ok(place)
}

/// `t` where `c` is 1, else `e`. Adds at most two cells.
pub(crate) fn add_choice(net: &mut Net, c: u32, t: u32, e: u32) -> Result<u32, NoMemory>
    requires none { net.old.boxes ≡ [] }
    requires c { c < length net.old.cells }
    requires t { t < length net.old.cells }
    requires e { e < length net.old.cells }
    requires room { length net.old.cells + 2 < 2 ^ 32 }
    ensures extends { OnOk result (Extends net.old net.new 2) }
    ensures gives { IfOk result (λ place. Gives net.new place (λ x.
        if bit net.old x c then bit net.old x t else bit net.old x e)) }
{
    bits();
    net.keeps_its_order();
    match (t, e) {
        (1, 0) => Ok(c),
        (0, 1) => push_gate(net, Cell::Not(c)),
        (_, 0) => push_gate(net, Cell::And(c, t)),
        (1, _) => push_gate(net, Cell::Or(c, e)),
        (0, _) => push_below(net, c, e),
        (_, 1) => push_implies(net, c, t),
        _ => push_gate(net, Cell::Mux(c, t, e)),
    }
}
