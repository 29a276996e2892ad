//! Inverters are cells here, not signs on edges as in an AIG: the netlist type has no signed edges. These look-ups
//! recover the sign.

ghost use Rattle.std.specs.Prelude.{◌≡◌, ◌≢◌, ◌⊎◌, ◌<◌, [], true, length, Bool, List, IfSome};
ghost use Rattle.bb_net.specs.Netlists.{IsNetlist, cell_at};
ghost use Rattle.bb_net.specs.Values.{xor};
ghost use Rattle.bb_strash.specs.Inside.Extensions.{bit};

use crate::bit_laws::bits;
use bb_net::{Cell, Net};

pub(crate) fn inverted(net: &Net, a: u32) -> Option<u32>
    requires there { a < length net.now.cells }
    ensures { IfSome result (λ b. cell_at net.now.cells a ≡ Cell.Not b) }
{
    match net.cells()[a as usize] {
        Cell::Not(b) => Some(b),
        _ => None,
    }
}

/// Looks one inverter deep, which is enough: no inverter of an inverter is made.
pub(crate) fn are_complements(net: &Net, a: u32, b: u32) -> bool
    requires a { a < length net.now.cells }
    requires b { b < length net.now.cells }
    ensures { result ≡ true → (cell_at net.now.cells a ≡ Cell.Not b) ⊎ (cell_at net.now.cells b ≡ Cell.Not a) }
{
    inverted(net, a) == Some(b) || inverted(net, b) == Some(a)
}

#[derive(Clone, Copy, Debug)]
pub(crate) struct Signed {
    pub place: u32,
    pub inverted: bool,
}

/// The constant 1 counts as 0 inverted, so folding needs only the constant 0.
pub(crate) fn without_inverter(net: &Net, a: u32) -> Signed
    requires none { net.now.boxes ≡ [] }
    requires there { a < length net.now.cells }
    ensures there { result.place < length net.now.cells }
    ensures kept { IsNetlist net.now }
    ensures same { (x : List Bool) → bit net.now x a ≡ xor result.inverted (bit net.now x result.place) }
    ensures plain { result.place ≢ 1 }
{
    bits();
    net.keeps_its_order();
    if a == 1 {
        return Signed {
            place: 0,
            inverted: true,
        };
    }
    match inverted(net, a) {
        Some(1) | None => Signed {
            place: a,
            inverted: false,
        },
        Some(b) => Signed {
            place: b,
            inverted: true,
        },
    }
}
