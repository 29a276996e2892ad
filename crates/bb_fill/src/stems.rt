//! The stem of names of inner nets: a run of `_` one longer than any with which a port or a register begins. So inner
//! names are apart from all others without a look-up, and the same netlist always gets the same names.

ghost use Rattle.std.specs.Prelude.{◌≡◌, ◌<◌, ◌^◌, max, map, replicate};
ghost use Rattle.bb_fill.specs.Words.{maximum, leading, stem_of};

use bb_bits::Name;
use bb_net::{Flat, Reg};

fn leading(name: &Name) -> usize
    ensures leading { result ≡ leading name.now }
    ensures few { result < 2 ^ 63 }
{
    let bytes = name.bytes();
    for (i, byte) in bytes.iter().enumerate() {
        if *byte != b'_' {
            return i;
        }
    }
    bytes.len()
}

fn most_of(most: usize, names: &[Name]) -> usize
    requires few { most < 2 ^ 63 }
    ensures most { result ≡ max most (maximum (map leading names.now)) }
    ensures few { result < 2 ^ 63 }
{
    let mut most = most;
    for name in names {
        most = most.max(leading(name));
    }
    most
}

fn most_of_registers(most: usize, regs: &[Reg]) -> usize
    requires few { most < 2 ^ 63 }
    ensures most { result ≡ max most (maximum (map (λ r. leading r.text) regs.now)) }
    ensures few { result < 2 ^ 63 }
{
    let mut most = most;
    for reg in regs {
        most = most.max(leading(&reg.text));
    }
    most
}

/// At least 1, since a net's name may not begin with a digit.
pub(crate) fn stem_length(flat: &Flat) -> usize
    ensures stem { replicate result 95 ≡ stem_of flat.now }
{
    let most = most_of(0, flat.ins());
    let most = most_of_registers(most, flat.regs());
    most_of(most, flat.outs()) + 1
}
