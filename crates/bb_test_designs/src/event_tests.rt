//! Events of a register with an enable, worked out by hand.

ghost use Rattle.std.specs.Prelude.{◌≡◌, ◌<◌, [], ◌∷◌, length, map, IfOk, IfSome};
ghost use Rattle.bb_unroll.specs.Events.{CanBeUnrolled};

use crate::bits::outputs;
use bb_bits::{Name, NoMemory};
use bb_net::{Cell, Flat, Net, Reg};
use bb_unroll::violation;
use std::alloc::Global;
use std::process::Abort;
use std::test::Fail;

// Names of one byte each.
fn names(alloc: Global, text: &[u8]) -> Result<Vec<Name>, NoMemory>
    ensures names { IfOk result (λ names. names.items ≡ map (λ byte. byte ∷ []) text.now) }
{
    let mut names = Vec::new(alloc);
    for byte in text {
        names.push(Name::of(alloc, &[*byte])?)?;
    }
    Ok(names)
}

// The inputs c, e and d are at places 2 to 4, the state q at 5, and the next state, e ? d : q, at 6.
fn register(alloc: Global, falling: bool) -> Result<Flat, NoMemory>
    ensures can { IfOk result CanBeUnrolled }
    ensures ports { IfOk result (λ flat. length flat.ins ≡ 3) }
    ensures inputs { IfOk result (λ flat. flat.net.inputs ≡ 4) }
    ensures cells { IfOk result (λ flat. length flat.net.cells ≡ 7) }
{
    let mut net = Net::start(alloc, 4)?;
    let next = net.push(Cell::Mux(3, 4, 5))?;
    net.add_out(5)?;
    net.add_out(next)?;
    let mut regs = Vec::new(alloc);
    regs.push(Reg {
        text: Name::of(alloc, b"q")?,
        falling,
        clock: Some(0),
    })?;
    let ins = names(alloc, b"ced")?;
    let outs = names(alloc, b"q")?;
    net.keeps_its_order();
    Ok(Flat::of(net, ins, regs, outs, Vec::new(alloc)))
}

fn expect_all<R: Abort>(
    rt: &R,
    alloc: Global,
    falling: bool,
    invariant: u32,
    care: Option<u32>,
    rows: &str,
) -> Result<(), Fail>
    requires invariant { invariant < 7 }
    requires care { IfSome care (λ c. c < 7) }
{
    let flat = register(alloc, falling)?;
    let net = violation(alloc, &flat, invariant, care)?;
    for row in rows.lines() {
        let (event, expected) = row.split_once(": ").unwrap_or((row, ""));
        let found = outputs(rt, alloc, &net, &[], event)?;
        assert_eq!(rt; found.as_str(), expected, "{row}");
    }
    Ok(())
}

// The bits of an event: c, e, d and q as it comes, c, e and d after it, which of them rise, and which fall. Then
// whether q is 1 as it comes and 0 after it.
const RISING: &str = "\
0101 000 100 000: 1
0111 000 100 000: 0
0001 000 100 000: 0
0100 000 100 000: 0
0101 111 000 000: 0
0101 000 010 000: 0
0101 000 000 100: 0
0101 000 100 100: 1";

const FALLING: &str = "\
0101 000 100 000: 0
0101 000 000 100: 1
0111 000 000 100: 0
0101 000 000 010: 0
0101 000 100 100: 0";

#[test]
fn a_register_with_an_enable(rt: HostRuntime) -> Result<(), Fail> {
    expect_all(&rt, rt.alloc(), false, 5, None, RISING)?;
    expect_all(&rt, rt.alloc(), true, 5, None, FALLING)
}

// The same for the next state, where the enable is 1 as the event comes.
const NEXT: &str = "\
0110 110 000 000: 1
0110 111 000 000: 0
0110 101 000 000: 1
0110 101 100 000: 0
0011 100 100 000: 0
0001 110 000 000: 0
0111 000 100 000: 0";

#[test]
fn a_next_state_with_a_care_cell(rt: HostRuntime) -> Result<(), Fail> {
    expect_all(&rt, rt.alloc(), false, 6, Some(3), NEXT)
}
