//! Vectors at which two netlists without boxes differ, through public calls. Numbers of beads were counted from truth
//! tables.

ghost use Rattle.std.specs.Prelude.{◌≡◌, true};
ghost use Rattle.bb_miter.specs.Inside.Equivalence.{AreComparable};

use crate::bits::digits;
use crate::printing::flat_of;
use bb_miter::{difference, differing_patterns};
use bb_net::{Flat, Net};
use std::alloc::Global;
use std::process::Abort;
use std::test::Fail;

fn are_comparable(spec: &Net, imp: &Net) -> bool
    ensures { result ≡ true → AreComparable spec.now imp.now }
{
    spec.inputs() == imp.inputs()
        && imp.inputs() <= 2048
        && spec.outs().len() == imp.outs().len()
        && spec.boxes().is_empty()
        && imp.boxes().is_empty()
}

// `nodes` is the bound on BDD nodes.
fn by_diagrams(alloc: Global, spec: &Net, imp: &Net, nodes: u32) -> Result<String, Fail> {
    if nodes > 50_000_000 || !are_comparable(spec, imp) {
        return Err(Fail::new("not comparable"));
    }
    match difference(alloc, spec, imp, nodes, 16) {
        Ok(Some(x)) => Ok(digits(alloc, &x)?),
        Ok(None) => Ok(String::from_str(alloc, "none")?),
        Err(fault) => Ok(format!(in alloc; "{fault:?}")?),
    }
}

// `wanted` is how many vectors end the search.
fn by_patterns(alloc: Global, spec: &Net, imp: &Net, wanted: u32) -> Result<String, Fail> {
    if wanted < 1 || !are_comparable(spec, imp) {
        return Err(Fail::new("not comparable"));
    }
    let mut out = String::from_str(alloc, "at")?;
    for x in differing_patterns(alloc, spec, imp, 1, wanted as usize)? {
        out.push(' ')?;
        out.push_str(&digits(alloc, &x)?)?;
    }
    Ok(out)
}

// `item` drives y by a and b.
fn flat(rt: &impl Abort, alloc: Global, item: &str) -> Result<Flat, Fail> {
    let text = format!(in alloc; "module m(a, b, y); input a, b; output y; {item}; endmodule")?;
    flat_of(rt, alloc, text.as_bytes(), None)
}

// Each row has the bound on nodes or the number of vectors, what drives the outputs, and the result.
const NETS: &str = "\
// a conjunction beside the constant 0: the functions have three beads
diagrams 3: and(y, a, b) / assign y = 1'b0 => 11
diagrams 2: and(y, a, b) / assign y = 1'b0 => Nodes
patterns 64: and(y, a, b) / assign y = 1'b0 => at 11
// each vector is reported once
patterns 64: xor(y, a, b) / assign y = 1'b0 => at 10 01
patterns 1: xor(y, a, b) / assign y = 1'b0 => at 10
// by De Morgan's law these are equivalent
diagrams 100: and(y, a, b) / nor(y, ~a, ~b) => none
patterns 64: and(y, a, b) / nor(y, ~a, ~b) => at";

// `items` are what drives the outputs of the two netlists.
fn found<R: Abort>(
    rt: &R,
    alloc: Global,
    by_bdds: bool,
    count: u32,
    items: &str,
) -> Result<String, Fail> {
    let (spec, imp) = items.split_once(" / ").unwrap_or((items, ""));
    let spec = flat(rt, alloc, spec)?;
    let imp = flat(rt, alloc, imp)?;
    if by_bdds {
        by_diagrams(alloc, spec.net(), imp.net(), count)
    } else {
        by_patterns(alloc, spec.net(), imp.net(), count)
    }
}

fn expect_row<R: Abort>(rt: &R, alloc: Global, line: &str) -> Result<(), Fail> {
    let (row, expected) = line.split_once(" => ").unwrap_or((line, ""));
    let (call, items) = row.split_once(": ").unwrap_or((row, ""));
    let (way, count) = call.split_once(" ").unwrap_or((call, ""));
    let count = count.parse::<u32>().unwrap_or(0);
    let found = found(rt, alloc, way == "diagrams", count, items)?;
    assert_eq!(rt; found.as_str(), expected, "{row}");
    Ok(())
}

#[test]
fn vectors_where_netlists_differ(rt: HostRuntime) -> Result<(), Fail> {
    for line in NETS.lines() {
        if !line.starts_with("//") {
            expect_row(&rt, rt.alloc(), line)?;
        }
    }
    Ok(())
}
