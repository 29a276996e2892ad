//! Two designs as a pair: names and their order, worked out by hand. Why two designs are refused is in rows of
//! bb_test_cases.

use crate::designs::{DESIGNS, text_in};
use crate::printing::{flat_of, print_name, print_names};
use bb_match::pair;
use bb_net::{OutName, Pair};
use std::alloc::{AllocError, Global};
use std::process::Abort;
use std::test::Fail;

fn print_outs(out: &mut String, outs: &[OutName]) -> Result<(), AllocError> {
    for name in outs {
        out.push_str(if name.next { " next " } else { " " })?;
        print_name(out, &name.text)?;
    }
    Ok(())
}

fn print_boxes(out: &mut String, pair: &Pair) -> Result<(), AllocError> {
    for (of, kind) in pair.boxes().iter().zip(pair.kinds()) {
        out.push_str(" box ")?;
        print_name(out, of.path())?;
        write!(out, " {kind}")?;
    }
    Ok(())
}

// Inputs, outputs and next states, boxes with their sharing classes.
fn names(alloc: Global, pair: &Pair) -> Result<String, AllocError> {
    let mut out = String::from_str(alloc, "in")?;
    print_names(&mut out, pair.ins())?;
    out.push_str(" out")?;
    print_outs(&mut out, pair.outs())?;
    print_boxes(&mut out, pair)?;
    Ok(out)
}

fn text_of(word: &str) -> &str {
    match word {
        "COPY" => "module s(a, y); input a; output y; buf(y, a); endmodule",
        "BOX" => {
            "module t(a, y); input a; output y; bx u(a, y); endmodule module bx(i, o); input i; output o; endmodule"
        }
        "RISING" => {
            "module s(c, d, y); input c, d; output y; reg q; always @(posedge c) q <= d; buf(y, q); endmodule"
        }
        _ => text_in(DESIGNS, word).unwrap_or(word),
    }
}

// Options before a colon, a specification and an implementation, and the names.
const PAIRS: &str = "\
: COPY / COPY => in a out y
: COPY / BOX => in a out y box u 0
: COPY / CHAINED => in a out y box u2 0 box u1 1
: RISING / RISING => in c d q out y next q
: WRITTEN / SYNTHESIZED => in clk d[1] d[0] u1.q[1] u1.q[0] out y next u1.q[1] next u1.q[0] box h 0
// The order is that of the specification.
: module s(a, y, b, z); input a, b; output y, z; reg p, q; always @(posedge a) p <= b; always @(posedge a) q <= a; \
    and(y, p, q); or(z, a, b); endmodule / module t(z, b, a, y); output z, y; input b, a; reg q; reg p; always \
    @(posedge a) p <= b; always @(posedge a) q <= a; and(y, p, q); or(z, a, b); endmodule => in a b p q out y z next p \
    next q
// A bus and its bits under escaped names.
: module s(a, y); input [1:0] a; output y; and(y, a[1], a[0]); endmodule / module t(\\a[0] , \\a[1] , y); input \\a[0] \
    , \\a[1] ; output y; and(y, \\a[0] , \\a[1] ); endmodule => in a[1] a[0] out y
// A clock over copies is the same clock.
: RISING / module t(d,c,y); input c,d; output y; reg q; buf(e,c); assign f = ~~e; always @(posedge f) q <= d; \
    buf(y,q); endmodule => in c d q out y next q
shared: RISING / module t(d,c,y); input c,d; output y; reg q; buf(e,c); assign f = ~~e; always @(posedge f) q <= d; \
    buf(y,q); endmodule => in c d q out y next q
// Boxes of one module may be of one kind.
shared: COPY / BOX => in a out y box u 0
shared: COPY / CHAINED => in a out y box u2 0 box u1 0
// Two modules, one of which comes again after the other.
shared: module s(a, x, y, z); input a; output x, y, z; buf(x, a); buf(y, a); buf(z, a); endmodule / module t(a, x, y, \
    z); input a; output x, y, z; bx u(a, x); by v(a, y); bx w(a, z); endmodule module bx(i, o); input i; output o; \
    endmodule module by(i, o); input i; output o; endmodule => in a out x y z box u 0 box v 1 box w 0
// A care output is left out.
care k: module s(a, k, y); input a; output k, y; buf(y, a); not(k, a); endmodule / COPY => in a out y
care k: module s(a, y, k); input a; output y, k; buf(y, a); not(k, a); endmodule / BOX => in a out y box u 0
// It is the only output.
care k: module s(a, k); input a; output k; buf(k, a); endmodule / module t(a); input a; endmodule => in a out
// A register of its name stays one.
care k: module s(c, k); input c; output k; reg k; always @(posedge c) k <= c; endmodule / module t(c); input c; reg k; \
    always @(posedge c) k <= c; endmodule => in c k out next k";

fn pair_of<R: Abort>(rt: &R, alloc: Global, options: &str, texts: &str) -> Result<Pair, Fail> {
    let (spec, imp) = texts.split_once(" / ").unwrap_or((texts, ""));
    let spec = flat_of(rt, alloc, text_of(spec).as_bytes(), None)?;
    let imp = flat_of(rt, alloc, text_of(imp).as_bytes(), None)?;
    let care = options.strip_prefix("care ").map(|text| text.as_bytes());
    Ok(pair(alloc, spec, imp, care, options == "shared")?)
}

fn expect_row<R: Abort>(rt: &R, alloc: Global, line: &str) -> Result<(), Fail> {
    let (row, expected) = line.split_once(" => ").unwrap_or((line, ""));
    let (options, texts) = row.split_once(": ").unwrap_or((row, ""));
    let pair = pair_of(rt, alloc, options, texts)?;
    assert_eq!(rt; names(alloc, &pair)?.as_str(), expected, "{row}");
    Ok(())
}

#[test]
fn names_of_pairs(rt: HostRuntime) -> Result<(), Fail> {
    for line in PAIRS.lines() {
        if !line.starts_with("//") {
            expect_row(&rt, rt.alloc(), line)?;
        }
    }
    Ok(())
}
