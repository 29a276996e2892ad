//! Runs that are stopped: by files and sinks that fail, and by texts that are cut off.

use crate::in_memory::{held, run_over, run_stopped, words};
use crate::outside_tests::expect_reads;
use bb_ladder::run;
use bb_outside::{KeptFiles, MemFiles, QuietSink, Take};
use std::alloc::Global;
use std::process::Abort;
use std::test::Fail;

const BUFFER: &[u8] = b"module s(a,y); input a; output y; buf(y,a); endmodule";

// A full adder, the same as a box, and their report.
const ADDER: &[u8] =
    b"module s(a,b,c,s,co); input a,b,c; output s,co; xor(s,a,b,c); assign co = a & b | a & c | b & c; endmodule";

const HOLE: &[u8] =
    b"module t(a,b,c,s,co); input a,b,c; output s,co; fa u(a,b,c,s,co); endmodule module fa(a,b,c,s,o); input a,b,c; \
        output s,o; endmodule";

const REPAIRED: &str =
    "rung ternary none\nrung symbolic none\nrung local none\nrung output none\nrung input repair\ntable u s \
        01101001\ntable u o 00010111\nverdict repairable\n";

// The input of the second gate comes from a box.
const NOR: &[u8] = b"module s(a,b,y); input a,b; output y; nor g(y,a,b); endmodule";

const AND: &[u8] =
    b"module t(a,b,y); input a,b; output y; wire z; bx u(b,z); and g(y,z,a); endmodule module bx(i,o); input i; output \
        o; endmodule";

const TWO: &str = "bbeq s.v i.v";

// Each row has the words, the two texts, the reads that fail, the plan of the sink, the status and what is written.
const STOPS: [(&str, (&[u8], &[u8]), &[u64], &[Take], u8, &str); 11] = [
    (TWO, (ADDER, HOLE), &[0], &[], 4, "unread spec\n"),
    (TWO, (ADDER, HOLE), &[1], &[], 4, "unread impl\n"),
    (TWO, (ADDER, HOLE), &[], &[Take::Fail], 6, ""),
    (TWO, (ADDER, HOLE), &[], &[Take::Some(1); 40], 0, REPAIRED),
    (
        TWO,
        (ADDER, HOLE),
        &[],
        &[Take::Some(5), Take::Fail],
        6,
        "rung ",
    ),
    (
        "bbeq",
        (ADDER, HOLE),
        &[],
        &[Take::Some(3), Take::Fail],
        6,
        "ref",
    ),
    (TWO, (ADDER, HOLE), &[0], &[Take::Fail], 6, ""),
    (
        TWO,
        (b"", BUFFER),
        &[],
        &[Take::Some(0), Take::Fail],
        6,
        "r",
    ),
    (TWO, (NOR, AND), &[0], &[], 4, "unread spec\n"),
    (TWO, (NOR, AND), &[1], &[], 4, "unread impl\n"),
    (
        TWO,
        (NOR, AND),
        &[],
        &[Take::Some(5), Take::Fail],
        6,
        "rung ",
    ),
];

#[test]
fn what_lies_outside_stops_a_run(rt: HostRuntime) -> Result<(), Fail> {
    for (line, texts, failing, plan, status, report) in STOPS {
        let found = run_stopped(rt.alloc(), line, texts, failing, plan)?;
        assert_eq!(rt; found.status, status, "{report}");
        assert!(rt; found.report.as_slice() == report.as_bytes(), "{report}");
    }
    Ok(())
}

const COPY: &[u8] = b"module t(a,y); input a; output y; buf b(y,a); endmodule";

// The shortest text that is refused for its length.
const LIMIT: u64 = 33_554_433;

// Each row has the reads that fail, the status, and each read with its result: the specification first, and nothing
// after a failure.
const READS: [(&[u64], u8, &[(&str, u64, Option<&[u8]>)]); 3] = [
    (
        &[],
        0,
        &[("s.v", LIMIT, Some(BUFFER)), ("i.v", LIMIT, Some(COPY))],
    ),
    (&[0], 4, &[("s.v", LIMIT, None)]),
    (
        &[1],
        4,
        &[("s.v", LIMIT, Some(BUFFER)), ("i.v", LIMIT, None)],
    ),
];

fn expect_order<R: Abort>(
    rt: &R,
    alloc: Global,
    failing: &[u64],
    status: u8,
    reads: &[(&str, u64, Option<&[u8]>)],
) -> Result<(), Fail> {
    let texts = held(alloc, &[("s.v", BUFFER), ("i.v", COPY)])?;
    let memory = MemFiles::new(texts, failing.to_vec(alloc)?);
    let mut files = KeptFiles::new(alloc, memory);
    let found = run(
        alloc,
        &words(alloc, TWO)?,
        &mut files,
        &mut QuietSink::new(),
    );
    assert_eq!(rt; found, status);
    expect_reads(rt, files.reads(), reads);
    Ok(())
}

#[test]
fn texts_are_read_in_order(rt: HostRuntime) -> Result<(), Fail> {
    for (failing, status, reads) in READS {
        expect_order(&rt, rt.alloc(), failing, status, reads)?;
    }
    Ok(())
}

// A counter of two modules, as RTL has it.
const COUNTER: &[u8] = b"module cnt(clk, d, y);
  input clk; input [1:0] d; output y;
  stage u1(.clk(clk), .d(d), .y(y));
endmodule
module stage(clk, d, y);
  input clk; input [1:0] d; output y;
  reg [1:0] q;
  always @(posedge clk) q <= d ^ q;
  assign y = q[1] & ~q[0];
endmodule
";

// The counter as a synthesis tool writes it, with the function of its output in a box.
const MAPPED: &[u8] = b"`timescale 1ns/1ps
(* top = 1, src = \"a.v:1 *)\" *)
module cnt(clk, d, y);
  input clk; wire clk;
  input [1:0] d; wire [1:0] d;
  output y; wire y;
  reg \\u1.q[1] ;
  reg \\u1.q[0] ;
  wire _0_, _1_;
  always @(posedge clk)
    \\u1.q[1] <= _1_;
  always @(posedge clk)
    \\u1.q[0] <= _0_;
  xor g0(_0_, d[0], \\u1.q[0] );
  xor g1(_1_, d[1], \\u1.q[1] );
  hole h(.i({\\u1.q[1] , \\u1.q[0] }), .o(y));
endmodule
(* blackbox *)
module hole(i, o);
  input [1:0] i;
  output o;
endmodule
";

fn expect_refusal<R: Abort>(
    rt: &R,
    alloc: Global,
    texts: (&[u8], &[u8]),
    begins: &str,
) -> Result<(), Fail> {
    let found = run_over(alloc, TWO, texts)?;
    assert_eq!(rt; found.status, 2);
    assert!(rt; found.report.starts_with(begins.as_bytes()), "{begins}");
    Ok(())
}

#[test]
fn texts_that_are_cut_off_are_refused(rt: HostRuntime) -> Result<(), Fail> {
    let alloc = rt.alloc();
    for end in 0..MAPPED.len() - 1 {
        expect_refusal(&rt, alloc, (COUNTER, &MAPPED[..end]), "refused impl ")?;
    }
    for end in 0..COUNTER.len() - 1 {
        expect_refusal(&rt, alloc, (&COUNTER[..end], MAPPED), "refused spec ")?;
    }
    for (end, line) in [
        (0, "refused impl notop\n"),
        (22, "refused impl token line 2\n"),
        (408, "refused impl unknown line 16 hole\n"),
        (479, "refused impl unended\n"),
    ] {
        expect_refusal(&rt, alloc, (COUNTER, &MAPPED[..end]), line)?;
    }
    Ok(())
}
