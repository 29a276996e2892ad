//! Texts and reports that are too long for a row, and a report of which only a part is fixed: which steps a proof has
//! is the solver's choice.

use crate::in_memory::{held, run_over, words};
use bb_ladder::run;
use bb_outside::{MemFiles, MemSink};
use std::alloc::{AllocError, Global};
use std::process::Abort;
use std::str;
use std::test::Fail;

fn long_files(alloc: Global) -> Result<MemFiles, AllocError> {
    let nor = b"module s(a,b,y); input a,b; output y; nor g(y,a,b); endmodule";
    let mut texts = held(alloc, &[("s.v", nor)])?;
    let long = vec![in alloc; b' '; 33_554_433]?;
    texts.push((String::from_str(alloc, "long.v")?, long))?;
    Ok(MemFiles::new(texts, Vec::new(alloc)))
}

fn expect_refusal<R: Abort>(
    rt: &R,
    alloc: Global,
    files: &mut MemFiles,
    line: &str,
    report: &str,
) -> Result<(), Fail> {
    let mut sink = MemSink::new(alloc, Vec::new(alloc));
    sink.reserve(64)?;
    assert_eq!(rt; run(alloc, &words(alloc, line)?, files, &mut sink), 2);
    assert!(rt; sink.bytes() == report.as_bytes(), "{line}");
    Ok(())
}

#[test]
fn long_texts_are_refused(rt: HostRuntime) -> Result<(), Fail> {
    let alloc = rt.alloc();
    let mut files = long_files(alloc)?;
    for (line, report) in [
        ("bbeq long.v s.v", "refused spec toolong\n"),
        ("bbeq s.v long.v", "refused impl toolong\n"),
    ] {
        expect_refusal(&rt, alloc, &mut files, line, report)?;
    }
    Ok(())
}

// A tree over twenty pins has 2^20 - 1 nets, over the bound, while the table has 2^20 rows, within it.
#[test]
fn a_wide_box_is_too_large(rt: HostRuntime) -> Result<(), Fail> {
    let spec = b"module s(a,y); input a; output y; buf(y,a); endmodule";
    let imp =
        b"module t(a,y); input a; output y; bw u(.p({20{a}}),.o(y)); endmodule module bw(p,o); input [19:0] p; output \
            o; endmodule";
    let line = "bbeq s.v i.v --from input --to input --fill";
    let found = run_over(rt.alloc(), line, (spec, imp))?;
    assert_eq!(rt; found.status, 0);
    assert!(rt;
        found
            .report
            .ends_with(b"\nverdict repairable\nfill toolarge\n")
    );
    Ok(())
}

fn lines_with(text: &str, begins: &str) -> u32 {
    let mut count = 0u32;
    for line in text.lines() {
        if line.starts_with(begins) {
            count = count.saturating_add(1);
        }
    }
    count
}

fn expect_proof<R: Abort>(rt: &R, text: &str) {
    assert!(rt; text.starts_with("rung expand error\nvector "));
    assert!(rt; text.contains("\nstep "));
    assert!(rt; text.ends_with("verdict error\n"));
    let (vectors, clauses) = (lines_with(text, "vector "), lines_with(text, "clause "));
    assert!(rt; vectors >= 2);
    assert_eq!(rt; clauses / 14, vectors);
    assert_eq!(rt; clauses % 14, 0);
}

// Vectors, 2 + 2 + 8 + 2 clauses for each, and steps that refute them; which steps is the solver's choice.
#[test]
fn proofs_are_shown(rt: HostRuntime) -> Result<(), Fail> {
    let spec = b"module s(a,b,y1,y2); input a,b; output y1,y2; buf(y1,a); buf(y2,a); endmodule";
    let imp =
        b"module t(a,b,y1,y2); input a,b; output y1,y2; bx u1(a,y1); bx u2(b,y2); endmodule module bx(i,o); input i; \
            output o; endmodule";
    let line = "bbeq s.v i.v --from expand --proof";
    let found = run_over(rt.alloc(), line, (spec, imp))?;
    assert_eq!(rt; found.status, 1);
    expect_proof(&rt, str::from_utf8(&found.report)?);
    Ok(())
}
