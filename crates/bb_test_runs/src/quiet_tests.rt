//! The top call over files and a sink that never fail. The sink keeps nothing, so a row has only the length of the
//! report.

use crate::in_memory::{held, words};
use bb_ladder::run_quietly;
use bb_outside::{QuietFiles, QuietSink};
use std::alloc::Global;
use std::process::Abort;
use std::test::Fail;

const ADDER: &str =
    "module s(a,b,c,s,co); input a,b,c; output s,co; xor(s,a,b,c); assign co = a & b | a & c | b & c; endmodule";

const HOLE: &str =
    "module t(a,b,c,s,co); input a,b,c; output s,co; fa u(a,b,c,s,co); endmodule module fa(a,b,c,s,o); input a,b,c; \
        output s,o; endmodule";

const COPIES: &str =
    "module s(a,b,y1,y2); input a,b; output y1,y2; buf(y1,a); buf(y2,a); endmodule";

const TWO_BOXES: &str =
    "module t(a,b,y1,y2); input a,b; output y1,y2; bx u1(a,y1); bx u2(b,y2); endmodule module bx(i,o); input i; output \
        o; endmodule";

const CLAUSES: &str = "p cnf 2 4\n1 2 0\n-1 2 0\n1 -2 0\n-1 -2 0\n";

// Each row has the words, the two texts, the status, and the report, of which the sink has only the length.
const VERDICTS: [(&str, &str, &str, u8, &str); 7] = [
    (
        "bbeq s.v i.v",
        ADDER,
        HOLE,
        0,
        "rung ternary none\nrung symbolic none\nrung local none\nrung output none\nrung input repair\ntable u s \
            01101001\ntable u o 00010111\nverdict repairable\n",
    ),
    (
        "bbeq s.v i.v",
        COPIES,
        TWO_BOXES,
        1,
        "rung ternary none\nrung symbolic none\nrung local none\nrung output none\nrung input none\nrung expand \
            error\nverdict error\n",
    ),
    (
        "bbeq s.v i.v --clauses 1",
        COPIES,
        TWO_BOXES,
        3,
        "rung ternary none\nrung symbolic none\nrung local none\nrung output none\nrung input none\nrung expand \
            clauses\nverdict open\n",
    ),
    (
        "bbeq other.v i.v",
        COPIES,
        TWO_BOXES,
        2,
        "refused spec notop\n",
    ),
    ("bbeq s.v", COPIES, TWO_BOXES, 2, "refused usage\n"),
    (
        "bbeq s.v i.v --rup",
        CLAUSES,
        "2 0\nd 1 2 0\n0\n",
        0,
        "rup yes\n",
    ),
    ("bbeq s.v i.v --rup", CLAUSES, "", 1, "rup no 1\n"),
];

fn expect_length<R: Abort>(
    rt: &R,
    alloc: Global,
    line: &str,
    texts: (&str, &str),
    want: (u8, &str),
) -> Result<(), Fail> {
    let texts = [("s.v", texts.0.as_bytes()), ("i.v", texts.1.as_bytes())];
    let mut files = QuietFiles::new(held(alloc, &texts)?);
    let mut sink = QuietSink::new();
    let found = run_quietly(alloc, &words(alloc, line)?, &mut files, &mut sink);
    assert_eq!(rt; found, want.0, "{line}");
    assert_eq!(rt; sink.taken(), want.1.len() as u64, "{line}");
    Ok(())
}

#[test]
fn verdicts_come_without_a_report(rt: HostRuntime) -> Result<(), Fail> {
    for (line, spec, imp, status, report) in VERDICTS {
        expect_length(&rt, rt.alloc(), line, (spec, imp), (status, report))?;
    }
    Ok(())
}
