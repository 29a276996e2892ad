//! Texts in the DIMACS format with their clauses or faults, worked out by hand. A report shows the fault of a text and
//! never its clauses, so these are compared here.

use crate::tables::{halves, is_row, with_breaks};
use bb_cnf::Lit;
use bb_rup::{additions, dimacs};
use smallvec::SmallVec;
use std::alloc::{AllocError, Global};
use std::process::Abort;
use std::test::Fail;

// Signed numbers with a 0 after each clause, as in the format.
fn print_clauses(out: &mut String, clauses: &[SmallVec<Lit, 4>]) -> Result<(), AllocError> {
    for clause in clauses {
        for lit in clause.as_slice() {
            let sign = if lit.neg { "-" } else { "" };
            write!(out, " {sign}{}", lit.var)?;
        }
        out.push_str(" 0")?;
    }
    Ok(())
}

// A formula as its number of variables and its clauses; additions are read over two variables.
fn printed(rt: &impl Abort, alloc: Global, text: &[u8], formula: bool) -> Result<String, Fail> {
    assert!(rt; text.len() <= 33_554_432);
    let mut out = String::new(alloc);
    let fault = if formula {
        match dimacs(alloc, text) {
            Ok(cnf) => {
                write!(out, "{}:", cnf.vars)?;
                print_clauses(&mut out, &cnf.clauses)?;
                return Ok(out);
            }
            Err(fault) => fault,
        }
    } else {
        match additions(alloc, text, 2) {
            Ok(adds) => {
                out.push_str(":")?;
                print_clauses(&mut out, &adds)?;
                return Ok(out);
            }
            Err(fault) => fault,
        }
    };
    write!(out, "{fault:?}")?;
    Ok(out)
}

const FORMULAS: &str = "\
p cnf 2 3\\n1 0\\n-1 2 0\\n-2 0 => 2: 1 0 -1 2 0 -2 0
p cnf 2 4\\n1 2 0\\n-1 2 0\\n1 -2 0\\n-1 -2 0 => 2: 1 2 0 -1 2 0 1 -2 0 -1 -2 0
c x\\np cnf 2 4\\n1 2 0 => Count
p cnf 1 1\\n1 x 0 => Token { line: 2 }

// the header: its place, its numbers, and the line that is reported
 => Header { line: 1 }
c x => Header { line: 1 }
p\\ncnf 2 3 => Header { line: 1 }
\\n p cnf 2 => Header { line: 2 }
\\n\\np dnf 2 1\\n3 x => Header { line: 3 }
1 0 => Header { line: 1 }
p cnf 8000001 0 => Header { line: 1 }
p cnf 1 8000001 => Header { line: 1 }
p cnf -1 0 => Header { line: 1 }
p cnf 8000000 1\\n-8000000 0 => 8000000: -8000000 0
p cnf 0000000002 01\\n007 0 => Literal { line: 2 }
p cnf 0000000007 01\\n007 0 => 7: 7 0
p cnf 00000000007 1\\n7 0 => Header { line: 1 }
p cnf 0 1\\n0 => 0: 0
p cnf 0 0 => 0:
p cnf\\n2 1 1\\n 2\\n0 c => Token { line: 4 }
p\\n cnf\\n2 1 1 => Header { line: 1 }

// literals
p cnf 2 1\\n+1 0 => Token { line: 2 }
p cnf 2 1\\n-0 0 => Token { line: 2 }
p cnf 2 1\\n00 0 => Token { line: 2 }
p cnf 2 1\\n- 1 0 => Token { line: 2 }
p cnf 2 1\\n--1 0 => Token { line: 2 }
p cnf 2 1\\n1- 0 => Token { line: 2 }
p cnf 2 1\\n00000000001 0 => Token { line: 2 }
p cnf 2 1\\n9999999999 0 => Literal { line: 2 }
p cnf 2 1\\n-3 x 0 => Literal { line: 2 }
p cnf 2 1\\nx 3 0 => Token { line: 2 }
p cnf 2 1\\nd 1 0 => Token { line: 2 }
p cnf 2 1\\n1 0 c x => Token { line: 2 }
p cnf 2 1\\n1 0\\n c x 7\\n => 2: 1 0
p cnf 2 1\\n1 0\\n% => Token { line: 3 }
p cnf 2 2\\n1 1 0 -1 -1 0 => 2: 1 1 0 -1 -1 0

// the end
p cnf 2 2\\n1 0 2 => Unclosed
p cnf 2 2\\n1 0 3 => Literal { line: 2 }
p cnf 2 2\\n1 0 => Count
p cnf 2 2\\n1 0 2 0 0 => Count";

const ADDITIONS: &str = "\
 => :
2 0\\nd 1 2 0\\n0 => : 2 0 0
3 0 => Literal { line: 1 }
cd 1 0 => :
d => Unclosed
d 0 => :
d 1 -2 0 -1 0 => : -1 0
d d 0 => Token { line: 1 }
1 d 0 => Token { line: 1 }
d 3 0 => Literal { line: 1 }
\\nd x 0 => Token { line: 2 }
1 0\\n2 => Unclosed
p cnf 2 1 => Token { line: 1 }
a\u{1}\u{2} => Token { line: 1 }
0 0 0 => : 0 0 0";

// Compares each row of a table.
fn rows(rt: &impl Abort, alloc: Global, table: &str, formula: bool) -> Result<(), Fail> {
    for line in table.lines() {
        if is_row(line) {
            let (written, expected) = halves(line);
            let text = with_breaks(alloc, written)?;
            let found = printed(rt, alloc, text.as_bytes(), formula)?;
            assert_eq!(rt; found.as_str(), expected, "{line}");
        }
    }
    Ok(())
}

#[test]
fn formulas_and_additions_are_read(rt: HostRuntime) -> Result<(), Fail> {
    rows(&rt, rt.alloc(), FORMULAS, true)?;
    rows(&rt, rt.alloc(), ADDITIONS, false)?;
    // A carriage return ends no line.
    let comment = printed(&rt, rt.alloc(), b"c x\rp cnf 1 1\r1 0", true)?;
    assert_eq!(rt; comment.as_str(), "Header { line: 1 }");
    let formula = printed(&rt, rt.alloc(), b"p cnf 1 2\r1 0\r-1 0", true)?;
    assert_eq!(rt; formula.as_str(), "1: 1 0 -1 0");
    Ok(())
}
