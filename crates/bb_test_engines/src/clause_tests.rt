//! The checker of refutations and the printed lines, through public calls.

use crate::words::{halves, number, word};
use bb_cnf::{Cnf, Lit, Refutation, Step, check, print};
use smallvec::SmallVec;
use std::alloc::Global;
use std::test::Fail;

// Signed numbers with a 0 after each clause, as in the DIMACS format. A 0 of two digits is the variable 0, and ends no
// clause.
pub(crate) fn clauses(alloc: Global, text: &str) -> Result<Vec<SmallVec<Lit, 4>>, Fail> {
    let mut all = Vec::new(alloc);
    let mut lits = SmallVec::new(alloc);
    for word in text.split_whitespace() {
        if word == "0" {
            all.push(lits)?;
            lits = SmallVec::new(alloc);
        } else {
            let (digits, neg) = match word.strip_prefix('-') {
                Some(digits) => (digits, true),
                None => (word, false),
            };
            let var = number(digits, 0);
            lits.push(Lit { var, neg })?;
        }
    }
    Ok(all)
}

// The number of the first clause, then pairs of clause and variable with a stroke between the two.
fn step(alloc: Global, text: &str) -> Result<Step, Fail> {
    let first = word(text, 0).parse::<u64>().unwrap_or(u64::MAX);
    let mut rest = Vec::new(alloc);
    for word in text.split_whitespace() {
        if let Some((clause, var)) = word.split_once('/') {
            let clause = clause.parse::<u64>().unwrap_or(u64::MAX);
            rest.push((clause, number(var, 0)))?;
        }
    }
    Ok(Step { first, rest })
}

fn refutation(alloc: Global, text: &str) -> Result<Refutation, Fail> {
    let mut steps = Vec::new(alloc);
    for part in text.split(',') {
        if !word(part, 0).is_empty() {
            steps.push(step(alloc, part)?)?;
        }
    }
    Ok(Refutation { steps })
}

// Each row has the number of variables, clauses and steps. The bounds are tried: the highest variable is 4,294,967,295,
// and no clause has the number 18,446,744,073,709,551,615.
const STEPS: &str = "\
2: 1 0 -1 2 0 -2 0: 0 1/1 2/2 => accepted
2: 1 0 -1 2 0 -2 0: 0 2/2 1/1 => refused
2: 1 0 -1 2 0 -2 0: 1 0/1 2/2 => accepted
2: 1 0 -1 2 0 -2 0: 0 1/1, 3 2/2 => accepted
2: 1 0 -1 2 0 -2 0: 0 1/1 => refused
2: 1 0 -1 2 0 -2 0: 3 => refused
2: 1 0 -1 2 0 -2 0: 0 3/1 => refused
2: 1 0 -1 2 0 -2 0:  => refused
0: 0: 0 => accepted
1: 1 1 0 -1 -1 0: 0 1/1 => accepted
1: 1 -1 0 1 -1 0: 0 1/1 => refused
1: 1 0 1 0: 0 1/1 => refused
1: 1 0 -1 0: 0 1/0 => refused
1: 1 0 -1 0: 0 1/4294967295 => refused
1: 1 0 -1 0: 0 18446744073709551615/1 => refused
4294967295: 4294967295 0 -4294967295 0: 0 1/4294967295 => accepted";

#[test]
fn steps_are_where_each_resolution_is(rt: HostRuntime) -> Result<(), Fail> {
    for line in STEPS.lines() {
        let (formula, expected) = halves(line);
        let (vars, rest) = formula.split_once(": ").unwrap_or((formula, ""));
        let (lists, steps) = rest.split_once(": ").unwrap_or((rest, ""));
        let Some(cnf) = Cnf::new(number(vars, 0), clauses(rt.alloc(), lists)?) else {
            return Err(Fail::new("no formula"));
        };
        let yes = check(rt.alloc(), &cnf, &refutation(rt.alloc(), steps)?)?;
        let found = if yes { "accepted" } else { "refused" };
        assert_eq!(rt; found, expected, "{line}");
    }
    Ok(())
}

#[test]
fn formulas_are_printed_and_grow(rt: HostRuntime) -> Result<(), Fail> {
    let alloc = rt.alloc();
    let mut text = Vec::new(alloc);
    if let Some(cnf) = Cnf::new(2, clauses(alloc, "1 0 -1 2 0 -2 0")?) {
        print(&cnf, &refutation(alloc, "0 1/1 2/2")?, &mut text)?;
    }
    let want = b"clause 0 1\nclause 1 -1 2\nclause 2 -2\nstep 3 0 1/1 2/2\n";
    assert_eq!(rt; text.as_slice(), want.as_slice());
    // A variable out of range makes no formula.
    assert!(rt; Cnf::new(1, clauses(alloc, "1 0 2 0")?).is_none());
    assert!(rt; Cnf::new(1, clauses(alloc, "00 0")?).is_none());
    let Some(mut cnf) = Cnf::new(1, clauses(alloc, "1 0")?) else {
        return Err(Fail::new("no formula"));
    };
    cnf.raise_vars(2);
    let mut lits = SmallVec::new(alloc);
    lits.push(Lit { var: 2, neg: true })?;
    cnf.push(lits)?;
    assert_eq!(rt; cnf.vars, 2);
    assert_eq!(rt; cnf.clauses.len(), 2);
    Ok(())
}
