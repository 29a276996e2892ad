//! The solver, through public calls. Each refutation is checked, so a row says only that there is one.

ghost use Rattle.std.specs.Prelude.{◌≡◌, ◌≤◌, true, All};

use crate::clause_tests::clauses;
use crate::words::{digits, halves, number};
use bb_cdcl::{Outcome, Solved, Solver, solve};
use bb_cnf::{Cnf, Lit, check};
use smallvec::SmallVec;
use std::alloc::Global;
use std::test::Fail;

// A model by its bits, or `refuted` where the checker accepts the refutation.
fn printed(alloc: Global, vars: u32, lists: Vec<SmallVec<Lit, 4>>) -> Result<String, Fail> {
    let Some(cnf) = Cnf::new(vars, lists) else {
        return Err(Fail::new("no formula"));
    };
    match solve(alloc, &cnf)? {
        Outcome::Sat(bits) => {
            let bits = digits(alloc, &bits)?;
            Ok(format!(in alloc; "model:{}", bits.as_str())?)
        }
        Outcome::Unsat(refutation) => {
            if check(alloc, &cnf, &refutation)? {
                Ok(String::from_str(alloc, "refuted")?)
            } else {
                Err(Fail::new("a refutation that is refused"))
            }
        }
    }
}

fn fits(found: &str, expected: &str) -> bool {
    for (byte, wanted) in found.as_bytes().iter().zip(expected.as_bytes()) {
        if *wanted != b'.' && byte != wanted {
            return false;
        }
    }
    found.len() == expected.len()
}

// The number of variables, a colon, and clauses. A dot stands for a bit that may be either.
const FORMULAS: &str = "\
// unit clauses decide
2: 1 0 -1 2 0 -2 0 => refuted
2: 1 0 -1 2 0 => model:11
// no clauses, empty ones, and literals that are in a clause twice or with both signs
0: => model:
3: => model:...
0: 0 => refuted
2: 1 2 0 0 -1 0 => refuted
1: 1 0 -1 0 => refuted
1: 1 1 0 -1 -1 0 => refuted
1: 1 -1 0 => model:.
2: 1 -1 2 0 -2 -2 0 => model:.0
// three pigeons have no place in two holes: pigeon i sits in hole j where variable 2i + j - 2 is true
6: 1 2 0 3 4 0 5 6 0 -1 -3 0 -1 -5 0 -3 -5 0 -2 -4 0 -2 -6 0 -4 -6 0 => refuted";

// Two chains of clauses i or i + 1, over the variables 1 to 100 and 103 to 202, and between them all four clauses over
// two more.
fn chains(alloc: Global) -> Result<Vec<SmallVec<Lit, 4>>, Fail> {
    let mut all = clauses(alloc, "101 102 0 -101 102 0 101 -102 0 -101 -102 0")?;
    for i in 1..202 {
        if i < 100 || i > 102 {
            let mut lits = SmallVec::new(alloc);
            lits.push(Lit { var: i, neg: false })?;
            lits.push(Lit {
                var: i + 1,
                neg: false,
            })?;
            all.push(lits)?;
        }
    }
    Ok(all)
}

#[test]
fn formulas_have_a_model_or_a_refutation(rt: HostRuntime) -> Result<(), Fail> {
    for line in FORMULAS.lines() {
        if !line.starts_with("//") {
            let (formula, expected) = halves(line);
            let (vars, lists) = formula.split_once(':').unwrap_or((formula, ""));
            let found = printed(rt.alloc(), number(vars, 0), clauses(rt.alloc(), lists)?)?;
            assert!(rt; fits(&found, expected), "{line}");
        }
    }
    // Without learning each assignment of one side or the other would be visited.
    let found = printed(rt.alloc(), 202, chains(rt.alloc())?)?;
    assert_eq!(rt; found.as_str(), "refuted");
    Ok(())
}

fn are_within(lits: &[Lit], vars: u32) -> bool
    ensures { result ≡ true → All (λ l. (1 ≤ l.var) × (l.var ≤ vars)) lits.now }
{
    lits.iter().all(|lit| 1 <= lit.var && lit.var <= vars)
}

// The solver goes on with what it learned.
fn give(solver: &mut Solver, vars: u32, lists: Vec<SmallVec<Lit, 4>>) -> Result<(), Fail> {
    if solver.cnf().vars <= vars {
        solver.raise_vars(vars);
    }
    for list in lists {
        if !are_within(list.as_slice(), solver.cnf().vars) {
            return Err(Fail::new("a variable that is not there"));
        }
        solver.push(list)?;
    }
    Ok(())
}

// After a refutation no solver is left to go on with.
fn go_on(alloc: Global, solver: Solver) -> Result<(String, Option<Solver>), Fail> {
    match solver.solve()? {
        Solved::Sat(bits, solver) => {
            let bits = digits(alloc, &bits)?;
            let said = format!(in alloc; "model:{}", bits.as_str())?;
            Ok((said, Some(solver)))
        }
        Solved::Unsat(cnf, refutation) => {
            if check(alloc, &cnf, &refutation)? {
                let said = String::from_str(alloc, "refuted")?;
                Ok((said, None))
            } else {
                Err(Fail::new("a refutation that is refused"))
            }
        }
    }
}

// What comes in each turn, as above, and what the solver says then.
const ITERATIONS: &str = "\
// two clauses are learned, and the last of them serves in later turns
3: 1 2 3 0 1 -2 3 0 1 2 -3 0 1 -2 -3 0 => model:1..
4: -1 4 0 => model:1..1
5: 5 -2 0 -5 -2 0 -3 2 5 0 => model:10.1.
5: 3 0 => model:10111
5: -4 -1 0 => refuted";

#[test]
fn a_solver_goes_on(rt: HostRuntime) -> Result<(), Fail> {
    let alloc = rt.alloc();
    let Some(none) = Cnf::new(0, Vec::new(alloc)) else {
        return Err(Fail::new("no formula"));
    };
    let mut next = Some(Solver::new(alloc, none)?);
    for line in ITERATIONS.lines() {
        if line.starts_with("//") {
            continue;
        }
        let Some(mut solver) = next else {
            return Err(Fail::new("a turn behind the last"));
        };
        let (formula, expected) = halves(line);
        let (vars, lists) = formula.split_once(':').unwrap_or((formula, ""));
        give(&mut solver, number(vars, 0), clauses(alloc, lists)?)?;
        let (said, rest) = go_on(alloc, solver)?;
        assert!(rt; fits(&said, expected), "{line}");
        next = rest;
    }
    Ok(())
}
