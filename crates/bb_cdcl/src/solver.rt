//! The calls on a fixed set of clauses. The clauses are read where the caller holds them and the solver owns only what
//! it learns, so the propagator has the only copies. The bounded call exists because an open search would grow without
//! limit in memory: each learned clause keeps its chain of resolutions.

ghost use Rattle.std.specs.Prelude.{ℕ, ◌≡◌, ◌+◌, ◌≤◌, ◌<◌, ◌↔◌, true, false, length, IfOk};
ghost use Rattle.bb_cnf.specs.Clauses.{lists_of, HasVariablesWithin};
ghost use Rattle.bb_cdcl.specs.Inside.Outcomes.{IfSat, IfUnsat, IsSat, HasModel, formula, IfDecided, IfSpent, Derive};
ghost use Rattle.bb_cdcl.specs.declared.state.State.{State as SolverState};
ghost use Rattle.bb_cdcl.specs.Inside.States.{Ends, Refutes};

use crate::handing_out::{refutation, spent};
use crate::helpers::Helpers;
use crate::resumption::resume;
use crate::search::{search, search_within};
use crate::start::{model, start};
use crate::state::State;
use crate::{Attempt, NoMemory, Outcome};
use bb_cnf::{Cnf, Lit, laws};
use smallvec::SmallVec;
use std::alloc::Global;

fn outcome(
    alloc: Global,
    given: &[SmallVec<Lit, 4>],
    s: State,
    satisfied: bool,
) -> Result<Outcome, NoMemory>
    requires some { satisfied ≡ true → 0 < length s.trail.values.items }
    requires refutes { satisfied ≡ false → Refutes (lists_of given.now) s }
    ensures sat { IfOk result (λ outcome. (vars : ℕ) (old : SolverState) → length old.trail.values.items ≡ vars + 1
        → HasVariablesWithin vars (lists_of given.now) → Ends (lists_of given.now) old s satisfied
        → IfSat outcome (formula vars (lists_of given.now))) }
    ensures unsat { IfOk result (λ outcome. (vars : ℕ) → IfUnsat outcome (formula vars (lists_of given.now))) }
{
    if satisfied {
        let bits = model(alloc, &s.trail.values)?;
        Ok(Outcome::Sat(bits))
    } else {
        let refutation = refutation(alloc, given, s)?;
        Ok(Outcome::Unsat(refutation))
    }
}

fn decide(alloc: Global, vars: u32, given: &[SmallVec<Lit, 4>]) -> Result<Outcome, NoMemory>
    requires { HasVariablesWithin vars (lists_of given.now) }
    ensures sat { IfOk result (λ outcome. IfSat outcome (formula vars (lists_of given.now))) }
    ensures unsat { IfOk result (λ outcome. IfUnsat outcome (formula vars (lists_of given.now))) }
{
    let mut s = start(alloc, vars)?;
    let mut helpers = Helpers::new(alloc, vars, given.len())?;
    resume(given, 0, vars, &mut s, &mut helpers)?;
    let satisfied = search(alloc, given, &mut s, &mut helpers)?;
    let outcome = outcome(alloc, given, s, satisfied)?;
    Ok(outcome)
}

fn decide_within(
    alloc: Global,
    vars: u32,
    given: &[SmallVec<Lit, 4>],
    learned: usize,
) -> Result<Attempt, NoMemory>
    requires { HasVariablesWithin vars (lists_of given.now) }
    ensures sat { IfOk result (λ attempt.
        IfDecided attempt (λ outcome. IfSat outcome (formula vars (lists_of given.now)))) }
    ensures unsat { IfOk result (λ attempt.
        IfDecided attempt (λ outcome. IfUnsat outcome (formula vars (lists_of given.now)))) }
    ensures spent { IfOk result (λ attempt.
        IfSpent attempt (λ steps. (learned ≤ length steps) × Derive (lists_of given.now) steps)) }
{
    let mut s = start(alloc, vars)?;
    let mut helpers = Helpers::new(alloc, vars, given.len())?;
    resume(given, 0, vars, &mut s, &mut helpers)?;
    match search_within(alloc, given, &mut s, &mut helpers, learned)? {
        Some(satisfied) => {
            let outcome = outcome(alloc, given, s, satisfied)?;
            Ok(Attempt::Decided(outcome))
        }
        None => {
            let steps = spent(alloc, given, s)?;
            Ok(Attempt::Spent(steps))
        }
    }
}

/// Decides whether the clauses have a model. The model has the bit of variable 1 first.
pub fn solve(alloc: Global, cnf: &Cnf) -> Result<Outcome, NoMemory>
    ensures sat { IfOk result (λ outcome. IfSat outcome cnf.now) }
    ensures unsat { IfOk result (λ outcome. IfUnsat outcome cnf.now) }
    ensures exact { IfOk result (λ outcome. IsSat outcome ↔ HasModel cnf.now) }
{
    laws::refutations();
    let outcome = decide(alloc, cnf.vars, &cnf.clauses)?;
    Ok(outcome)
}

/// As `solve`, but gives up once at least `conflicts` clauses are learned, and then returns the steps that derive them.
// A conflict adds its learned clause and each unit clause that this one needed, so the count is no exact count of
// conflicts.
pub fn solve_within(alloc: Global, cnf: &Cnf, conflicts: u32) -> Result<Attempt, NoMemory>
    ensures sat { IfOk result (λ attempt. IfDecided attempt (λ outcome. IfSat outcome cnf.now)) }
    ensures unsat { IfOk result (λ attempt. IfDecided attempt (λ outcome. IfUnsat outcome cnf.now)) }
    ensures exact { IfOk result (λ attempt. IfDecided attempt (λ outcome. IsSat outcome ↔ HasModel cnf.now)) }
    ensures spent { IfOk result (λ attempt.
        IfSpent attempt (λ steps. (conflicts ≤ length steps) × Derive cnf.now.clauses steps)) }
{
    laws::refutations();
    let attempt = decide_within(alloc, cnf.vars, &cnf.clauses, conflicts as usize)?;
    Ok(attempt)
}
