//! Steps leave the solver here, renumbered once. Each was kept with the numbers of its time, since renumbering all
//! steps each time that given clauses come would cost their whole length again and again.

ghost use Rattle.std.specs.Prelude.{◌≤◌, length, IfOk};
ghost use Rattle.bb_cnf.specs.Clauses.{lists_of};
ghost use Rattle.bb_cnf.specs.Chains.{IsRefutation};
ghost use Rattle.bb_cdcl.specs.Inside.Outcomes.{Derive};
ghost use Rattle.bb_cdcl.specs.Inside.States.{IsDerived, Refutes};

use crate::NoMemory;
use crate::numbers::steps_of;
use crate::state::State;
use bb_cnf::{Lit, Refutation, Step};
use smallvec::SmallVec;
use std::alloc::Global;

pub(crate) fn refutation(
    alloc: Global,
    given: &[SmallVec<Lit, 4>],
    s: State,
) -> Result<Refutation, NoMemory>
    requires { Refutes (lists_of given.now) s }
    ensures { IfOk result (λ refutation. IsRefutation (lists_of given.now) refutation.steps.items) }
{
    let steps = steps_of(alloc, s.steps, given.len())?;
    Ok(Refutation { steps })
}

pub(crate) fn spent(
    alloc: Global,
    given: &[SmallVec<Lit, 4>],
    s: State,
) -> Result<Vec<Step>, NoMemory>
    requires { IsDerived (lists_of given.now) s }
    ensures enough { IfOk result (λ steps. length s.learned.items ≤ length steps.items) }
    ensures derive { IfOk result (λ steps. Derive (lists_of given.now) steps.items) }
{
    let steps = steps_of(alloc, s.steps, given.len())?;
    Ok(steps)
}
