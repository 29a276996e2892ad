//! The first state, and the model of the last. The model needs no search of its own: the loop ends when every clause is
//! true under the values so far, so unassigned variables may have any bit.

ghost use Rattle.std.specs.Prelude.{ℕ, ◌≡◌, ◌+◌, ◌-◌, ◌<◌, ◌≤◌, Bool, true, false, not, Some, None, length, map};
ghost use Rattle.std.specs.Prelude.{replicate, get_or, All, IfOk, List};
ghost use Rattle.bb_cnf.specs.Clauses.{HasVariablesWithin};
ghost use Rattle.bb_cnf.specs.declared.clauses.Lit.{Lit as Literal};
ghost use Rattle.bb_cnf.specs.Truth.{assignment_of, Satisfies};
ghost use Rattle.bb_cdcl.specs.Inside.Events.{IsSatisfied};
ghost use Rattle.bb_cdcl.specs.Inside.States.{IsDerived, IsReady};

use crate::NoMemory;
use crate::state::State;
use crate::trail::Trail;
use bb_cnf::PartialResolvent;
use std::alloc::Global;

/// Values have a place 0 that no variable uses.
pub(crate) fn start(alloc: Global, vars: u32) -> Result<State, NoMemory>
    ensures derived { IfOk result (λ s. (given : List (List Literal)) → IsDerived given s) }
    ensures ready { IfOk result IsReady }
    ensures values { IfOk result (λ s. length s.trail.values.items ≡ vars + 1) }
{
    let values = vec![in alloc; None; vars as usize + 1]?;
    Ok(State {
        learned: Vec::new(alloc),
        steps: Vec::new(alloc),
        trail: Trail {
            entries: Vec::with_capacity(alloc, vars as usize)?,
            values,
        },
        resolvent: PartialResolvent::new(alloc),
    })
}

/// Variables that no clause mentions may be unassigned; they become 0.
pub(crate) fn model(alloc: Global, values: &[Option<bool>]) -> Result<Vec<bool>, NoMemory>
    requires { 0 < length values.now }
    ensures length { IfOk result (λ bits. length bits.items + 1 ≡ length values.now) }
    ensures satisfies { IfOk result (λ bits. (clauses : List (List Literal))
        → HasVariablesWithin (length values.now - 1) clauses → All (IsSatisfied values.now) clauses
        → Satisfies (assignment_of bits.items) clauses) }
{
    let values = &values[1..];
    let mut bits = Vec::with_capacity(alloc, values.len())?;
    for value in values {
        bits.push(value.unwrap_or(false))?;
    }
    Ok(bits)
}
