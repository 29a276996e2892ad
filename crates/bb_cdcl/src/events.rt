//! What a clause makes the search do next. Both functions examine clauses themselves, so their events hold whatever the
//! propagator found.

ghost use Rattle.std.specs.Prelude.{◌-◌, ◌<◌, length};
ghost use Rattle.bb_cnf.specs.Clauses.{lists_of, HasVariablesWithin};
ghost use Rattle.bb_cdcl.specs.Inside.Events.{Comes, IfQuiet};

use crate::examination::{ClauseStatus, examine};
use bb_cnf::Lit;
use bb_watch::{Clauses, clause_at};
use smallvec::SmallVec;

/// `Free` is a decision. `Quiet` from one clause means that it gives nothing; from all of them, that all are true.
#[derive(Clone, Copy, Debug)]
pub(crate) enum Event {
    Conflict(usize),
    Implied(Lit, usize),
    Free(Lit),
    Quiet,
}

/// A variable out of range gives nothing, so the trail needs no bound from the propagator.
pub(crate) fn event_of(clauses: &Clauses<'_>, values: &[Option<bool>], number: usize) -> Event
    requires { number < length clauses.now }
    ensures { Comes clauses.now values.now result }
{
    match examine(clauses.at(number), values) {
        ClauseStatus::False => Event::Conflict(number),
        ClauseStatus::Unit(lit) => {
            if (lit.var as usize) < values.len() {
                Event::Implied(lit, number)
            } else {
                Event::Quiet
            }
        }
        _ => Event::Quiet,
    }
}

/// The complete check: one walk over all clauses, the first that is not true gives the event.
pub(crate) fn unsatisfied(clauses: &[SmallVec<Lit, 4>], values: &[Option<bool>]) -> Event
    requires { HasVariablesWithin (length values.now - 1) (lists_of clauses.now) }
    ensures comes { Comes (lists_of clauses.now) values.now result }
    ensures quiet { IfQuiet (lists_of clauses.now) values.now result }
{
    for number in 0..clauses.len() {
        match examine(clause_at(clauses, number), values) {
            ClauseStatus::True(_) => {}
            ClauseStatus::False => return Event::Conflict(number),
            ClauseStatus::Unit(lit) => return Event::Implied(lit, number),
            ClauseStatus::Open(lit) => return Event::Free(lit),
        }
    }
    Event::Quiet
}
