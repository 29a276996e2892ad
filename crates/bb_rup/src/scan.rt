//! The consequence of a clause, and the walk over all clauses. The walk alone makes propagation exact: it needs no
//! watch and no index, so its proof is that of one loop, and whatever the watches missed is found here.

ghost use Rattle.std.specs.Prelude.{◌<◌, length};
ghost use Rattle.bb_rup.specs.Inside.Statuses.{Comes, IfQuiet, IfOpen};
ghost use Rattle.bb_rup.specs.Inside.Trails.{HaveMarks};

use crate::examination::{ClauseStatus, examine};
use crate::marks::{is_false, negation, place};
use bb_cnf::Lit;
use bb_watch::Clauses;

/// `Conflict`: some clause is false. `Implied`: all literals of some clause but this one are false, and its complement
/// is not false yet. `Quiet`: neither.
#[derive(Clone, Copy, Debug)]
pub(crate) enum Event {
    Conflict,
    Implied(Lit),
    Quiet,
}

/// `Quiet` means that the clause is open only where all its literals have marks: a literal beyond the marks can never
/// be made false.
pub(crate) fn event_of(clauses: &Clauses<'_>, marks: &[bool], number: usize) -> Event
    requires { number < length clauses.now }
    ensures comes { Comes clauses.now marks.now result }
    ensures quiet { HaveMarks (length marks.now) clauses.now → IfOpen clauses.now marks.now number result }
{
    match examine(clauses.at(number), marks) {
        ClauseStatus::False => Event::Conflict,
        ClauseStatus::Unit(lit) => {
            let new = negation(lit);
            if !is_false(marks, new) && place(new) < marks.len() {
                Event::Implied(lit)
            } else {
                Event::Quiet
            }
        }
        ClauseStatus::Two => Event::Quiet,
    }
}

/// Linear in all clauses: called only after the watches found nothing.
pub(crate) fn scan(clauses: &Clauses<'_>, marks: &[bool]) -> Event
    requires { HaveMarks (length marks.now) clauses.now }
    ensures comes { Comes clauses.now marks.now result }
    ensures quiet { IfQuiet clauses.now marks.now result }
{
    for number in 0..clauses.len() {
        match event_of(clauses, marks, number) {
            Event::Quiet => {}
            event => return event,
        }
    }
    Event::Quiet
}
