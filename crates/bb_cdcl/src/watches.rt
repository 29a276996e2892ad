//! Two watched literals, ahead of the trail: the propagator runs to a false clause over its own copies, and what it
//! found comes to the trail one literal at a time. What it names is examined before anything rests on it, so no proof
//! needs the watch invariant. The copies cost 32 bits a literal and no allocation a clause.

ghost use Rattle.bb_cdcl.specs.Inside.Events.{Comes};

use crate::events::{Event, event_of};
use crate::trail::{Entry, negation};
use bb_watch::{Clauses, Found, Propagator, Side};

// The propagator may already know some of the trail, since it runs ahead.
fn catch_up(propagator: &mut Propagator, entries: &[Entry]) {
    for place in propagator.len()..entries.len() {
        propagator.make_false(negation(entries[place].lit));
    }
}

fn number_of(found: Found, given: usize) -> usize {
    match found.side {
        Side::First => found.number as usize,
        Side::Second => given.saturating_add(found.number as usize),
    }
}

// A number out of range counts as nothing found, so the propagator needs no contract.
fn look(
    propagator: &mut Propagator,
    clauses: &Clauses<'_>,
    given: usize,
    entries: &[Entry],
    values: &[Option<bool>],
) -> Event
    ensures { Comes clauses.now values.now result }
{
    let Some(found) = propagator.next(entries.len()) else {
        return Event::Quiet;
    };
    let number = number_of(found, given);
    if number < clauses.len() {
        event_of(clauses, values, number)
    } else {
        Event::Quiet
    }
}

/// `given` is where numbers of learned clauses start. When nothing is found the propagator returns to the end of the
/// trail.
pub(crate) fn propagated(
    propagator: &mut Propagator,
    clauses: &Clauses<'_>,
    given: usize,
    entries: &[Entry],
    values: &[Option<bool>],
) -> Event
    ensures { Comes clauses.now values.now result }
{
    catch_up(propagator, entries);
    match look(propagator, clauses, given, entries, values) {
        Event::Quiet => {
            propagator.take_back(entries.len());
            Event::Quiet
        }
        event => event,
    }
}
