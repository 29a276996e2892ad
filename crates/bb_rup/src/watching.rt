//! Propagation by two watched literals (Moskewicz et al., Chaff, 2001). It runs ahead of the trail over copies of the
//! clauses, and what it finds is a hint: each clause that it names is examined before anything rests on it, and no
//! answer depends on whether it names all such clauses. So nothing has to be proved about watches.

ghost use Rattle.std.specs.Prelude.{IfOk};
ghost use Rattle.bb_rup.specs.Inside.Statuses.{Comes};

use crate::NoMemory;
use crate::marks::is_false;
use crate::scan::{Event, event_of};
use crate::search::Search;
use bb_cnf::Lit;
use bb_watch::Clauses;
use smallvec::SmallVec;

const NOTHING: Lit = Lit { var: 0, neg: false };

fn not_false(clause: &[Lit], marks: &[bool], but: Lit) -> Option<Lit> {
    for lit in clause {
        if *lit != but && !is_false(marks, *lit) {
            return Some(*lit);
        }
    }
    None
}

/// Two different literals that are not false, where the clause has two; otherwise its first and last literal serve. A
/// wrong pair costs time and no answer.
pub(crate) fn two_of(clause: &[Lit], marks: &[bool]) -> (Lit, Lit) {
    let prefix = clause.first().copied().unwrap_or(NOTHING);
    let first = not_false(clause, marks, NOTHING).unwrap_or(prefix);
    let back = clause.last().copied().unwrap_or(NOTHING);
    let second = not_false(clause, marks, first).unwrap_or(back);
    (first, second)
}

pub(crate) fn watch_all(
    search: &mut Search,
    marks: &[bool],
    clauses: &[SmallVec<Lit, 4>],
) -> Result<(), NoMemory> {
    for clause in clauses {
        search.add(marks, clause.as_slice())?;
    }
    Ok(())
}

/// The next consequence that the propagator names, checked against the clause itself. Where the hint was wrong, the
/// propagator drops what it found beyond the trail, since that may rest on it.
pub(crate) fn watched(
    search: &mut Search,
    clauses: &Clauses<'_>,
    lits: &[Lit],
    marks: &[bool],
) -> Result<Event, NoMemory>
    ensures { IfOk result (Comes clauses.now marks.now) }
{
    search.catch_up(lits);
    let Some(number) = search.next(lits.len()) else {
        return Ok(Event::Quiet);
    };
    if number >= clauses.len() {
        return Ok(Event::Quiet);
    }
    let event = event_of(clauses, marks, number);
    match event {
        Event::Quiet => search.take_back(lits.len()),
        _ => search.came(number)?,
    }
    Ok(event)
}
