//! Which unit clauses of level 0 a conflict needs. Only these are derived: on expansions level 0 has nearly all
//! variables, and a refutation needs few of them. A literal of level 0 whose clause is missed stays in the learned
//! clause, which is weaker and not wrong.

ghost use Rattle.std.specs.Prelude.{◌<◌, length, IfSome};

use crate::NoMemory;
use crate::heuristics::Heuristic;
use crate::trail::{Entry, negation};
use bb_cnf::{Lit, PartialResolvent};
use bb_watch::Clauses;
use std::alloc::Global;

/// None for a decision, and for a reason that is no number of a clause.
pub(crate) fn implied_at(
    clauses: &Clauses<'_>,
    entries: &[Entry],
    place: usize,
) -> Option<(u32, usize)>
    ensures { IfSome result (λ r. r.1 < length clauses.now) }
{
    let entry = entries.get(place)?;
    let reason = entry.reason?;
    if reason < clauses.len() {
        Some((entry.lit.var, reason))
    } else {
        None
    }
}

pub(crate) fn root(
    alloc: Global,
    resolvent: &PartialResolvent,
    entries: &[Entry],
    heuristic: &Heuristic,
) -> Result<Vec<Lit>, NoMemory> {
    let mut lits = Vec::new(alloc);
    for var in heuristic.found() {
        if let Some(entry) = entries.get(heuristic.levels.place(*var)) {
            let lit = negation(entry.lit);
            if heuristic.levels.is_root(*var) && resolvent.has(lit) {
                lits.push(lit)?;
            }
        }
    }
    Ok(lits)
}

// Appends places whose unit clauses are not made yet. A reason of one literal is the unit clause.
fn want(
    lits: &[Lit],
    clauses: &Clauses<'_>,
    entries: &[Entry],
    heuristic: &mut Heuristic,
    places: &mut Vec<usize>,
) -> Result<(), NoMemory> {
    for lit in lits {
        let place = heuristic.levels.place(lit.var);
        match implied_at(clauses, entries, place) {
            Some((var, reason)) if heuristic.unit(var).is_none() => {
                if clauses.at(reason).len() == 1 {
                    heuristic.has_unit(var, reason);
                } else {
                    heuristic.awaits_unit(var);
                    places.push(place)?;
                }
            }
            _ => {}
        }
    }
    Ok(())
}

/// A closure over reasons, sorted by place: a reason has only literals of earlier places, so each unit clause is
/// derived after those that it needs.
pub(crate) fn missing(
    alloc: Global,
    clauses: &Clauses<'_>,
    entries: &[Entry],
    lits: &[Lit],
    heuristic: &mut Heuristic,
) -> Result<Vec<usize>, NoMemory> {
    let mut places = Vec::new(alloc);
    want(lits, clauses, entries, heuristic, &mut places)?;
    for at in 0..entries.len() {
        let Some(place) = places.get(at) else {
            break;
        };
        if let Some((_, reason)) = implied_at(clauses, entries, *place) {
            want(clauses.at(reason), clauses, entries, heuristic, &mut places)?;
        }
    }
    places.sort()?;
    Ok(places)
}
