//! Learned-clause minimization (Soerensson and Biere 2009, local form): a literal is dropped if its reason adds no
//! other, and the chain gets that resolution. Not the recursive form, which resolves several steps for one literal.
//! Which literals are redundant is a hint that each resolution tests, so the test itself needs no proof. Level 0 is
//! left to the unit clauses.

ghost use Rattle.std.specs.Prelude.{◌<◌, length, OnOk};
ghost use Rattle.bb_cnf.specs.Clauses.{Literals};
ghost use Rattle.bb_cnf.specs.Inside.PartialResolvent.{held, AreListed};
ghost use Rattle.bb_cdcl.specs.Inside.Trails.{AreNew, HaveReasons};
ghost use Rattle.bb_cdcl.specs.Inside.Analysis.{IsCovered, StaysResolved};

use crate::NoMemory;
use crate::analysis::entry_at;
use crate::heuristics::Heuristic;
use crate::trail::{Entry, negation};
use bb_cnf::{Lit, PartialResolvent, laws};
use bb_watch::Clauses;
use std::alloc::Global;

// Literals of level 0 are ignored: they are resolved away later.
fn has_others(
    resolvent: &PartialResolvent,
    clause: &[Lit],
    but: Lit,
    heuristic: &Heuristic,
) -> bool {
    for lit in clause {
        if *lit != but && !heuristic.levels.is_root(lit.var) && !resolvent.has(*lit) {
            return false;
        }
    }
    true
}

fn is_redundant(
    resolvent: &PartialResolvent,
    clauses: &Clauses<'_>,
    entries: &[Entry],
    place: usize,
    heuristic: &Heuristic,
) -> bool {
    let Some(entry) = entries.get(place) else {
        return false;
    };
    let Some(reason) = entry.reason else {
        return false;
    };
    reason < clauses.len()
        && resolvent.has(negation(entry.lit))
        && has_others(resolvent, clauses.at(reason), entry.lit, heuristic)
}

// Redundant literals by trail place, the last first. Each reason has literals of earlier places only, so no literal
// that was resolved away comes back.
fn redundant(
    alloc: Global,
    resolvent: &PartialResolvent,
    clauses: &Clauses<'_>,
    entries: &[Entry],
    heuristic: &Heuristic,
) -> Result<Vec<usize>, NoMemory> {
    let mut places = Vec::new(alloc);
    for var in heuristic.found() {
        let place = heuristic.levels.place(*var);
        if is_redundant(resolvent, clauses, entries, place, heuristic) {
            places.push(place)?;
        }
    }
    places.sort()?;
    places.reverse();
    Ok(places)
}

// `at` is before `place`, so the asserted literal stays.
fn resolve_before(
    resolvent: &mut PartialResolvent,
    clauses: &Clauses<'_>,
    entries: &[Entry],
    place: usize,
    at: usize,
    pairs: &mut Vec<(u64, u32)>,
    heuristic: &mut Heuristic,
) -> Result<(), NoMemory>
    requires within { place < length entries.now }
    requires before { at < place }
    requires new { AreNew entries.now }
    requires reasons { HaveReasons clauses.now entries.now }
    requires covered { IsCovered entries.now (held resolvent.old) place place }
    requires listed { AreListed resolvent.old }
    ensures covered { OnOk result (IsCovered entries.now (held resolvent.new) place place) }
    ensures resolved { OnOk result (StaysResolved clauses.now pairs.old.items resolvent.old pairs.new.items
        resolvent.new) }
    ensures listed { OnOk result (AreListed resolvent.new) }
{
    laws::chains();
    let entry = entry_at(entries, at);
    if !resolvent.has(negation(entry.lit)) {
        return Ok(());
    }
    let Some(reason) = entry.reason else {
        return Ok(());
    };
    let clause = clauses.at(reason);
    heuristic.adds(resolvent, clause, entry.lit.var);
    resolvent.resolve(clause, entry.lit.var)?;
    pairs.push((reason as u64, entry.lit.var))?;
    Ok(())
}

pub(crate) fn minimize(
    alloc: Global,
    resolvent: &mut PartialResolvent,
    clauses: &Clauses<'_>,
    entries: &[Entry],
    place: usize,
    pairs: &mut Vec<(u64, u32)>,
    heuristic: &mut Heuristic,
) -> Result<(), NoMemory>
    requires within { place < length entries.now }
    requires new { AreNew entries.now }
    requires reasons { HaveReasons clauses.now entries.now }
    requires covered { IsCovered entries.now (held resolvent.old) place place }
    requires listed { AreListed resolvent.old }
    ensures covered { OnOk result (IsCovered entries.now (held resolvent.new) place place) }
    ensures resolved { OnOk result (StaysResolved clauses.now pairs.old.items resolvent.old pairs.new.items
        resolvent.new) }
    ensures listed { OnOk result (AreListed resolvent.new) }
{
    for at in redundant(alloc, resolvent, clauses, entries, heuristic)? {
        if at < place {
            resolve_before(resolvent, clauses, entries, place, at, pairs, heuristic)?;
        }
    }
    Ok(())
}
