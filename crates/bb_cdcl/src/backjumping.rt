//! Backjumping: the first decision after which the resolvent has only the literal that will be implied. The noted
//! places of the literals give it in time linear in the clause; a walk down the trail would take as long as the trail.
//! The places are hints, each is tested against the trail, and where one is wrong the walk is the fallback.

ghost use Rattle.std.specs.Prelude.{ℕ, ◌≡◌, ◌<◌, ◌≤◌, ◌||◌, true, length, take, IfSome};
ghost use Rattle.bb_cnf.specs.Clauses.{Literals, same_literal};
ghost use Rattle.bb_cnf.specs.Inside.PartialResolvent.{held, AreListed};
ghost use Rattle.bb_cdcl.specs.Inside.Trails.{falsified};
ghost use Rattle.bb_cdcl.specs.Inside.Analysis.{OthersAreFalsified, IsCovered, IsBackjump};

use crate::analysis::{entry_at, has_at};
use crate::heuristics::Heuristic;
use crate::trail::{Entry, negation};
use bb_cnf::{Lit, PartialResolvent};

fn nearest(entries: &[Entry], at: usize, back: Option<usize>) -> Option<usize>
    requires { at < length entries.now }
    ensures { (c : Literals) (place : ℕ) → IsCovered entries.now c place at
        → IfSome back (IsBackjump entries.now c place) → IfSome result (IsBackjump entries.now c place) }
{
    let entry = entry_at(entries, at);
    match entry.reason {
        Some(_) => back,
        None => Some(at),
    }
}

// The fallback: it needs no notes.
fn walk_back(resolvent: &PartialResolvent, entries: &[Entry], place: usize) -> Option<usize>
    requires within { place < length entries.now }
    requires covered { IsCovered entries.now (held resolvent.now) place place }
    ensures { IfSome result (IsBackjump entries.now (held resolvent.now) place) }
{
    let mut back = None;
    let mut at = place;
    while at > 0 {
        back = nearest(entries, at, back);
        if has_at(resolvent, entries, at - 1) {
            return back;
        }
        at -= 1;
    }
    nearest(entries, 0, back)
}

// The length of the shortest prefix of the trail that makes `lit` false; 0 for a literal that does not matter. None
// where the noted place is wrong.
fn prefix_for(
    resolvent: &PartialResolvent,
    entries: &[Entry],
    place: usize,
    kept: Lit,
    lit: Lit,
    heuristic: &Heuristic,
) -> Option<usize>
    requires within { place < length entries.now }
    ensures before { IfSome result (λ prefix. prefix ≤ place) }
    ensures enough { IfSome result (λ prefix.
        held resolvent.now lit ≡ true → (same_literal kept lit || falsified (take prefix entries.now) lit) ≡ true) }
{
    if kept == lit || !resolvent.has(lit) {
        return Some(0);
    }
    let at = heuristic.levels.place(lit.var);
    if at < place && negation(entry_at(entries, at).lit) == lit {
        Some(at + 1)
    } else {
        None
    }
}

fn prefix(
    resolvent: &PartialResolvent,
    entries: &[Entry],
    place: usize,
    kept: Lit,
    heuristic: &Heuristic,
) -> Option<usize>
    requires within { place < length entries.now }
    requires listed { AreListed resolvent.now }
    ensures before { IfSome result (λ prefix. prefix ≤ place) }
    ensures others { IfSome result (λ prefix. OthersAreFalsified (take prefix entries.now) kept (held resolvent.now)) }
{
    let lits = resolvent.literals();
    let mut prefix = 0;
    for lit in lits {
        prefix = prefix_for(resolvent, entries, place, kept, *lit, heuristic)?.max(prefix);
    }
    Some(prefix)
}

fn decision_after(
    entries: &[Entry],
    prefix: usize,
    place: usize,
    heuristic: &Heuristic,
) -> Option<usize>
    requires within { place < length entries.now }
    requires before { prefix ≤ place }
    ensures { (c : Literals) → IsCovered entries.now c place prefix → IfSome result (IsBackjump entries.now c place) }
{
    let level = if prefix > 0 {
        heuristic.levels.of(entry_at(entries, prefix - 1).lit.var)
    } else {
        0
    };
    let back = heuristic.levels.end_of(entries, level);
    if prefix <= back && back <= place {
        nearest(entries, back, None)
    } else {
        None
    }
}

fn find_back(
    resolvent: &PartialResolvent,
    entries: &[Entry],
    place: usize,
    heuristic: &Heuristic,
) -> Option<usize>
    requires within { place < length entries.now }
    requires covered { IsCovered entries.now (held resolvent.now) place place }
    requires listed { AreListed resolvent.now }
    ensures { IfSome result (IsBackjump entries.now (held resolvent.now) place) }
{
    let kept = negation(entry_at(entries, place).lit);
    let prefix = prefix(resolvent, entries, place, kept, heuristic)?;
    decision_after(entries, prefix, place, heuristic)
}

pub(crate) fn backjump_target(
    resolvent: &PartialResolvent,
    entries: &[Entry],
    place: usize,
    heuristic: &Heuristic,
) -> Option<usize>
    requires within { place < length entries.now }
    requires covered { IsCovered entries.now (held resolvent.now) place place }
    requires listed { AreListed resolvent.now }
    ensures { IfSome result (IsBackjump entries.now (held resolvent.now) place) }
{
    match find_back(resolvent, entries, place, heuristic) {
        Some(back) => Some(back),
        None => walk_back(resolvent, entries, place),
    }
}
