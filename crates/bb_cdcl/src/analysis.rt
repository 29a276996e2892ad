//! Conflict analysis to the first unique implication point (Een and Soerensson 2003): resolve with reasons from the end
//! of the trail. The point is found by looking down the trail for the next literal of the resolvent, not by counting
//! literals of the level: where a decision lies between, the trail may go back to it. The counter only says when it is
//! worth looking, so it needs no proof.

ghost use Rattle.std.specs.Prelude.{ℕ, ◌≡◌, ◌+◌, ◌<◌, false, true, length, take, slice_get, Some, None, IfOk, OnOk};
ghost use Rattle.std.specs.Prelude.{IfSome, IfNone};
ghost use Rattle.bb_cnf.specs.declared.clauses.Lit.{Lit as Literal};
ghost use Rattle.bb_cnf.specs.Inside.PartialResolvent.{held, AreListed};
ghost use Rattle.bb_cdcl.specs.Inside.Trails.{falsified, AreNew, HaveReasons};
ghost use Rattle.bb_cdcl.specs.Inside.Analysis.{AreFalsified, IsCovered, IsBackjump, StaysResolved};

use crate::NoMemory;
use crate::backjumping::backjump_target;
use crate::heuristics::Heuristic;
use crate::minimization::minimize;
use crate::trail::{Entry, negation};
use bb_cnf::{Lit, PartialResolvent, laws};
use bb_watch::Clauses;
use std::alloc::Global;

/// After backtracking to the decision at `back`, the learned clause implies the negation of the literal at `place`.
#[derive(Clone, Copy, Debug)]
pub(crate) struct Backjump {
    pub(crate) place: usize,
    pub(crate) back: usize,
}

pub(crate) fn entry_at(entries: &[Entry], place: usize) -> Entry
    requires { place < length entries.now }
    ensures { slice_get entries.now place ≡ Some result }
{
    entries[place]
}

pub(crate) fn has_at(resolvent: &PartialResolvent, entries: &[Entry], place: usize) -> bool
    requires { place < length entries.now }
    ensures covered { result ≡ true → AreFalsified (take (place + 1) entries.now) (held resolvent.now)
        → IsCovered entries.now (held resolvent.now) place place }
    ensures passed { result ≡ false → AreFalsified (take (place + 1) entries.now) (held resolvent.now)
        → AreFalsified (take place entries.now) (held resolvent.now) }
    ensures lower { result ≡ false → (top : ℕ) → IsCovered entries.now (held resolvent.now) top (place + 1)
        → IsCovered entries.now (held resolvent.now) top place }
{
    let entry = entry_at(entries, place);
    resolvent.has(negation(entry.lit))
}

fn resolve_at(
    resolvent: &mut PartialResolvent,
    clauses: &Clauses<'_>,
    entries: &[Entry],
    place: usize,
    lit: Lit,
    reason: usize,
    pairs: &mut Vec<(u64, u32)>,
    heuristic: &mut Heuristic,
) -> Result<(), NoMemory>
    requires at_place { slice_get entries.now place ≡ Some (record { lit = lit; reason = Some reason }) }
    requires new { AreNew entries.now }
    requires reasons { HaveReasons clauses.now entries.now }
    requires falsified { AreFalsified (take (place + 1) entries.now) (held resolvent.old) }
    requires covered { IsCovered entries.now (held resolvent.old) place place }
    requires listed { AreListed resolvent.old }
    ensures falsified { OnOk result (AreFalsified (take place entries.now) (held resolvent.new)) }
    ensures resolved { OnOk result (StaysResolved clauses.now pairs.old.items resolvent.old pairs.new.items
        resolvent.new) }
    ensures listed { OnOk result (AreListed resolvent.new) }
{
    laws::chains();
    let clause = clauses.at(reason);
    heuristic.resolves(resolvent, clause, reason, lit.var);
    resolvent.resolve(clause, lit.var)?;
    pairs.push((reason as u64, lit.var))?;
    Ok(())
}

// Where the counter says that one literal of the level is left, minimizes the clause and looks for a decision to
// backjump to. A decision itself always stops: it has no reason.
fn stop(
    alloc: Global,
    resolvent: &mut PartialResolvent,
    clauses: &Clauses<'_>,
    entries: &[Entry],
    place: usize,
    pairs: &mut Vec<(u64, u32)>,
    heuristic: &mut Heuristic,
) -> Result<Option<usize>, NoMemory>
    requires within { place < length entries.now }
    requires new { AreNew entries.now }
    requires reasons { HaveReasons clauses.now entries.now }
    requires covered { IsCovered entries.now (held resolvent.old) place place }
    requires listed { AreListed resolvent.old }
    ensures covered { OnOk result (IsCovered entries.now (held resolvent.new) place place) }
    ensures backjump { IfOk result (λ back. IfSome back (IsBackjump entries.now (held resolvent.new) place)) }
    ensures resolved { OnOk result (StaysResolved clauses.now pairs.old.items resolvent.old pairs.new.items
        resolvent.new) }
    ensures listed { OnOk result (AreListed resolvent.new) }
{
    if entry_at(entries, place).reason.is_some() && !heuristic.is_asserting() {
        return Ok(None);
    }
    minimize(alloc, resolvent, clauses, entries, place, pairs, heuristic)?;
    Ok(backjump_target(resolvent, entries, place, heuristic))
}

// None where the resolvent has no literal of this place, or where it was resolved.
fn step(
    alloc: Global,
    resolvent: &mut PartialResolvent,
    clauses: &Clauses<'_>,
    entries: &[Entry],
    place: usize,
    pairs: &mut Vec<(u64, u32)>,
    heuristic: &mut Heuristic,
) -> Result<Option<usize>, NoMemory>
    requires within { place < length entries.now }
    requires new { AreNew entries.now }
    requires reasons { HaveReasons clauses.now entries.now }
    requires falsified { AreFalsified (take (place + 1) entries.now) (held resolvent.old) }
    requires listed { AreListed resolvent.old }
    ensures falsified { IfOk result (λ back. IfNone back (AreFalsified (take place entries.now) (held resolvent.new))) }
    ensures backjump { IfOk result (λ back. IfSome back (IsBackjump entries.now (held resolvent.new) place)) }
    ensures resolved { OnOk result (StaysResolved clauses.now pairs.old.items resolvent.old pairs.new.items
        resolvent.new) }
    ensures listed { OnOk result (AreListed resolvent.new) }
{
    if !has_at(resolvent, entries, place) {
        return Ok(None);
    }
    if let Some(back) = stop(alloc, resolvent, clauses, entries, place, pairs, heuristic)? {
        return Ok(Some(back));
    }
    let entry = entry_at(entries, place);
    match entry.reason {
        None => Ok(Some(place)),
        Some(reason) => {
            resolve_at(
                resolvent, clauses, entries, place, entry.lit, reason, pairs, heuristic,
            )?;
            Ok(None)
        }
    }
}

/// Walks down the trail, since each reason has only literals of earlier places. None where the empty clause is derived.
pub(crate) fn analyze(
    alloc: Global,
    resolvent: &mut PartialResolvent,
    clauses: &Clauses<'_>,
    entries: &[Entry],
    pairs: &mut Vec<(u64, u32)>,
    heuristic: &mut Heuristic,
) -> Result<Option<Backjump>, NoMemory>
    requires new { AreNew entries.now }
    requires reasons { HaveReasons clauses.now entries.now }
    requires falsified { AreFalsified entries.now (held resolvent.old) }
    requires listed { AreListed resolvent.old }
    ensures empty { IfOk result (λ backjump. IfNone backjump ((l : Literal) → held resolvent.new l ≡ false)) }
    ensures backjump { IfOk result (λ backjump.
        IfSome backjump (λ j. IsBackjump entries.now (held resolvent.new) j.place j.back)) }
    ensures resolved { OnOk result (StaysResolved clauses.now pairs.old.items resolvent.old pairs.new.items
        resolvent.new) }
    ensures listed { OnOk result (AreListed resolvent.new) }
{
    let mut place = entries.len();
    while place > 0 {
        place -= 1;
        if let Some(back) = step(alloc, resolvent, clauses, entries, place, pairs, heuristic)? {
            return Ok(Some(Backjump { place, back }));
        }
    }
    Ok(None)
}
