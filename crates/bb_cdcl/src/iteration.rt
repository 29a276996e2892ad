//! One iteration of the search: propagate, else decide, or analyze a conflict and backjump. A clause that the
//! propagator names is examined before it gives a reason or a conflict. When no literal is left to decide, one walk
//! over the given clauses finds the model, a conflict, or a literal to go on with, so completeness needs no proof about
//! watches or scores.

ghost use Rattle.std.specs.Prelude.{◌≡◌, ◌-◌, ◌<◌, ◌≤◌, true, None, Some, length, IfOk, IfSome, List};
ghost use Rattle.bb_cnf.specs.declared.clauses.Lit.{Lit as Literal};
ghost use Rattle.bb_cnf.specs.Clauses.{lists_of, HasVariablesWithin};
ghost use Rattle.bb_cdcl.specs.Inside.Trails.{value_at, IsReason};
ghost use Rattle.bb_cdcl.specs.Inside.Events.{Comes, IfQuiet, IsConflict, IsFree};
ghost use Rattle.bb_cdcl.specs.Inside.States.{all_clauses, IsDerived, IsReady, Iterates};

use crate::NoMemory;
use crate::events::{Event, unsatisfied};
use crate::helpers::Helpers;
use crate::heuristics::Heuristic;
use crate::learning::learn;
use crate::state::{Iteration, State, extend, go_back};
use crate::trail::{Entry, pop_to};
use crate::watches::propagated;
use bb_cnf::{Lit, laws};
use bb_watch::{Clauses, Side};
use smallvec::SmallVec;
use std::alloc::Global;

fn is_free(values: &[Option<bool>], lit: Lit) -> bool
    ensures { result ≡ true → IsFree values.now lit }
{
    match values.get(lit.var as usize) {
        Some(value) => value.is_none(),
        None => false,
    }
}

// The heuristic may return nothing, or an assigned variable, since nothing is proved of it; then the walk over the
// given clauses decides.
fn choice(given: &[SmallVec<Lit, 4>], values: &[Option<bool>], heuristic: &mut Heuristic) -> Event
    requires { HasVariablesWithin (length values.now - 1) (lists_of given.now) }
    ensures comes { Comes (lists_of given.now) values.now result }
    ensures quiet { IfQuiet (lists_of given.now) values.now result }
{
    match heuristic.pick(values) {
        Some(lit) if is_free(values, lit) => Event::Free(lit),
        _ => unsatisfied(given, values),
    }
}

fn next_event(given: &[SmallVec<Lit, 4>], s: &State, helpers: &mut Helpers) -> Event
    requires within { HasVariablesWithin (length s.now.trail.values.items - 1) (lists_of given.now) }
    ensures comes { Comes (all_clauses (lists_of given.now) s.now) s.now.trail.values.items result }
    ensures quiet { IfQuiet (lists_of given.now) s.now.trail.values.items result }
{
    let clauses = Clauses::new(given, &s.learned);
    let (entries, values) = (&s.trail.entries, &s.trail.values);
    match propagated(
        &mut helpers.propagator,
        &clauses,
        given.len(),
        entries,
        values,
    ) {
        Event::Quiet => choice(given, values, &mut helpers.heuristic),
        event => event,
    }
}

// The last learned clause is watched at the literal that it will imply and at the one that became false last of the
// others: these two become unassigned first on backtracking, which is what two watched literals need.
fn watch_from(
    alloc: Global,
    s: &State,
    place: usize,
    helpers: &mut Helpers,
) -> Result<(), NoMemory> {
    for at in place..s.learned.len() {
        let clause = s.learned[at].as_slice();
        let (first, second) = helpers.heuristic.levels.last_two(clause, &s.trail.values);
        helpers
            .propagator
            .watch(Side::Second, clause, first, second)?;
        helpers.heuristic.reduction.learned()?;
    }
    helpers
        .heuristic
        .reduction
        .reduce(alloc, &mut helpers.propagator)
}

fn resolve_conflict(
    alloc: Global,
    given: &[SmallVec<Lit, 4>],
    s: &mut State,
    number: usize,
    helpers: &mut Helpers,
) -> Result<Iteration, NoMemory>
    requires derived { IsDerived (lists_of given.now) s.old }
    requires ready { IsReady s.old }
    requires conflict { IsConflict (all_clauses (lists_of given.now) s.old) s.old.trail.values.items number }
    ensures { IfOk result (Iterates (lists_of given.now) s.old s.new) }
{
    laws::chains();
    let known = s.learned.len();
    match learn(alloc, given, s, number, &mut helpers.heuristic)? {
        None => Ok(Iteration::Refuted),
        Some(backjump) => {
            helpers.taken_back(backjump.back);
            watch_from(alloc, s, known, helpers)?;
            let last = Clauses::new(given, &s.learned).len().saturating_sub(1);
            go_back(s, backjump, last, &mut helpers.heuristic)?;
            Ok(Iteration::Going)
        }
    }
}

fn advance(
    given: &[SmallVec<Lit, 4>],
    s: &mut State,
    lit: Lit,
    reason: Option<usize>,
    heuristic: &mut Heuristic,
) -> Result<Iteration, NoMemory>
    requires derived { IsDerived (lists_of given.now) s.old }
    requires ready { IsReady s.old }
    requires in_range { lit.var < length s.old.trail.values.items }
    requires free { value_at s.old.trail.values.items lit.var ≡ None }
    requires reason { IfSome reason (IsReason (all_clauses (lists_of given.now) s.old) s.old.trail.entries.items lit) }
    ensures { IfOk result (Iterates (lists_of given.now) s.old s.new) }
{
    let place = s.trail.entries.len();
    match reason {
        Some(_) => heuristic.levels.implied(lit, place),
        None => heuristic.levels.decided(lit, place),
    }
    extend(s, lit, reason)?;
    Ok(Iteration::Going)
}

pub(crate) fn iteration(
    alloc: Global,
    given: &[SmallVec<Lit, 4>],
    s: &mut State,
    helpers: &mut Helpers,
) -> Result<Iteration, NoMemory>
    requires within { HasVariablesWithin (length s.old.trail.values.items - 1) (lists_of given.now) }
    requires derived { IsDerived (lists_of given.now) s.old }
    requires ready { IsReady s.old }
    ensures { IfOk result (Iterates (lists_of given.now) s.old s.new) }
{
    match next_event(given, s, helpers) {
        Event::Conflict(number) => resolve_conflict(alloc, given, s, number, helpers),
        Event::Implied(lit, number) => {
            advance(given, s, lit, Some(number), &mut helpers.heuristic)
        }
        Event::Free(lit) => advance(given, s, lit, None, &mut helpers.heuristic),
        Event::Quiet => Ok(Iteration::Satisfied),
    }
}

// The place of the decision after the first `count` ones; the end of the trail where there are no more.
fn after_decisions(entries: &[Entry], count: u32) -> usize
    ensures { result ≤ length entries.now }
{
    let mut decisions: u32 = 0;
    for place in 0..entries.len() {
        if entries[place].reason.is_none() {
            if decisions >= count {
                return place;
            }
            decisions = decisions.saturating_add(1);
        }
    }
    entries.len()
}

/// Keeps the first `decisions` decisions and all that they imply.
pub(crate) fn take_back(s: &mut State, helpers: &mut Helpers, decisions: u32)
    requires { IsReady s.old }
    ensures ready { IsReady s.new }
    ensures same { length s.new.trail.values.items ≡ length s.old.trail.values.items }
    ensures derived { (given : List (List Literal)) → IsDerived given s.old → IsDerived given s.new }
{
    let place = after_decisions(&s.trail.entries, decisions);
    pop_to(&mut s.trail, &mut helpers.heuristic, place);
    helpers.taken_back(place);
}
