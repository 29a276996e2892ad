//! The search loop with geometric restarts: 64 of them, each a tenth longer than the one before, which keep what was
//! implied without a decision. Their number is fixed since a restart undoes the measure by which the loop ends: an
//! entry of the trail is a digit to the base 3 (2 implied, 1 decided, 0 none), and each iteration raises that number.
//! Digits spare a bound on the number of levels. After the last restart only this measure ends the search.

ghost use Rattle.std.specs.Prelude.{ℕ, ◌≡◌, ◌≤◌, ◌-◌, true, false, length, IfOk, IfSome, IfNone, List};
ghost use Rattle.bb_cnf.specs.Clauses.{lists_of, HasVariablesWithin};
ghost use Rattle.bb_cdcl.specs.Inside.States.{IsDerived, IsReady, Ends, Pauses};

use crate::NoMemory;
use crate::helpers::Helpers;
use crate::iteration::{iteration, take_back};
use crate::state::{Iteration, State};
use bb_cnf::Lit;
use smallvec::SmallVec;
use std::alloc::Global;

// Learned clauses before the first restart are `FIRST`; each later run learns a tenth more.
const RESTARTS: usize = 64;

const FIRST: usize = 100;

// Ends by the digits alone: each iteration raises their number, and there is a largest one.
fn run(
    alloc: Global,
    given: &[SmallVec<Lit, 4>],
    s: &mut State,
    helpers: &mut Helpers,
) -> Result<bool, NoMemory>
    requires within { HasVariablesWithin (length s.old.trail.values.items - 1) (lists_of given.now) }
    requires derived { IsDerived (lists_of given.now) s.old }
    requires ready { IsReady s.old }
    ensures { IfOk result (Ends (lists_of given.now) s.old s.new) }
{
    loop {
        match iteration(alloc, given, s, helpers)? {
            Iteration::Going => {}
            Iteration::Satisfied => return Ok(true),
            Iteration::Refuted => return Ok(false),
        }
    }
}

fn run_to(
    alloc: Global,
    given: &[SmallVec<Lit, 4>],
    s: &mut State,
    helpers: &mut Helpers,
    learned: usize,
) -> Result<Option<bool>, NoMemory>
    requires within { HasVariablesWithin (length s.old.trail.values.items - 1) (lists_of given.now) }
    requires derived { IsDerived (lists_of given.now) s.old }
    requires ready { IsReady s.old }
    ensures ends { IfOk result (λ end. IfSome end (Ends (lists_of given.now) s.old s.new)) }
    ensures pauses { IfOk result (λ end. IfNone end (Pauses (lists_of given.now) s.old s.new)) }
    ensures enough { IfOk result (λ end. IfNone end (learned ≤ length s.new.learned.items)) }
{
    while s.learned.len() < learned {
        match iteration(alloc, given, s, helpers)? {
            Iteration::Going => {}
            Iteration::Satisfied => return Ok(Some(true)),
            Iteration::Refuted => return Ok(Some(false)),
        }
    }
    Ok(None)
}

// Restarts count down, and `most` bounds the learned clauses over all of them.
fn run_again(
    alloc: Global,
    given: &[SmallVec<Lit, 4>],
    s: &mut State,
    helpers: &mut Helpers,
    most: usize,
) -> Result<Option<bool>, NoMemory>
    requires within { HasVariablesWithin (length s.old.trail.values.items - 1) (lists_of given.now) }
    requires derived { IsDerived (lists_of given.now) s.old }
    requires ready { IsReady s.old }
    ensures ends { IfOk result (λ end. IfSome end (Ends (lists_of given.now) s.old s.new)) }
    ensures pauses { IfOk result (λ end. IfNone end (Pauses (lists_of given.now) s.old s.new)) }
{
    let mut more = FIRST;
    for _ in 0..RESTARTS {
        let learned = s.learned.len().saturating_add(more).min(most);
        if let Some(end) = run_to(alloc, given, s, helpers, learned)? {
            return Ok(Some(end));
        }
        take_back(s, helpers, 0);
        more = more.saturating_add(more / 10);
    }
    Ok(None)
}

pub(crate) fn search(
    alloc: Global,
    given: &[SmallVec<Lit, 4>],
    s: &mut State,
    helpers: &mut Helpers,
) -> Result<bool, NoMemory>
    requires within { HasVariablesWithin (length s.old.trail.values.items - 1) (lists_of given.now) }
    requires derived { IsDerived (lists_of given.now) s.old }
    requires ready { IsReady s.old }
    ensures { IfOk result (Ends (lists_of given.now) s.old s.new) }
{
    match run_again(alloc, given, s, helpers, usize::MAX)? {
        Some(end) => Ok(end),
        None => run(alloc, given, s, helpers),
    }
}

pub(crate) fn search_within(
    alloc: Global,
    given: &[SmallVec<Lit, 4>],
    s: &mut State,
    helpers: &mut Helpers,
    learned: usize,
) -> Result<Option<bool>, NoMemory>
    requires within { HasVariablesWithin (length s.old.trail.values.items - 1) (lists_of given.now) }
    requires derived { IsDerived (lists_of given.now) s.old }
    requires ready { IsReady s.old }
    ensures ends { IfOk result (λ end. IfSome end (Ends (lists_of given.now) s.old s.new)) }
    ensures pauses { IfOk result (λ end. IfNone end (Pauses (lists_of given.now) s.old s.new)) }
    ensures enough { IfOk result (λ end. IfNone end (learned ≤ length s.new.learned.items)) }
{
    match run_again(alloc, given, s, helpers, learned)? {
        Some(end) => Ok(Some(end)),
        None => run_to(alloc, given, s, helpers, learned),
    }
}
