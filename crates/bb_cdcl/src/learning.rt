//! Learning one clause from a conflict: first unique implication point, clause minimization, then literals of level 0
//! resolved away by unit clauses. The last step runs only where a decision is left: an empty clause needs none.

ghost use Rattle.std.specs.Prelude.{◌≡◌, false, Some, map, IfOk, OnOk, IfSome, IfNone};
ghost use Rattle.bb_cnf.specs.declared.clauses.Lit.{Lit as Literal};
ghost use Rattle.bb_cnf.specs.Clauses.{literals_of, lists_of};
ghost use Rattle.bb_cnf.specs.Chains.{made_by};
ghost use Rattle.bb_cnf.specs.Inside.PartialResolvent.{held, AreListed};
ghost use Rattle.bb_cdcl.specs.Inside.Trails.{AreNew, HaveReasons, AreValues};
ghost use Rattle.bb_cdcl.specs.Inside.Analysis.{IsBackjump};
ghost use Rattle.bb_cdcl.specs.Inside.Events.{IsConflict};
ghost use Rattle.bb_cdcl.specs.Inside.States.{all_clauses, IsDerived, IsReady, Leads, Learns};

use crate::NoMemory;
use crate::analysis::{Backjump, analyze};
use crate::heuristics::Heuristic;
use crate::state::{State, add, drained};
use crate::trail::Trail;
use crate::units::resolve_root;
use bb_cnf::{Lit, PartialResolvent, Step, laws};
use bb_watch::Clauses;
use smallvec::SmallVec;
use std::alloc::Global;

fn analyzed(
    alloc: Global,
    resolvent: &mut PartialResolvent,
    clauses: &Clauses<'_>,
    trail: &Trail,
    number: usize,
    heuristic: &mut Heuristic,
) -> Result<(Option<Backjump>, Step), NoMemory>
    requires empty { (l : Literal) → held resolvent.old l ≡ false }
    requires listed { AreListed resolvent.old }
    requires new { AreNew trail.now.entries.items }
    requires reasons { HaveReasons clauses.now trail.now.entries.items }
    requires values { AreValues trail.now.entries.items trail.now.values.items }
    requires conflict { IsConflict clauses.now trail.now.values.items number }
    ensures made { IfOk result (λ r. made_by (map literals_of clauses.now) r.1 ≡ Some (held resolvent.new)) }
    ensures some { IfOk result (λ r.
        IfSome r.0 (λ j. IsBackjump trail.now.entries.items (held resolvent.new) j.place j.back)) }
    ensures none { IfOk result (λ r. IfNone r.0 ((l : Literal) → held resolvent.new l ≡ false)) }
    ensures listed { OnOk result (AreListed resolvent.new) }
{
    let mut rest = Vec::new(alloc);
    let clause = clauses.at(number);
    heuristic.begin(resolvent, clause, number);
    resolvent.put_all(clause)?;
    let backjump = analyze(
        alloc,
        resolvent,
        clauses,
        &trail.entries,
        &mut rest,
        heuristic,
    )?;
    Ok((
        backjump,
        Step {
            first: number as u64,
            rest,
        },
    ))
}

fn conflict_step(
    alloc: Global,
    given: &[SmallVec<Lit, 4>],
    s: &mut State,
    number: usize,
    heuristic: &mut Heuristic,
) -> Result<(Option<Backjump>, Step), NoMemory>
    requires derived { IsDerived (lists_of given.now) s.old }
    requires ready { IsReady s.old }
    requires conflict { IsConflict (all_clauses (lists_of given.now) s.old) s.old.trail.values.items number }
    ensures { IfOk result (λ r. Leads (lists_of given.now) s.old s.new r.0 r.1) }
{
    let clauses = Clauses::new(given, &s.learned);
    let (backjump, mut step) = analyzed(
        alloc,
        &mut s.resolvent,
        &clauses,
        &s.trail,
        number,
        heuristic,
    )?;
    match backjump {
        Some(back) => {
            resolve_root(alloc, given, s, back, &mut step, heuristic)?;
            Ok((Some(back), step))
        }
        None => Ok((None, step)),
    }
}

/// Unit clauses that the step needs are learned before it, since a chain may name earlier clauses only.
pub(crate) fn learn(
    alloc: Global,
    given: &[SmallVec<Lit, 4>],
    s: &mut State,
    number: usize,
    heuristic: &mut Heuristic,
) -> Result<Option<Backjump>, NoMemory>
    requires derived { IsDerived (lists_of given.now) s.old }
    requires ready { IsReady s.old }
    requires conflict { IsConflict (all_clauses (lists_of given.now) s.old) s.old.trail.values.items number }
    ensures { IfOk result (Learns (lists_of given.now) s.old s.new) }
{
    laws::chains();
    let (backjump, step) = conflict_step(alloc, given, s, number, heuristic)?;
    let clause = drained(alloc, &mut s.resolvent)?;
    add(s, given.len(), clause, step)?;
    Ok(backjump)
}
