//! Unit clauses of level 0, derived when a conflict first meets the negated literal, after those that its reason needs.
//! A learned clause is then resolved with them. Whether every such literal goes is not proved and no answer depends on
//! it: the note of which clause is the unit clause is a hint, tested by its length.

ghost use Rattle.std.specs.Prelude.{◌≡◌, ◌<◌, ◌∷◌, [], ℕ, false, length, map, slice_get, Some, IfOk, IfSome, OnOk};
ghost use Rattle.std.specs.Prelude.{List};
ghost use Rattle.bb_cnf.specs.declared.clauses.Lit.{Lit as Literal};
ghost use Rattle.bb_cnf.specs.Clauses.{literals_of, lists_of};
ghost use Rattle.bb_cnf.specs.Chains.{made_by};
ghost use Rattle.bb_cnf.specs.Inside.PartialResolvent.{held, AreListed};
ghost use Rattle.bb_cdcl.specs.declared.trail.Entry.{Entry as TrailEntry};
ghost use Rattle.bb_cdcl.specs.Inside.Analysis.{IsCovered, StaysResolved};
ghost use Rattle.bb_cdcl.specs.Inside.States.{IsDerived, Grows, Leads};

use crate::NoMemory;
use crate::analysis::{Backjump, entry_at};
use crate::heuristics::Heuristic;
use crate::root_literals::{implied_at, missing, root};
use crate::state::{State, add, drained};
use crate::trail::negation;
use bb_cnf::{Lit, PartialResolvent, Step, laws};
use bb_watch::Clauses;
use smallvec::SmallVec;
use std::alloc::Global;

fn only(clause: &[Lit]) -> Option<Lit>
    ensures { IfSome result (λ lit. clause.now ≡ lit ∷ []) }
{
    if clause.len() == 1 {
        Some(clause[0])
    } else {
        None
    }
}

// The literal of `kept` stays, since the jump rests on it. A stale number is skipped.
fn resolve_unit(
    resolvent: &mut PartialResolvent,
    clauses: &Clauses<'_>,
    unit: Option<usize>,
    kept: u32,
    pairs: &mut Vec<(u64, u32)>,
) -> Result<(), NoMemory>
    requires listed { AreListed resolvent.old }
    ensures covered { OnOk result ((entries : List TrailEntry) (place back : ℕ) (e : TrailEntry)
        → slice_get entries place ≡ Some e → e.lit.var ≡ kept → IsCovered entries (held resolvent.old) place back
        → IsCovered entries (held resolvent.new) place back) }
    ensures resolved { OnOk result (StaysResolved clauses.now pairs.old.items resolvent.old pairs.new.items
        resolvent.new) }
    ensures listed { OnOk result (AreListed resolvent.new) }
{
    laws::chains();
    let Some(number) = unit else {
        return Ok(());
    };
    if number >= clauses.len() {
        return Ok(());
    }
    let clause = clauses.at(number);
    let Some(lit) = only(clause) else {
        return Ok(());
    };
    if lit.var == kept || !resolvent.has(negation(lit)) {
        return Ok(());
    }
    resolvent.resolve(clause, lit.var)?;
    pairs.push((number as u64, lit.var))?;
    Ok(())
}

fn resolve_units(
    resolvent: &mut PartialResolvent,
    clauses: &Clauses<'_>,
    lits: &[Lit],
    kept: u32,
    pairs: &mut Vec<(u64, u32)>,
    heuristic: &Heuristic,
) -> Result<(), NoMemory>
    requires listed { AreListed resolvent.old }
    ensures covered { OnOk result ((entries : List TrailEntry) (place back : ℕ) (e : TrailEntry)
        → slice_get entries place ≡ Some e → e.lit.var ≡ kept → IsCovered entries (held resolvent.old) place back
        → IsCovered entries (held resolvent.new) place back) }
    ensures resolved { OnOk result (StaysResolved clauses.now pairs.old.items resolvent.old pairs.new.items
        resolvent.new) }
    ensures listed { OnOk result (AreListed resolvent.new) }
{
    for lit in lits {
        resolve_unit(resolvent, clauses, heuristic.unit(lit.var), kept, pairs)?;
    }
    Ok(())
}

fn unit_step(
    alloc: Global,
    resolvent: &mut PartialResolvent,
    clauses: &Clauses<'_>,
    var: u32,
    reason: usize,
    heuristic: &Heuristic,
) -> Result<Step, NoMemory>
    requires reason { reason < length clauses.now }
    requires empty { (l : Literal) → held resolvent.old l ≡ false }
    requires listed { AreListed resolvent.old }
    ensures made { IfOk result (λ step. made_by (map literals_of clauses.now) step ≡ Some (held resolvent.new)) }
    ensures listed { OnOk result (AreListed resolvent.new) }
{
    let clause = clauses.at(reason);
    let mut rest = Vec::with_capacity(alloc, clause.len())?;
    resolvent.put_all(clause)?;
    resolve_units(resolvent, clauses, clause, var, &mut rest, heuristic)?;
    Ok(Step {
        first: reason as u64,
        rest,
    })
}

// The count of clauses before the push is the number of the new one.
fn make_unit(
    alloc: Global,
    given: &[SmallVec<Lit, 4>],
    s: &mut State,
    place: usize,
    resolvent: &mut PartialResolvent,
    heuristic: &mut Heuristic,
) -> Result<(), NoMemory>
    requires derived { IsDerived (lists_of given.now) s.old }
    requires empty { (l : Literal) → held resolvent.old l ≡ false }
    requires listed { AreListed resolvent.old }
    ensures grows { OnOk result (Grows (lists_of given.now) s.old s.new) }
    ensures empty { OnOk result ((l : Literal) → held resolvent.new l ≡ false) }
    ensures listed { OnOk result (AreListed resolvent.new) }
{
    laws::chains();
    let clauses = Clauses::new(given, &s.learned);
    let Some((var, reason)) = implied_at(&clauses, &s.trail.entries, place) else {
        return Ok(());
    };
    let step = unit_step(alloc, resolvent, &clauses, var, reason, heuristic)?;
    heuristic.has_unit(var, clauses.len());
    let clause = drained(alloc, resolvent)?;
    add(s, given.len(), clause, step)?;
    Ok(())
}

fn make_units(
    alloc: Global,
    given: &[SmallVec<Lit, 4>],
    s: &mut State,
    places: &[usize],
    heuristic: &mut Heuristic,
) -> Result<(), NoMemory>
    requires { IsDerived (lists_of given.now) s.old }
    ensures { OnOk result (Grows (lists_of given.now) s.old s.new) }
{
    let mut resolvent = heuristic.spare.lend(alloc);
    for place in places {
        make_unit(alloc, given, s, *place, &mut resolvent, heuristic)?;
    }
    heuristic.spare.put_back(resolvent);
    Ok(())
}

/// Runs after minimization, when the clause has its final literals of other levels.
pub(crate) fn resolve_root(
    alloc: Global,
    given: &[SmallVec<Lit, 4>],
    s: &mut State,
    backjump: Backjump,
    step: &mut Step,
    heuristic: &mut Heuristic,
) -> Result<(), NoMemory>
    requires { Leads (lists_of given.now) s.old s.old (Some backjump) step.old }
    ensures { OnOk result (Leads (lists_of given.now) s.old s.new (Some backjump) step.new) }
{
    laws::chains();
    let lits = root(alloc, &s.resolvent, &s.trail.entries, heuristic)?;
    let clauses = Clauses::new(given, &s.learned);
    let places = missing(alloc, &clauses, &s.trail.entries, &lits, heuristic)?;
    make_units(alloc, given, s, &places, heuristic)?;
    let kept = entry_at(&s.trail.entries, backjump.place).lit.var;
    let clauses = Clauses::new(given, &s.learned);
    resolve_units(
        &mut s.resolvent,
        &clauses,
        &lits,
        kept,
        &mut step.rest,
        heuristic,
    )?;
    Ok(())
}
