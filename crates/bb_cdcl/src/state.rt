//! The part of the solver that the proof speaks of: learned clauses, their steps, and the trail. The solver resolves
//! with the partial resolvent that the checker of `bb_cnf` uses, so a learned clause is by construction what the
//! checker makes of its chain, and no lemma relates two ways to resolve.

ghost use Rattle.std.specs.Prelude.{◌≡◌, ◌-◌, ◌<◌, ◌++◌, ◌∷◌, [], false, Some, None, length, take, slice_get, IfOk};
ghost use Rattle.std.specs.Prelude.{OnOk};
ghost use Rattle.bb_cnf.specs.declared.clauses.Lit.{Lit as Literal};
ghost use Rattle.bb_cnf.specs.Clauses.{Literals, literals_of};
ghost use Rattle.bb_cnf.specs.Inside.PartialResolvent.{held, AreListed};
ghost use Rattle.bb_cdcl.specs.declared.trail.Entry.{Entry as TrailEntry};
ghost use Rattle.bb_cdcl.specs.Inside.Trails.{value_at, opposite};
ghost use Rattle.bb_cdcl.specs.Inside.Analysis.{IsBackjump};
ghost use Rattle.bb_cdcl.specs.Inside.States.{IsReady, Advances};

use crate::NoMemory;
use crate::analysis::{Backjump, entry_at};
use crate::heuristics::Heuristic;
use crate::numbers::DatedStep;
use crate::trail::{Trail, assign, negation, pop_to};
use bb_cnf::{Lit, PartialResolvent, Step};
use smallvec::SmallVec;
use std::alloc::Global;

/// `steps[i]` derives `learned[i]`. The resolvent is empty between two analyses; it is kept since its marks take
/// memory.
#[derive(Drop)]
pub(crate) struct State {
    pub(crate) learned: Vec<SmallVec<Lit, 4>>,
    pub(crate) steps: Vec<DatedStep>,
    pub(crate) trail: Trail,
    pub(crate) resolvent: PartialResolvent,
}

/// After an iteration: the search goes on, all clauses are true, or the last learned clause is empty.
#[derive(Clone, Copy, Debug)]
pub(crate) enum Iteration {
    Going,
    Satisfied,
    Refuted,
}

pub(crate) fn extend(s: &mut State, lit: Lit, reason: Option<usize>) -> Result<(), NoMemory>
    requires ready { IsReady s.old }
    requires in_range { lit.var < length s.old.trail.values.items }
    requires free { value_at s.old.trail.values.items lit.var ≡ None }
    ensures ready { OnOk result (IsReady s.new) }
    ensures entries { OnOk result (s.new.trail.entries.items
        ≡ s.old.trail.entries.items ++ record { lit = lit; reason = reason } ∷ []) }
    ensures within { length s.old.trail.entries.items < length s.old.trail.values.items }
    ensures same { OnOk result (length s.new.trail.values.items ≡ length s.old.trail.values.items) }
    ensures learned { s.new.learned.items ≡ s.old.learned.items }
    ensures steps { s.new.steps.items ≡ s.old.steps.items }
{
    assign(&mut s.trail, lit, reason)?;
    Ok(())
}

pub(crate) fn drained(
    alloc: Global,
    resolvent: &mut PartialResolvent,
) -> Result<SmallVec<Lit, 4>, NoMemory>
    requires { AreListed resolvent.old }
    ensures given { IfOk result (λ clause. literals_of clause.items ≡ held resolvent.old) }
    ensures empty { OnOk result ((l : Literal) → held resolvent.new l ≡ false) }
    ensures listed { OnOk result (AreListed resolvent.new) }
{
    let clause = resolvent.drain(alloc)?;
    Ok(clause)
}

/// `given` dates the step: its numbers count learned clauses from there.
pub(crate) fn add(
    s: &mut State,
    given: usize,
    clause: SmallVec<Lit, 4>,
    step: Step,
) -> Result<(), NoMemory>
    ensures learned { OnOk result (s.new.learned.items ≡ s.old.learned.items ++ clause ∷ []) }
    ensures steps { OnOk result (s.new.steps.items ≡ s.old.steps.items ++ record { given = given; step = step } ∷ []) }
    ensures trail { s.new.trail ≡ s.old.trail }
    ensures resolvent { s.new.resolvent ≡ s.old.resolvent }
{
    s.learned.push(clause)?;
    s.steps.push(DatedStep { given, step })?;
    Ok(())
}

pub(crate) fn go_back(
    s: &mut State,
    backjump: Backjump,
    reason: usize,
    heuristic: &mut Heuristic,
) -> Result<(), NoMemory>
    requires ready { IsReady s.old }
    requires backjump { (c : Literals) × IsBackjump s.old.trail.entries.items c backjump.place backjump.back }
    ensures advances { OnOk result (Advances s.old s.new) }
    ensures entries { OnOk result ((e : TrailEntry) → slice_get s.old.trail.entries.items backjump.place ≡ Some e
        → s.new.trail.entries.items
        ≡ take backjump.back s.old.trail.entries.items ++ record { lit = opposite e.lit; reason = Some reason }
        ∷ []) }
    ensures learned { s.new.learned.items ≡ s.old.learned.items }
    ensures steps { s.new.steps.items ≡ s.old.steps.items }
{
    let entry = entry_at(&s.trail.entries, backjump.place);
    pop_to(&mut s.trail, heuristic, backjump.back);
    let lit = negation(entry.lit);
    heuristic.levels.implied(lit, backjump.back);
    extend(s, lit, Some(reason))?;
    Ok(())
}
