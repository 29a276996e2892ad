//! Follows the chains of a refutation, one resolution after another. The answer is exact in both directions: it accepts
//! what is defined as a refutation and nothing else, so a rejection is never an artefact of the check.

ghost use Rattle.std.specs.Prelude.{◌-◌, [], length, IsSomeAnd, IfSome, IfNone, OnSome, ◌≡◌, ◌↔◌, ◌++◌, false, true};
ghost use Rattle.std.specs.Prelude.{map, slice_get, option_map, Some, None, IfOk, OnOk, IsTrue, List};
ghost use Rattle.smallvec.specs.SmallVec.{SmallVec as Items};
ghost use Rattle.bb_cnf.specs.declared.clauses.Lit.{Lit};
ghost use Rattle.bb_cnf.specs.Clauses.{literals_of, lists_of};
ghost use Rattle.bb_cnf.specs.Chains.{chain, made_by, IsRefutation};
ghost use Rattle.bb_cnf.specs.Inside.PartialResolvent.{held, AreListed, sets_of};
ghost use Rattle.bb_cnf.specs.Truth.{HaveNoModel};

use crate::partial_resolvent::PartialResolvent;
use crate::{Cnf, Lit, NoMemory, Refutation, Step};
use smallvec::SmallVec;
use std::alloc::Global;

// Given clauses have the first numbers; the clause of each step has the next one.
fn clause<'a>(
    given: &'a [SmallVec<Lit, 4>],
    made: &'a [SmallVec<Lit, 4>],
    number: u64,
) -> Option<&'a [Lit]>
    ensures { option_map (λ lits. literals_of lits.now) result
        ≡ slice_get (sets_of given.now ++ sets_of made.now) number }
{
    let place = number as usize;
    let found = if place < given.len() {
        &given[place]
    } else {
        made.get(place - given.len())?
    };
    Some(found.as_slice())
}

// False at the first pair that names no earlier clause or is no resolution.
fn resolve_along(
    so_far: &mut PartialResolvent,
    given: &[SmallVec<Lit, 4>],
    made: &[SmallVec<Lit, 4>],
    rest: &[(u64, u32)],
) -> Result<bool, NoMemory>
    requires { AreListed so_far.old }
    ensures made { IfOk result (λ yes. yes ≡ true
        → chain (sets_of given.now ++ sets_of made.now) (held so_far.old) rest.now ≡ Some (held so_far.new)) }
    ensures none { IfOk result (λ yes.
        yes ≡ false → chain (sets_of given.now ++ sets_of made.now) (held so_far.old) rest.now ≡ None) }
    ensures listed { OnOk result (AreListed so_far.new) }
{
    for (number, var) in rest {
        let Some(named) = clause(given, made, *number) else {
            return Ok(false);
        };
        if !so_far.resolve(named, *var)? {
            return Ok(false);
        }
    }
    Ok(true)
}

fn begin(so_far: &mut PartialResolvent, first: &[Lit]) -> Result<(), NoMemory>
    requires empty { (l : Lit) → held so_far.old l ≡ false }
    requires listed { AreListed so_far.old }
    ensures held { OnOk result (held so_far.new ≡ literals_of first.now) }
    ensures listed { OnOk result (AreListed so_far.new) }
{
    so_far.put_all(first)?;
    Ok(())
}

// Leaves `so_far` empty, so that one set of marks serves all steps.
fn finish(alloc: Global, so_far: &mut PartialResolvent) -> Result<SmallVec<Lit, 4>, NoMemory>
    requires { AreListed so_far.old }
    ensures given { IfOk result (λ clause. literals_of clause.items ≡ held so_far.old) }
    ensures empty { OnOk result ((l : Lit) → held so_far.new l ≡ false) }
    ensures listed { OnOk result (AreListed so_far.new) }
{
    let clause = so_far.drain(alloc)?;
    Ok(clause)
}

fn make(
    alloc: Global,
    so_far: &mut PartialResolvent,
    given: &[SmallVec<Lit, 4>],
    made: &[SmallVec<Lit, 4>],
    step: &Step,
) -> Result<Option<SmallVec<Lit, 4>>, NoMemory>
    requires empty { (l : Lit) → held so_far.old l ≡ false }
    requires listed { AreListed so_far.old }
    ensures some { IfOk result (λ next. IfSome next (λ clause.
        made_by (sets_of given.now ++ sets_of made.now) step.now ≡ Some (literals_of clause.items))) }
    ensures none { IfOk result (λ next. IfNone next (made_by (sets_of given.now ++ sets_of made.now) step.now ≡ None)) }
    ensures empty { IfOk result (λ next. OnSome next ((l : Lit) → held so_far.new l ≡ false)) }
    ensures listed { IfOk result (λ next. OnSome next (AreListed so_far.new)) }
{
    let Some(first) = clause(given, made, step.first) else {
        return Ok(None);
    };
    begin(so_far, first)?;
    if !resolve_along(so_far, given, made, &step.rest)? {
        return Ok(None);
    }
    let clause = finish(alloc, so_far)?;
    Ok(Some(clause))
}

fn ends_empty(made: &[SmallVec<Lit, 4>]) -> bool
    ensures { IsTrue result ↔ IsSomeAnd (slice_get made.now (length made.now - 1)) (λ clause. clause.items ≡ []) }
{
    match made.last() {
        Some(clause) => clause.is_empty(),
        None => false,
    }
}

// A list without steps is no refutation, even where a given clause is empty.
fn refutes(alloc: Global, given: &[SmallVec<Lit, 4>], steps: &[Step]) -> Result<bool, NoMemory>
    ensures { IfOk result (λ yes. IsTrue yes ↔ IsRefutation (lists_of given.now) steps.now) }
{
    let mut made = Vec::new(alloc);
    let mut so_far = PartialResolvent::new(alloc);
    for step in steps {
        let Some(clause) = make(alloc, &mut so_far, given, &made, step)? else {
            return Ok(false);
        };
        made.push(clause)?;
    }
    Ok(ends_empty(&made))
}

/// True exactly where there are steps, each chain consists of resolutions, and the last step makes the empty clause.
/// The only error is lack of memory.
pub fn check(alloc: Global, cnf: &Cnf, refutation: &Refutation) -> Result<bool, NoMemory>
    ensures exact { IfOk result (λ yes. IsTrue yes ↔ IsRefutation cnf.now.clauses refutation.now.steps.items) }
    ensures none { IfOk result (λ yes. IsTrue yes → HaveNoModel cnf.now.clauses) }
{
    refutes(alloc, &cnf.clauses, &refutation.steps)
}
