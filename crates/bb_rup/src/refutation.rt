//! The additions in order, up to the empty clause. The empty clause is put at their end, so a proof may stop where
//! propagation finishes the rest. Additions after the first empty one are never looked at: everything follows by then.

ghost use Rattle.std.specs.Prelude.{ℕ, ◌≡◌, ◌<◌, ◌↔◌, [], true, length, IfOk, OnOk};
ghost use Rattle.bb_cnf.specs.Clauses.{lists_of, HasVariablesWithin};
ghost use Rattle.bb_cnf.specs.Truth.{HaveNoModel};
ghost use Rattle.bb_rup.specs.declared.refutation.RupAnswer.TheVariants as answers;
ghost use Rattle.bb_rup.specs.Propagation.{Follows};
ghost use Rattle.bb_rup.specs.Additions.{Succeed, IsFirstWithout, IsRupAnswer};
ghost use Rattle.bb_rup.specs.Inside.Trails.{marked_by, IsTrail, IsReached, HaveMarks};

use crate::NoMemory;
use crate::addition::{Step, check_addition, clauses_before, follows};
use crate::propagation::propagate;
use crate::search::Search;
use crate::trail::{Trail, none_false};
use crate::watching::watch_all;
use bb_cnf::{Cnf, Lit};
use smallvec::SmallVec;
use std::alloc::Global;

/// `No` has the number of the first addition that does not follow, counted from 1. The empty clause at the end is the
/// last.
#[derive(Clone, Copy, Debug, PartialEq, Eq)]
pub enum RupAnswer {
    Yes,
    No(u32),
}

// True where the given clauses alone propagate to a false clause: then every addition follows.
fn begin(
    trail: &mut Trail,
    search: &mut Search,
    given: &[SmallVec<Lit, 4>],
    adds: &[SmallVec<Lit, 4>],
) -> Result<bool, NoMemory>
    requires trail { IsTrail trail.old }
    requires none { trail.old.lits.items ≡ [] }
    ensures yes { IfOk result (λ yes. yes ≡ true → Follows (lists_of given.now) []) }
    ensures trail { OnOk result (IsTrail trail.new) }
    ensures reached { OnOk result (IsReached (lists_of given.now) [] (marked_by trail.new)) }
    ensures same { OnOk result (length trail.new.marks.items ≡ length trail.old.marks.items) }
{
    watch_all(search, &trail.marks, given)?;
    let yes = propagate(trail, search, &clauses_before(given, adds, 0))?;
    Ok(yes)
}

// `search` watches nothing yet.
fn run(
    trail: &mut Trail,
    search: &mut Search,
    given: &[SmallVec<Lit, 4>],
    adds: &[SmallVec<Lit, 4>],
) -> Result<RupAnswer, NoMemory>
    requires few { length adds.now < 4294967295 }
    requires trail { IsTrail trail.old }
    requires none { trail.old.lits.items ≡ [] }
    requires room { HaveMarks (length trail.old.marks.items) (lists_of given.now) }
    requires room_after { HaveMarks (length trail.old.marks.items) (lists_of adds.now) }
    ensures { IfOk result (IsRupAnswer (lists_of given.now) (lists_of adds.now)) }
{
    if begin(trail, search, given, adds)? {
        return Ok(RupAnswer::Yes);
    }
    for number in 0..adds.len() {
        match check_addition(trail, search, given, adds, number)? {
            Step::Stays => return Ok(RupAnswer::No(number as u32 + 1)),
            Step::Ends => return Ok(RupAnswer::Yes),
            Step::Goes => {}
        }
    }
    if follows(trail, search, &clauses_before(given, adds, adds.len()), &[])? {
        Ok(RupAnswer::Yes)
    } else {
        Ok(RupAnswer::No(adds.len() as u32 + 1))
    }
}

/// Checks each addition against the clauses and the additions before it, in the order of the list, with the empty
/// clause at the end and up to the first empty one. After `Yes` no assignment satisfies `cnf`. The number of `No`
/// counts from 1, and the empty clause at the end counts. The only error is lack of memory.
pub fn rup(alloc: Global, cnf: &Cnf, adds: &[SmallVec<Lit, 4>]) -> Result<RupAnswer, NoMemory>
    requires within { HasVariablesWithin cnf.now.vars (lists_of adds.now) }
    requires few { length adds.now < 4294967295 }
    ensures yes { IfOk result (λ a. (a ≡ answers.Yes) ↔ Succeed cnf.now.clauses (lists_of adds.now)) }
    ensures no { IfOk result (λ a.
        (n : ℕ) → (a ≡ answers.No n) ↔ IsFirstWithout cnf.now.clauses (lists_of adds.now) n) }
    ensures none { IfOk result (λ a. a ≡ answers.Yes → HaveNoModel cnf.now.clauses) }
{
    let mut trail = none_false(alloc, cnf.vars)?;
    let count = cnf.clauses.len().saturating_add(adds.len());
    let mut search = Search::new(alloc, cnf.vars, cnf.clauses.len(), count)?;
    let answer = run(&mut trail, &mut search, &cnf.clauses, adds)?;
    Ok(answer)
}
