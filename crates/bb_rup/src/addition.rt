//! One addition: its literals are taken as false, and propagation has to find a false clause. The trail keeps a prefix
//! of literals that are false with no addition at all. They need not be found again: what follows by propagation for no
//! clause follows for every clause, up to the first literal that the clause has itself, and there the clause that
//! implies it is false, so the addition follows.

ghost use Rattle.std.specs.Prelude.{◌≡◌, ◌+◌, ◌<◌, ◌≤◌, ◌++◌, [], true, false, length, take, slice_get, Some, All};
ghost use Rattle.std.specs.Prelude.{IfOk, OnOk};
ghost use Rattle.bb_cnf.specs.Clauses.{lists_of};
ghost use Rattle.bb_rup.specs.Propagation.{Follows, Stays};
ghost use Rattle.bb_rup.specs.Inside.Trails.{marked_by, IsTrail, IsReached, HasMarks, HaveMarks};
ghost use Rattle.bb_rup.specs.Inside.Steps.{Comes};

use crate::NoMemory;
use crate::propagation::{propagate, settle};
use crate::search::Search;
use crate::trail::{Trail, make_all_false, pop_to};
use bb_cnf::Lit;
use bb_watch::{Clauses, clause_at};
use smallvec::SmallVec;

/// `Stays`: the addition does not follow. `Ends`: it follows, and the clauses now propagate to a false clause, so every
/// later addition follows too. `Goes`: it follows, and the next one is due.
#[derive(Clone, Copy, Debug)]
pub(crate) enum Step {
    Stays,
    Ends,
    Goes,
}

pub(crate) fn clauses_before<'a>(
    given: &'a [SmallVec<Lit, 4>],
    adds: &'a [SmallVec<Lit, 4>],
    number: usize,
) -> Clauses<'a>
    requires { number ≤ length adds.now }
    ensures { result ≡ lists_of given.entry.now ++ take number (lists_of adds.entry.now) }
{
    Clauses::new(given, &adds[..number])
}

/// Leaves the trail as it was before: only `keep` makes its prefix longer.
pub(crate) fn follows(
    trail: &mut Trail,
    search: &mut Search,
    clauses: &Clauses<'_>,
    clause: &[Lit],
) -> Result<bool, NoMemory>
    requires trail { IsTrail trail.old }
    requires reached { IsReached clauses.now [] (marked_by trail.old) }
    requires room { HaveMarks (length trail.old.marks.items) clauses.now }
    requires own { All (HasMarks (length trail.old.marks.items)) clause.now }
    ensures yes { IfOk result (λ yes. yes ≡ true → Follows clauses.now clause.now) }
    ensures no { IfOk result (λ yes. yes ≡ false → Stays clauses.now clause.now) }
    ensures trail { OnOk result (IsTrail trail.new) }
    ensures lits { OnOk result (trail.new.lits.items ≡ trail.old.lits.items) }
    ensures same { OnOk result (length trail.new.marks.items ≡ length trail.old.marks.items) }
{
    let kept = trail.lits.len();
    make_all_false(trail, clause)?;
    let yes = settle(trail, search, clauses)?;
    pop_to(trail, kept);
    search.go_on(kept, &trail.marks, clauses)?;
    Ok(yes)
}

// Extends the prefix of the trail after `last` was added. This propagates by the watches alone and without the final
// walk over all clauses: no answer rests on the prefix being complete, since `follows` goes on from it to the end.
fn keep(
    trail: &mut Trail,
    search: &mut Search,
    clauses: &Clauses<'_>,
    last: &[Lit],
) -> Result<bool, NoMemory>
    requires trail { IsTrail trail.old }
    requires reached { IsReached clauses.now [] (marked_by trail.old) }
    ensures yes { IfOk result (λ yes. yes ≡ true → Follows clauses.now []) }
    ensures trail { OnOk result (IsTrail trail.new) }
    ensures reached { OnOk result (IsReached clauses.now [] (marked_by trail.new)) }
    ensures same { OnOk result (length trail.new.marks.items ≡ length trail.old.marks.items) }
{
    search.add(&trail.marks, last)?;
    let yes = propagate(trail, search, clauses)?;
    Ok(yes)
}

/// `number` counts from 0. An addition that follows is a premise of all later ones.
pub(crate) fn check_addition(
    trail: &mut Trail,
    search: &mut Search,
    given: &[SmallVec<Lit, 4>],
    adds: &[SmallVec<Lit, 4>],
    number: usize,
) -> Result<Step, NoMemory>
    requires number { number < length adds.now }
    requires trail { IsTrail trail.old }
    requires reached { IsReached (lists_of given.now ++ take number (lists_of adds.now)) [] (marked_by trail.old) }
    requires room { HaveMarks (length trail.old.marks.items) (lists_of given.now) }
    requires room_after { HaveMarks (length trail.old.marks.items) (lists_of adds.now) }
    ensures comes { IfOk result (Comes (lists_of given.now) (lists_of adds.now) number (marked_by trail.new)) }
    ensures trail { OnOk result (IsTrail trail.new) }
    ensures same { OnOk result (length trail.new.marks.items ≡ length trail.old.marks.items) }
{
    let addition = clause_at(adds, number);
    if !follows(
        trail,
        search,
        &clauses_before(given, adds, number),
        addition,
    )? {
        return Ok(Step::Stays);
    }
    if keep(
        trail,
        search,
        &clauses_before(given, adds, number + 1),
        addition,
    )? {
        return Ok(Step::Ends);
    }
    Ok(Step::Goes)
}
