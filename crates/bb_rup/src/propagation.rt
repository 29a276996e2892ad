//! Unit propagation in two layers. Two watched literals find most implied literals, but nothing is proved about
//! watches: where they find nothing more, one walk over all clauses finds a false clause or a literal to go on with, or
//! shows that nothing is left. A checker with proved watches would need an invariant for each list and each move. The
//! walk is cheap instead: a run ends with the first addition that does not follow, so it is made once a run unless the
//! watches missed something.

ghost use Rattle.std.specs.Prelude.{◌≡◌, ◌<◌, true, false, All, Any, IfOk, OnOk, length};
ghost use Rattle.bb_rup.specs.Propagation.{IsFalseClause, IsOpen};
ghost use Rattle.bb_rup.specs.Inside.Trails.{marked_by, IsTrail, HaveMarks, Propagates, unmarked};
ghost use Rattle.bb_rup.specs.Inside.Statuses.{IsImplied};

use crate::NoMemory;
use crate::marks::negation;
use crate::scan::{Event, scan};
use crate::search::Search;
use crate::trail::{Trail, make_false};
use crate::watching::watched;
use bb_cnf::Lit;
use bb_watch::Clauses;

fn imply(trail: &mut Trail, clauses: &Clauses<'_>, lit: Lit) -> Result<(), NoMemory>
    requires trail { IsTrail trail.old }
    requires implied { IsImplied clauses.now trail.old.marks.items lit }
    ensures propagates { OnOk result (Propagates clauses.now trail.old trail.new) }
    ensures less { OnOk result (unmarked trail.new.marks.items < unmarked trail.old.marks.items) }
{
    make_false(trail, negation(lit))?;
    Ok(())
}

/// True where some clause is false. False says nothing: the watches may have missed a clause.
pub(crate) fn propagate(
    trail: &mut Trail,
    search: &mut Search,
    clauses: &Clauses<'_>,
) -> Result<bool, NoMemory>
    requires { IsTrail trail.old }
    ensures propagates { OnOk result (Propagates clauses.now trail.old trail.new) }
    ensures conflict { IfOk result (λ yes. yes ≡ true → Any (IsFalseClause (marked_by trail.new)) clauses.now) }
{
    loop {
        match watched(search, clauses, &trail.lits, &trail.marks)? {
            Event::Conflict => return Ok(true),
            Event::Implied(lit) => imply(trail, clauses, lit)?,
            Event::Quiet => return Ok(false),
        }
    }
}

/// Exact in both directions, since only a walk over all clauses answers false. Ends since each round makes one more
/// literal false.
pub(crate) fn settle(
    trail: &mut Trail,
    search: &mut Search,
    clauses: &Clauses<'_>,
) -> Result<bool, NoMemory>
    requires trail { IsTrail trail.old }
    requires room { HaveMarks (length trail.old.marks.items) clauses.now }
    ensures propagates { OnOk result (Propagates clauses.now trail.old trail.new) }
    ensures conflict { IfOk result (λ yes. yes ≡ true → Any (IsFalseClause (marked_by trail.new)) clauses.now) }
    ensures quiet { IfOk result (λ yes. yes ≡ false → All (IsOpen (marked_by trail.new)) clauses.now) }
{
    loop {
        if propagate(trail, search, clauses)? {
            return Ok(true);
        }
        match scan(clauses, &trail.marks) {
            Event::Conflict => return Ok(true),
            Event::Implied(lit) => imply(trail, clauses, lit)?,
            Event::Quiet => return Ok(false),
        }
    }
}
