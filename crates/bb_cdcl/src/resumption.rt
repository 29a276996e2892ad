//! Preparing a search after clauses came. The trail goes back only to the level on which each new clause has two
//! literals that are not false, or implies one as early as it can. So no clause is implied late and the invariant of
//! the watches holds; a new unit clause goes back to level 0, where most variables of an expansion have their values.

ghost use Rattle.std.specs.Prelude.{◌≡◌, ◌+◌, ◌≤◌, length, take, OnOk};
ghost use Rattle.bb_cnf.specs.Clauses.{lists_of};
ghost use Rattle.bb_cdcl.specs.Inside.States.{IsDerived, IsReady};

use crate::NoMemory;
use crate::helpers::Helpers;
use crate::iteration::take_back;
use crate::state::State;
use crate::trail::{move_reasons, widen};
use bb_cnf::Lit;
use smallvec::SmallVec;

// Learned clauses have numbers after the given ones, so reasons that are learned clauses move.
fn move_trail(given: &[SmallVec<Lit, 4>], known: usize, s: &mut State)
    requires derived { IsDerived (take known (lists_of given.now)) s.old }
    requires ready { IsReady s.old }
    requires known { known ≤ length given.now }
    ensures derived { IsDerived (lists_of given.now) s.new }
    ensures ready { IsReady s.new }
    ensures same { length s.new.trail.values.items ≡ length s.old.trail.values.items }
{
    move_reasons(&mut s.trail, known, given.len() - known);
}

fn widen_trail(s: &mut State, vars: u32) -> Result<(), NoMemory>
    requires ready { IsReady s.old }
    requires few { length s.old.trail.values.items ≤ vars + 1 }
    ensures ready { OnOk result (IsReady s.new) }
    ensures values { OnOk result (length s.new.trail.values.items ≡ vars + 1) }
    ensures entries { s.new.trail.entries.items ≡ s.old.trail.entries.items }
    ensures learned { s.new.learned.items ≡ s.old.learned.items }
    ensures steps { s.new.steps.items ≡ s.old.steps.items }
{
    widen(&mut s.trail, vars)
}

/// Given clauses from `known` on are new. Reasons are moved last, since the trail still counts by `known` until then.
pub(crate) fn resume(
    given: &[SmallVec<Lit, 4>],
    known: usize,
    vars: u32,
    s: &mut State,
    helpers: &mut Helpers,
) -> Result<(), NoMemory>
    requires derived { IsDerived (take known (lists_of given.now)) s.old }
    requires ready { IsReady s.old }
    requires known { known ≤ length given.now }
    requires few { length s.old.trail.values.items ≤ vars + 1 }
    ensures derived { OnOk result (IsDerived (lists_of given.now) s.new) }
    ensures ready { OnOk result (IsReady s.new) }
    ensures values { OnOk result (length s.new.trail.values.items ≡ vars + 1) }
{
    widen_trail(s, vars)?;
    helpers.widen(vars)?;
    let level = helpers
        .heuristic
        .levels
        .backjump_level(&given[known..], &s.trail.values);
    take_back(s, helpers, level);
    helpers.take_in(given, known, &s.trail.entries, &s.trail.values)?;
    move_trail(given, known, s);
    Ok(())
}
