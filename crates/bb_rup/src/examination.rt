//! The status of one clause under the false literals. Clauses are sets, so a literal that comes twice counts once, and
//! a clause of two equal literals is a unit clause. The walk ends at the second different literal that is not false.

ghost use Rattle.bb_rup.specs.Inside.Trails.{marked};
ghost use Rattle.bb_rup.specs.Inside.Statuses.{HasStatus};

use crate::marks::{is_false, is_same};
use bb_cnf::Lit;

/// `Unit` has the one literal that is not false; `Two`: at least two different ones are not.
#[derive(Clone, Copy, Debug)]
pub(crate) enum ClauseStatus {
    False,
    Unit(Lit),
    Two,
}

pub(crate) fn examine(clause: &[Lit], marks: &[bool]) -> ClauseStatus
    ensures { HasStatus (marked marks.now) clause.now result }
{
    let mut free: Option<Lit> = None;
    for lit in clause {
        if !is_false(marks, *lit) {
            match free {
                Some(other) => {
                    if !is_same(other, *lit) {
                        return ClauseStatus::Two;
                    }
                }
                None => free = Some(*lit),
            }
        }
    }
    match free {
        Some(lit) => ClauseStatus::Unit(lit),
        None => ClauseStatus::False,
    }
}
