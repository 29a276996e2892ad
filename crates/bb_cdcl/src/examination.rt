//! The status of one clause under a partial assignment, by a look at every literal. Repeated literals count once, so `1
//! 1` with 1 unassigned is a unit clause.

ghost use Rattle.std.specs.Prelude.{◌≡◌, ℕ};
ghost use Rattle.bb_cdcl.specs.Inside.Trails.{value_at, is_false, opposite};
ghost use Rattle.bb_cdcl.specs.Inside.Events.{HasStatus};

use bb_cnf::Lit;

/// `True` names a true literal, `Unit` the only unassigned one, `Open` one of two or more unassigned ones.
#[derive(Clone, Copy, Debug)]
pub(crate) enum ClauseStatus {
    True(Lit),
    False,
    Unit(Lit),
    Open(Lit),
}

pub(crate) fn value(values: &[Option<bool>], var: u32) -> Option<bool>
    ensures { result ≡ value_at values.now var }
{
    match values.get(var as usize) {
        Some(bit) => *bit,
        None => None,
    }
}

pub(crate) fn examine(clause: &[Lit], values: &[Option<bool>]) -> ClauseStatus
    ensures { HasStatus values.now clause.now result }
{
    let mut free: Option<Lit> = None;
    for lit in clause {
        match value(values, lit.var) {
            Some(bit) => {
                if bit != lit.neg {
                    return ClauseStatus::True(*lit);
                }
            }
            None => match free {
                Some(other) => {
                    if other != *lit {
                        return ClauseStatus::Open(*lit);
                    }
                }
                None => free = Some(*lit),
            },
        }
    }
    match free {
        Some(lit) => ClauseStatus::Unit(lit),
        None => ClauseStatus::False,
    }
}
