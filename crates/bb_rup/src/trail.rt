//! The trail: the false literals in the order in which they became so, and a mark for each. Literals of the prefix are
//! false whatever the addition, and stay; the others are taken back after each addition.

ghost use Rattle.std.specs.Prelude.{◌≡◌, ◌-◌, ◌+◌, ◌*◌, ◌<◌, ◌≤◌, ◌++◌, ◌∷◌, [], true, false, length, take, set, All};
ghost use Rattle.std.specs.Prelude.{IfOk, OnOk};
ghost use Rattle.bb_cnf.specs.Clauses.{literals_of, same_literal};
ghost use Rattle.bb_rup.specs.Inside.Trails.{mark_place, marked_by, IsTrail, Makes, HasMarks};

use crate::NoMemory;
use crate::marks::{is_false, place, unmark};
use bb_cnf::Lit;
use std::alloc::Global;

#[derive(Drop)]
pub(crate) struct Trail {
    pub(crate) marks: Vec<bool>,
    pub(crate) lits: Vec<Lit>,
}

/// Marks for the variables from 1 to `vars`. The two places of variable 0 belong to no literal.
pub(crate) fn none_false(alloc: Global, vars: u32) -> Result<Trail, NoMemory>
    ensures trail { IfOk result IsTrail }
    ensures none { IfOk result (λ t. t.lits.items ≡ []) }
    ensures room { IfOk result (λ t. length t.marks.items ≡ 2 * vars + 2) }
{
    let marks = vec![in alloc; false; 2 * vars as usize + 2]?;
    Ok(Trail {
        marks,
        lits: Vec::new(alloc),
    })
}

/// The literal must not be on the trail yet: no literal is on it twice, so its length is bounded by the marks.
pub(crate) fn make_false(trail: &mut Trail, lit: Lit) -> Result<(), NoMemory>
    requires trail { IsTrail trail.old }
    requires in_range { mark_place lit < length trail.old.marks.items }
    requires new { marked_by trail.old lit ≡ false }
    ensures trail { OnOk result (IsTrail trail.new) }
    ensures lits { OnOk result (trail.new.lits.items ≡ trail.old.lits.items ++ lit ∷ []) }
    ensures marks { OnOk result (trail.new.marks.items ≡ set trail.old.marks.items (mark_place lit) true) }
{
    trail.lits.push(lit)?;
    trail.marks[place(lit)] = true;
    Ok(())
}

// An addition may repeat a literal, or have one of the prefix.
fn make_false_too(trail: &mut Trail, lit: Lit) -> Result<(), NoMemory>
    requires trail { IsTrail trail.old }
    requires in_range { mark_place lit < length trail.old.marks.items }
    ensures { OnOk result (Makes trail.old trail.new (same_literal lit)) }
{
    if !is_false(&trail.marks, lit) {
        make_false(trail, lit)?;
    }
    Ok(())
}

pub(crate) fn make_all_false(trail: &mut Trail, clause: &[Lit]) -> Result<(), NoMemory>
    requires trail { IsTrail trail.old }
    requires in_range { All (HasMarks (length trail.old.marks.items)) clause.now }
    ensures { OnOk result (Makes trail.old trail.new (literals_of clause.now)) }
{
    for lit in clause {
        make_false_too(trail, *lit)?;
    }
    Ok(())
}

fn pop(trail: &mut Trail)
    requires { IsTrail trail.old }
    ensures trail { IsTrail trail.new }
    ensures lits { trail.new.lits.items ≡ take (length trail.old.lits.items - 1) trail.old.lits.items }
    ensures room { length trail.new.marks.items ≡ length trail.old.marks.items }
{
    if let Some(last) = trail.lits.pop() {
        unmark(&mut trail.marks, last);
    }
}

pub(crate) fn pop_to(trail: &mut Trail, place: usize)
    requires trail { IsTrail trail.old }
    requires within { place ≤ length trail.old.lits.items }
    ensures trail { IsTrail trail.new }
    ensures lits { trail.new.lits.items ≡ take place trail.old.lits.items }
    ensures room { length trail.new.marks.items ≡ length trail.old.marks.items }
{
    while trail.lits.len() > place {
        pop(trail);
    }
}
