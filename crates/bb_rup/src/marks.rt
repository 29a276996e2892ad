//! A mark for each literal: is it false? Falsehood is kept for each literal and not for each variable, since a clause
//! with a literal and its complement makes both false. So such a clause does not follow merely because it is true.

ghost use Rattle.std.specs.Prelude.{◌≡◌, ◌<◌, ◌||◌, ◌&&◌, not, true, false, length, set};
ghost use Rattle.bb_cnf.specs.Clauses.{same_literal};
ghost use Rattle.bb_cnf.specs.declared.clauses.Lit.{Lit as Literal};
ghost use Rattle.bb_rup.specs.Propagation.{complement};
ghost use Rattle.bb_rup.specs.Inside.Trails.{mark_place, marked};

use bb_cnf::Lit;

pub(crate) fn negation(lit: Lit) -> Lit
    ensures { result ≡ complement lit }
{
    Lit {
        var: lit.var,
        neg: !lit.neg,
    }
}

pub(crate) fn is_same(a: Lit, b: Lit) -> bool
    ensures { result ≡ same_literal a b }
{
    a.var == b.var && a.neg == b.neg
}

/// The two literals of a variable are neighbours, the negated one second.
pub(crate) fn place(lit: Lit) -> usize
    ensures { result ≡ mark_place lit }
{
    let sign = if lit.neg { 1 } else { 0 };
    2 * lit.var as usize + sign
}

/// A literal beyond the marks is not false.
pub(crate) fn is_false(marks: &[bool], lit: Lit) -> bool
    ensures { result ≡ marked marks.now lit }
{
    let place = place(lit);
    place < marks.len() && marks[place]
}

pub(crate) fn unmark(marks: &mut [bool], lit: Lit)
    ensures marks { (m : Literal) → marked marks.new m ≡ (marked marks.old m && not (same_literal lit m)) }
    ensures room { length marks.new ≡ length marks.old }
{
    let place = place(lit);
    if place < marks.len() {
        marks[place] = false;
    }
}
