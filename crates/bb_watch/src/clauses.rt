//! Two lists of clauses under one numbering: the given ones first, then those that were added. Both are borrowed, so
//! that the solver and the checker of additions read given clauses where their caller has them, and no clause is held
//! twice.

ghost use Rattle.std.specs.Prelude.{◌≡◌, ◌<◌, ◌++◌, length, slice_get, Some};
ghost use Rattle.bb_cnf.specs.Clauses.{lists_of};

use bb_cnf::Lit;
use smallvec::SmallVec;
use std::marker::Model;

/// A view of two lists; numbers count from 0.
#[derive(Drop)]
pub struct Clauses<'a> {
    given: &'a [SmallVec<Lit, 4>],
    added: &'a [SmallVec<Lit, 4>],
}

impl<'a> Model for Clauses<'a> {
    ghost use Rattle.std.specs.Prelude.{List, ◌++◌};
    ghost use Rattle.bb_cnf.specs.declared.clauses.Lit.{Lit as Literal};
    ghost use Rattle.bb_cnf.specs.Clauses.{lists_of};

    ghost Value = { List (List Literal) };

    ghost view = { λ c. lists_of c.given.now ++ lists_of c.added.now };
}

/// Numbers count from 0. A call of its own, so that a lone list can be read by the same promise.
#[inline]
pub fn clause_at<'a>(clauses: &'a [SmallVec<Lit, 4>], number: usize) -> &'a [Lit]
    requires { number < length clauses.now }
    ensures { slice_get (lists_of clauses.now) number ≡ Some result.now }
{
    clauses[number].as_slice()
}

impl<'a> Clauses<'a> {
    /// The added clauses are numbered after the given ones.
    #[inline]
    pub fn new(given: &'a [SmallVec<Lit, 4>], added: &'a [SmallVec<Lit, 4>]) -> Clauses<'a>
        ensures { result ≡ lists_of given.entry.now ++ lists_of added.entry.now }
    {
        Clauses { given, added }
    }

    /// Counts both lists.
    #[inline]
    pub fn len(&self) -> usize
        ensures { result ≡ length self.now }
    {
        self.given.len() + self.added.len()
    }

    /// Numbers count from 0, through both lists.
    #[inline]
    pub fn at(&self, number: usize) -> &'a [Lit]
        requires { number < length self.now }
        ensures { slice_get self.now number ≡ Some result.now }
    {
        if number < self.given.len() {
            clause_at(self.given, number)
        } else {
            clause_at(self.added, number - self.given.len())
        }
    }
}
