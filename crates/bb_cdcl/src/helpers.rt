//! All hints of the solver in one value, so that the contracts of the search speak of none of them. Given and learned
//! clauses are watched with numbers of their own, so neither side is renumbered when the other grows.

use crate::NoMemory;
use crate::heuristics::Heuristic;
use crate::trail::Entry;
use bb_cnf::Lit;
use bb_watch::{Propagator, Side};
use smallvec::SmallVec;
use std::alloc::Global;

#[derive(Drop)]
pub(crate) struct Helpers {
    pub(crate) propagator: Propagator,
    pub(crate) heuristic: Heuristic,
}

impl Helpers {
    /// `given` is a capacity only.
    pub(crate) fn new(alloc: Global, vars: u32, given: usize) -> Result<Helpers, NoMemory> {
        Ok(Helpers {
            propagator: Propagator::new(alloc, vars, given, 0)?,
            heuristic: Heuristic::new(alloc, vars)?,
        })
    }

    pub(crate) fn widen(&mut self, vars: u32) -> Result<(), NoMemory> {
        self.propagator.widen(vars)?;
        self.heuristic.widen(vars)
    }

    pub(crate) fn taken_back(&mut self, place: usize) {
        self.propagator.take_back(place);
    }

    // The watched literals are those that become false last, so the watches are right on a trail that was not emptied.
    fn watch_all(
        &mut self,
        clauses: &[SmallVec<Lit, 4>],
        values: &[Option<bool>],
    ) -> Result<(), NoMemory> {
        for clause in clauses {
            let clause = clause.as_slice();
            let (first, second) = self.heuristic.levels.last_two(clause, values);
            self.propagator.watch(Side::First, clause, first, second)?;
            self.heuristic.meets(clause, values);
        }
        Ok(())
    }

    pub(crate) fn take_in(
        &mut self,
        given: &[SmallVec<Lit, 4>],
        known: usize,
        entries: &[Entry],
        values: &[Option<bool>],
    ) -> Result<(), NoMemory> {
        self.heuristic.more_given(known, given.len(), entries);
        match given.get(known..) {
            Some(clauses) => self.watch_all(clauses, values),
            None => Ok(()),
        }
    }
}
