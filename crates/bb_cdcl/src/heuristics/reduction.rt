//! Clause-database reduction by last use: when too many learned clauses are watched, the half that conflicts have not
//! used for longest is no longer watched. They stay in the list, since later chains and reasons on the trail name them
//! by number; only visits by the propagator cost time, on random clauses nearly all of it.

use crate::NoMemory;
use bb_watch::{Propagator, Side, read};
use std::alloc::Global;

// At first 500 learned clauses are watched, and one more for each three given ones, so that large inputs keep more.
const LEAST: usize = 500;

/// `uses[i]` is the last conflict that used learned clause `i`, counted from 1; 0 where it is not watched.
#[derive(Drop)]
pub(crate) struct Reduction {
    given: usize,
    uses: Vec<u32>,
    conflicts: u32,
    watched: usize,
    limit: usize,
}

impl Reduction {
    pub(crate) fn new(alloc: Global) -> Reduction {
        Reduction {
            given: 0,
            uses: Vec::new(alloc),
            conflicts: 0,
            watched: 0,
            limit: 0,
        }
    }

    pub(crate) fn more_given(&mut self, given: usize) {
        self.given = given;
        self.limit = self.limit.max((given / 3).saturating_add(LEAST));
    }

    pub(crate) fn begin(&mut self) {
        self.conflicts = self.conflicts.saturating_add(1);
    }

    pub(crate) fn uses(&mut self, number: usize) {
        if number >= self.given {
            let place = number - self.given;
            if place < self.uses.len() && self.uses[place] > 0 {
                self.uses[place] = self.conflicts;
            }
        }
    }

    pub(crate) fn learned(&mut self) -> Result<(), NoMemory> {
        self.uses.push(self.conflicts)?;
        self.watched = self.watched.saturating_add(1);
        Ok(())
    }

    fn middle(&self, alloc: Global) -> Result<u32, NoMemory> {
        let mut uses = Vec::new(alloc);
        for number in &self.uses {
            if *number > 0 {
                uses.push(*number)?;
            }
        }
        uses.sort()?;
        Ok(read(&uses, u32::try_from(uses.len() / 2).unwrap_or(0)))
    }

    fn forget(&mut self, conflict: u32, propagator: &mut Propagator) {
        for place in 0..self.uses.len() {
            if 0 < self.uses[place] && self.uses[place] < conflict {
                self.uses[place] = 0;
                self.watched = self.watched.saturating_sub(1);
                let number = u32::try_from(place).unwrap_or(u32::MAX);
                propagator.forget(Side::Second, number);
            }
        }
    }

    /// The limit grows by a fortieth each time, so reductions become rarer.
    pub(crate) fn reduce(
        &mut self,
        alloc: Global,
        propagator: &mut Propagator,
    ) -> Result<(), NoMemory> {
        if self.watched > self.limit {
            let middle = self.middle(alloc)?;
            self.forget(middle, propagator);
            self.limit = self.limit.saturating_add(self.limit / 40);
        }
        Ok(())
    }
}
