//! Which clauses are watched first. A solver's proof has many clauses that it deletes after a while, and deletions are
//! passed over here, so of most additions nothing comes any more: an addition without a consequence for 4,096 additions
//! is idle. Two passes follow the trail: over the clauses in use, and over all only where those give nothing. Idle
//! clauses leave the first pass in batches, every 1,024 additions, so no visit has to test for them. No answer depends
//! on which clauses are idle.

use crate::NoMemory;
use crate::watching::two_of;
use bb_cnf::Lit;
use bb_watch::{Clauses, Found, Propagator, Side, read, write};
use std::alloc::Global;

// An addition is idle after so many additions without a consequence of it.
const IDLE: u32 = 4096;

// How many additions pass between two removals of idle clauses.
const SORTING: u32 = 1024;

const LEFT_OUT: u32 = u32::MAX;

/// The propagator's first side has the clauses in use, its second side has all clauses. Both watch one copy of a
/// clause.
#[derive(Drop)]
pub(crate) struct Search {
    propagator: Propagator,
    // The clause number of each clause of the first side, or `LEFT_OUT`.
    owners: Vec<u32>,
    // For each clause: the addition at which it last had a consequence, and whether it is on the first side.
    used: Vec<u32>,
    is_active: Vec<bool>,
    // Idle clauses that had a consequence during this addition.
    met: Vec<u32>,
    // Given clauses are never idle. `turn` is the number of the addition.
    given: usize,
    turn: u32,
}

// Puts clauses back on the first side, with fresh watches for the literals that are false now.
fn watch_again(
    propagator: &mut Propagator,
    owners: &mut Vec<u32>,
    marks: &[bool],
    clauses: &Clauses<'_>,
    met: &[u32],
) -> Result<(), NoMemory> {
    for number in met {
        if (*number as usize) < clauses.len() {
            let (first, second) = two_of(clauses.at(*number as usize), marks);
            propagator.watch_again(*number, first, second)?;
            owners.push(*number)?;
        }
    }
    Ok(())
}

impl Search {
    /// Room for `count` clauses on each side, the given ones and the additions.
    pub(crate) fn new(
        alloc: Global,
        vars: u32,
        given: usize,
        count: usize,
    ) -> Result<Search, NoMemory> {
        Ok(Search {
            propagator: Propagator::new(alloc, vars, count, count)?,
            owners: Vec::new(alloc),
            used: Vec::new(alloc),
            is_active: Vec::new(alloc),
            met: Vec::new(alloc),
            given,
            turn: 0,
        })
    }

    /// The propagator runs ahead of the trail, but literals that the trail got from an addition are new to it.
    pub(crate) fn catch_up(&mut self, lits: &[Lit]) {
        for place in self.propagator.len()..lits.len() {
            self.propagator.make_false(lits[place]);
        }
    }

    pub(crate) fn take_back(&mut self, place: usize) {
        self.propagator.take_back(place);
    }

    /// A hint, for a trail with `place` literals: the clause may have no consequence after all.
    pub(crate) fn next(&mut self, place: usize) -> Option<usize> {
        let found = self.propagator.next(place)?;
        Some(self.number(found) as usize)
    }

    fn number(&self, found: Found) -> u32 {
        match found.side {
            Side::First => read(&self.owners, found.number),
            Side::Second => found.number,
        }
    }

    fn is_idle(&self, number: u32) -> bool {
        let used = read(&self.used, number);
        number as usize >= self.given && self.turn.saturating_sub(used) > IDLE
    }

    // The watches of the clause leave their lists when the propagator meets them.
    fn leave_out(&mut self, first: u32, number: u32) {
        self.propagator.forget(Side::First, first);
        write(&mut self.owners, first, LEFT_OUT);
        if (number as usize) < self.is_active.len() {
            self.is_active[number as usize] = false;
        }
    }

    fn sort_out(&mut self) {
        let count = u32::try_from(self.owners.len()).unwrap_or(u32::MAX);
        for first in 0..count {
            let number = read(&self.owners, first);
            if number != LEFT_OUT && self.is_idle(number) {
                self.leave_out(first, number);
            }
        }
    }

    /// An idle clause is put back by `go_on`, when the literals that it is to watch are no longer false.
    pub(crate) fn came(&mut self, number: usize) -> Result<(), NoMemory> {
        let number_32 = u32::try_from(number).unwrap_or(0);
        write(&mut self.used, number_32, self.turn);
        if number < self.is_active.len() && !self.is_active[number] {
            self.is_active[number] = true;
            self.met.push(number_32)?;
        }
        Ok(())
    }

    /// Clauses are added in the order of their numbers. A new one is in use.
    pub(crate) fn add(&mut self, marks: &[bool], clause: &[Lit]) -> Result<(), NoMemory> {
        let number = u32::try_from(self.used.len()).unwrap_or(0);
        let (first, second) = two_of(clause, marks);
        self.propagator.watch(Side::Second, clause, first, second)?;
        self.propagator.watch_again(number, first, second)?;
        self.owners.push(number)?;
        self.used.push(self.turn)?;
        self.is_active.push(true)?;
        Ok(())
    }

    /// Ends an addition: the trail is back at `place`, so idle clauses that had a consequence can be watched again by
    /// literals that are not false.
    pub(crate) fn go_on(
        &mut self,
        place: usize,
        marks: &[bool],
        clauses: &Clauses<'_>,
    ) -> Result<(), NoMemory> {
        self.propagator.take_back(place);
        self.turn = self.turn.saturating_add(1);
        watch_again(
            &mut self.propagator,
            &mut self.owners,
            marks,
            clauses,
            &self.met,
        )?;
        self.met.clear();
        if self.turn % SORTING == 0 {
            self.sort_out();
        }
        Ok(())
    }
}
