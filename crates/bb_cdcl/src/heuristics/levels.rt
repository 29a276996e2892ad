//! Decision levels and trail places by variable, as hints for backjumping, watches and minimization. Kept apart from
//! the trail, which has only what is proved, so no invariant ties these numbers to it.

use crate::NoMemory;
use crate::examination::value;
use crate::trail::Entry;
use bb_cnf::Lit;
use bb_watch::{read, write};
use smallvec::SmallVec;
use std::alloc::Global;

/// Entries of unassigned variables are stale. `level` is that of the trail's end.
#[derive(Drop)]
pub(crate) struct Levels {
    levels: Vec<u32>,
    places: Vec<u32>,
    level: u32,
}

impl Levels {
    pub(crate) fn new(alloc: Global, vars: u32) -> Result<Levels, NoMemory> {
        let size = vars as usize + 1;
        Ok(Levels {
            levels: vec![in alloc; 0; size]?,
            places: vec![in alloc; 0; size]?,
            level: 0,
        })
    }

    pub(crate) fn widen(&mut self, vars: u32) -> Result<(), NoMemory> {
        let size = vars as usize + 1;
        self.levels.resize(size, 0)?;
        self.places.resize(size, 0)
    }

    pub(crate) fn decided(&mut self, lit: Lit, place: usize) {
        self.level = self.level.saturating_add(1);
        self.implied(lit, place);
    }

    pub(crate) fn implied(&mut self, lit: Lit, place: usize) {
        write(&mut self.levels, lit.var, self.level);
        let place = u32::try_from(place).unwrap_or(0);
        write(&mut self.places, lit.var, place);
    }

    pub(crate) fn undecided(&mut self) {
        self.level = self.level.saturating_sub(1);
    }

    pub(crate) fn place(&self, var: u32) -> usize {
        read(&self.places, var) as usize
    }

    pub(crate) fn of(&self, var: u32) -> u32 {
        read(&self.levels, var)
    }

    pub(crate) fn is_root(&self, var: u32) -> bool {
        self.of(var) == 0
    }

    /// How many entries are of this level or a lower one. Levels never fall along the trail, so a binary search finds
    /// it.
    pub(crate) fn end_of(&self, entries: &[Entry], level: u32) -> usize {
        entries.partition_point(|entry| self.of(entry.lit.var) <= level)
    }

    pub(crate) fn highest(&self, clause: &[Lit]) -> u32 {
        let mut highest = 0;
        for lit in clause {
            highest = self.of(lit.var).max(highest);
        }
        highest
    }

    // The level on which the literal became false; `u32::MAX` where it is not false.
    fn falls(&self, lit: Lit, values: &[Option<bool>]) -> u32 {
        if value(values, lit.var) == Some(lit.neg) {
            self.of(lit.var)
        } else {
            u32::MAX
        }
    }

    /// The two literals to watch: not false, or false on the highest levels. Both are the same where the clause has one
    /// literal.
    pub(crate) fn last_two(&self, clause: &[Lit], values: &[Option<bool>]) -> (Lit, Lit) {
        let none = Lit { var: 0, neg: false };
        let mut first = clause.first().copied().unwrap_or(none);
        let mut second = clause.last().copied().unwrap_or(none);
        for lit in clause {
            let level = self.falls(*lit, values);
            if level > self.falls(first, values) {
                second = first;
                first = *lit;
            } else if *lit != first && level > self.falls(second, values) || second == first {
                second = *lit;
            }
        }
        (first, second)
    }

    fn holds_since(&self, lit: Lit, level: u32, values: &[Option<bool>]) -> bool {
        value(values, lit.var) == Some(!lit.neg) && self.of(lit.var) <= level
    }

    // The highest level on which the clause has two literals that are not false, or implies one no later than it could.
    fn backjump_level_of(&self, clause: &[Lit], values: &[Option<bool>]) -> u32 {
        let (first, second) = self.last_two(clause, values);
        let high = self.falls(first, values);
        let low = if second == first {
            0
        } else {
            self.falls(second, values)
        };
        if self.holds_since(first, low, values) {
            u32::MAX
        } else if high > low {
            low
        } else {
            low.saturating_sub(1)
        }
    }

    /// The lowest of the levels that these clauses need; `u32::MAX` where the trail may stay.
    pub(crate) fn backjump_level(
        &self,
        clauses: &[SmallVec<Lit, 4>],
        values: &[Option<bool>],
    ) -> u32 {
        let mut level = u32::MAX;
        for clause in clauses {
            level = level.min(self.backjump_level_of(clause.as_slice(), values));
        }
        level
    }
}
