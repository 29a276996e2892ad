//! The decision heuristic and the notes of one conflict analysis: VSIDS scores (Een and Soerensson 2003, the form with
//! growing rewards), the last bit of each variable as its next one (phase saving), levels, and unit clauses of level 0.
//! Every entry is a hint: reads out of range give a default, and the proved code tests what it takes from here.

mod levels;
mod reduction;
mod scores;

use crate::NoMemory;
use crate::examination::value;
use crate::heuristics::levels::Levels;
use crate::heuristics::reduction::Reduction;
use crate::heuristics::scores::Scores;
use crate::spare::Spare;
use crate::trail::Entry;
use bb_cnf::{Lit, PartialResolvent};
use bb_watch::{read, write};
use std::alloc::Global;

/// `top` is the level of the conflict and `open` how many of its literals the resolvent has; `found[..count]` are the
/// variables of its literals of other levels. `units[v]` is 1 more than the number of the unit clause of `v`; 0 is
/// none.
#[derive(Drop)]
pub(crate) struct Heuristic {
    scores: Scores,
    bits: Vec<bool>,
    pub(crate) levels: Levels,
    top: u32,
    open: usize,
    found: Vec<u32>,
    count: usize,
    units: Vec<u32>,
    pub(crate) reduction: Reduction,
    pub(crate) spare: Spare,
}

// Marks a unit clause that will be made, so that it is not queued twice.
const AWAITED: u32 = u32::MAX;

impl Heuristic {
    pub(crate) fn new(alloc: Global, vars: u32) -> Result<Heuristic, NoMemory> {
        let size = vars as usize + 1;
        Ok(Heuristic {
            scores: Scores::new(alloc, vars)?,
            bits: vec![in alloc; false; size]?,
            levels: Levels::new(alloc, vars)?,
            top: 0,
            open: 0,
            found: vec![in alloc; 0; size]?,
            count: 0,
            units: vec![in alloc; 0; size]?,
            reduction: Reduction::new(alloc),
            spare: Spare::new(alloc),
        })
    }

    pub(crate) fn widen(&mut self, vars: u32) -> Result<(), NoMemory> {
        let size = vars as usize + 1;
        self.scores.widen(vars)?;
        self.bits.resize(size, false)?;
        self.levels.widen(vars)?;
        self.found.resize(size, 0)?;
        self.units.resize(size, 0)
    }

    /// Only variables of clauses enter the heap, so bits of tables that no clause mentions are never decided.
    pub(crate) fn meets(&mut self, clause: &[Lit], values: &[Option<bool>]) {
        for lit in clause {
            if value(values, lit.var).is_none() {
                self.scores.insert(lit.var);
            }
        }
    }

    /// Numbers of learned unit clauses move by the number of new given clauses. Unit clauses belong to variables of
    /// level 0, so it is enough to walk `entries`.
    pub(crate) fn more_given(&mut self, known: usize, given: usize, entries: &[Entry]) {
        self.reduction.more_given(given);
        for entry in entries {
            match self.unit(entry.lit.var) {
                Some(number) if number >= known => {
                    let moved = (number - known).saturating_add(given);
                    self.has_unit(entry.lit.var, moved);
                }
                _ => {}
            }
        }
    }

    /// The unassigned variable with the highest score, with its last bit. Assigned variables are dropped from the heap
    /// only here, so that assigning costs nothing; backtracking puts them back.
    pub(crate) fn pick(&mut self, values: &[Option<bool>]) -> Option<Lit> {
        for _ in 0..values.len() {
            let var = self.scores.pop()?;
            if let Some(None) = values.get(var as usize) {
                let bit = match self.bits.get(var as usize) {
                    Some(bit) => *bit,
                    None => false,
                };
                return Some(Lit { var, neg: !bit });
            }
        }
        None
    }

    /// Also returns a number while the clause is only queued; who uses it checks that the clause has one literal.
    pub(crate) fn unit(&self, var: u32) -> Option<usize> {
        match read(&self.units, var) {
            0 => None,
            next => Some(next as usize - 1),
        }
    }

    pub(crate) fn has_unit(&mut self, var: u32, number: usize) {
        let number = u32::try_from(number).unwrap_or(AWAITED);
        write(&mut self.units, var, number.saturating_add(1));
    }

    pub(crate) fn awaits_unit(&mut self, var: u32) {
        write(&mut self.units, var, AWAITED);
    }

    pub(crate) fn taken_back(&mut self, lit: Lit, decided: bool) {
        if decided {
            self.levels.undecided();
        }
        if (lit.var as usize) < self.bits.len() {
            self.bits[lit.var as usize] = !lit.neg;
        }
        self.scores.insert(lit.var);
    }

    fn finds(&mut self, var: u32) {
        self.scores.reward(var);
        if self.levels.of(var) == self.top {
            self.open = self.open.saturating_add(1);
        } else if self.count < self.found.len() {
            self.found[self.count] = var;
            self.count += 1;
        }
    }

    pub(crate) fn found(&self) -> &[u32] {
        let count = self.count.min(self.found.len());
        &self.found[..count]
    }

    /// Rewards what the clause adds to the resolvent. `but` is resolved away, so it is not added.
    pub(crate) fn adds(&mut self, resolvent: &PartialResolvent, clause: &[Lit], but: u32) {
        for lit in clause {
            if lit.var != but && !resolvent.has(*lit) {
                self.finds(lit.var);
            }
        }
    }

    pub(crate) fn begin(&mut self, resolvent: &PartialResolvent, clause: &[Lit], number: usize) {
        self.top = self.levels.highest(clause);
        self.open = 0;
        self.count = 0;
        self.scores.age();
        self.reduction.begin();
        self.reduction.uses(number);
        // Variable 0 does not exist, so nothing is left out.
        self.adds(resolvent, clause, 0);
    }

    /// `var` is the variable resolved on. It got its reward when its negation entered the resolvent: one reward a
    /// conflict.
    pub(crate) fn resolves(
        &mut self,
        resolvent: &PartialResolvent,
        clause: &[Lit],
        number: usize,
        var: u32,
    ) {
        self.reduction.uses(number);
        self.adds(resolvent, clause, var);
        self.open = self.open.saturating_sub(1);
    }

    /// A hint that the first unique implication point is reached; a wrong one costs time only. On level 0 it never is,
    /// since there the empty clause is the goal.
    pub(crate) fn is_asserting(&self) -> bool {
        self.open <= 1 && self.top > 0
    }
}
