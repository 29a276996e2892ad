//! Runs unit propagation ahead of its caller's trail, over copies of the clauses, until a clause is false or nothing is
//! left. What it found is handed out one by one: the caller examines the clause that is named and puts the literal on
//! its own trail, or takes the propagator back. Running ahead keeps the inner loop on compact data, and the proved code
//! out of it.

use crate::NoMemory;
use crate::codes::Code;
use crate::copies::Copies;
use crate::false_literals::FalseLiterals;
use crate::watch_lists::{Last, Watches};
use bb_cnf::Lit;
use std::alloc::Global;

/// Two sets of clauses with numbers of their own, so that one can grow without renumbering the other. The second is
/// visited only where the first has no consequence left.
#[derive(Clone, Copy, Debug)]
pub enum Side {
    First,
    Second,
}

/// A clause that is false or has one literal left, if the watches are right.
#[derive(Clone, Copy, Debug)]
pub struct Found {
    pub side: Side,
    pub number: u32,
}

// The caller made the literal false.
const NO_CLAUSE: Found = Found {
    side: Side::First,
    number: u32::MAX,
};

/// The false literals include those that were found ahead and not handed out yet. `conflict` is a clause that is false
/// with all of them.
#[derive(Drop)]
pub struct Propagator {
    copies: Copies,
    first: Watches,
    second: Watches,
    falses: FalseLiterals,
    conflict: Option<Found>,
}

impl Propagator {
    /// Room for `first` and `second` clauses.
    pub fn new(
        alloc: Global,
        vars: u32,
        first: usize,
        second: usize,
    ) -> Result<Propagator, NoMemory> {
        Ok(Propagator {
            copies: Copies::new(alloc),
            first: Watches::new(alloc, vars, first)?,
            second: Watches::new(alloc, vars, second)?,
            falses: FalseLiterals::new(alloc, vars)?,
            conflict: None,
        })
    }

    /// For variables up to `vars`; never fewer than before.
    pub fn widen(&mut self, vars: u32) -> Result<(), NoMemory> {
        self.first.widen(vars)?;
        self.second.widen(vars)?;
        self.falses.widen(vars)
    }

    fn watches_mut(&mut self, side: Side) -> &mut Watches {
        match side {
            Side::First => &mut self.first,
            Side::Second => &mut self.second,
        }
    }

    /// The clause gets the next number of its side.
    pub fn watch(
        &mut self,
        side: Side,
        clause: &[Lit],
        first: Lit,
        second: Lit,
    ) -> Result<(), NoMemory> {
        let copy = self.copies.add(clause)?;
        self.watches_mut(side)
            .add(copy, Code::of(first), Code::of(second))
    }

    /// Both sides watch the same copy, so a clause on both is held once.
    pub fn watch_again(&mut self, number: u32, first: Lit, second: Lit) -> Result<(), NoMemory> {
        let copy = self.second.copy(number);
        self.first.add(copy, Code::of(first), Code::of(second))
    }

    /// Its watches are dropped when their lists are next walked: to find them at once would need a list in both
    /// directions.
    pub fn forget(&mut self, side: Side, number: u32) {
        self.watches_mut(side).forget(number);
    }

    /// Includes literals that were found ahead of the caller's trail.
    pub fn len(&self) -> usize {
        self.falses.len()
    }

    /// A literal that the caller made false. It must not be false yet.
    pub fn make_false(&mut self, lit: Lit) {
        self.falses.add(Code::of(lit), NO_CLAUSE);
    }

    /// Back to the first `place` literals. Watches need no repair: two literals that were not false then are not false
    /// now.
    pub fn take_back(&mut self, place: usize) {
        self.first.taken_back(place);
        self.second.taken_back(place);
        self.falses.take_back(place);
        self.conflict = None;
    }

    fn find(&mut self) -> Option<(Side, Last)> {
        if let Some(last) = self.first.find(&self.copies, &self.falses) {
            return Some((Side::First, last));
        }
        let last = self.second.find(&self.copies, &self.falses)?;
        Some((Side::Second, last))
    }

    // Each round makes a literal false or ends, so the number of literals bounds the rounds.
    fn run(&mut self) {
        for _ in 0..self.falses.marks().len().saturating_add(1) {
            let Some((side, last)) = self.find() else {
                return;
            };
            let number = last.number;
            match last.left {
                Some(code) => self.falses.add(code.negation(), Found { side, number }),
                None => {
                    self.conflict = Some(Found { side, number });
                    return;
                }
            }
        }
    }

    /// The clause that implied the literal at `place`, or the false clause where nothing was found after `place`. The
    /// propagator runs only where its lead is used up.
    pub fn next(&mut self, place: usize) -> Option<Found> {
        if place >= self.falses.len() && self.conflict.is_none() {
            self.run();
        }
        match self.falses.found(place) {
            Some(found) => Some(found),
            None => self.conflict,
        }
    }
}
