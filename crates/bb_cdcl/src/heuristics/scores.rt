//! A binary heap of variables by VSIDS score, in integers: rewards grow by a sixteenth a conflict, which ages all older
//! scores at once, and everything is shifted down when a score passes 2^60. Ties go to the lower variable, so the order
//! is a function of the scores and runs repeat.

use crate::NoMemory;
use bb_watch::{read, write};
use std::alloc::Global;

// A score above `BOUND` shifts all scores and the reward right by `HALVES` bits.
const BOUND: u64 = 1 << 60;

const HALVES: u32 = 40;

/// A heap from place 1 on, so the parent of `i` is `i / 2`. `sites[v]` is the place of `v`, or 0.
#[derive(Drop)]
pub(crate) struct Scores {
    scores: Vec<u64>,
    reward: u64,
    heap: Vec<u32>,
    count: u32,
    sites: Vec<u32>,
}

impl Scores {
    pub(crate) fn new(alloc: Global, vars: u32) -> Result<Scores, NoMemory> {
        let size = vars as usize + 1;
        Ok(Scores {
            scores: vec![in alloc; 0; size]?,
            reward: 1 << 20,
            heap: vec![in alloc; 0; size]?,
            count: 0,
            sites: vec![in alloc; 0; size]?,
        })
    }

    pub(crate) fn widen(&mut self, vars: u32) -> Result<(), NoMemory> {
        let size = vars as usize + 1;
        self.scores.resize(size, 0)?;
        self.heap.resize(size, 0)?;
        self.sites.resize(size, 0)
    }

    fn score(&self, var: u32) -> u64 {
        match self.scores.get(var as usize) {
            Some(score) => *score,
            None => 0,
        }
    }

    fn is_before(&self, a: u32, b: u32) -> bool {
        let (high, low) = (self.score(a), self.score(b));
        high > low || (high == low && a < b)
    }

    fn put(&mut self, place: u32, var: u32) {
        write(&mut self.heap, place, var);
        write(&mut self.sites, var, place);
    }

    fn rise(&mut self, place: u32) {
        let var = read(&self.heap, place);
        let mut at = place;
        while at > 1 {
            let above = read(&self.heap, at / 2);
            if !self.is_before(var, above) {
                break;
            }
            self.put(at, above);
            at /= 2;
        }
        self.put(at, var);
    }

    // The child that comes first, with its place; none at a leaf.
    fn below(&self, place: u32) -> Option<(u32, u32)> {
        let left = place.saturating_mul(2);
        if left > self.count {
            return None;
        }
        let first = read(&self.heap, left);
        let right = left.saturating_add(1);
        let second = read(&self.heap, right);
        if right <= self.count && self.is_before(second, first) {
            Some((right, second))
        } else {
            Some((left, first))
        }
    }

    // The hole goes down from the root. 32 levels are enough for variables of 32 bits.
    fn sink(&mut self, var: u32) {
        let mut at: u32 = 1;
        for _ in 0..32 {
            match self.below(at) {
                Some((next, other)) if self.is_before(other, var) => {
                    self.put(at, other);
                    at = next;
                }
                _ => break,
            }
        }
        self.put(at, var);
    }

    fn is_there(&self, var: u32) -> bool {
        let site = read(&self.sites, var);
        0 < site && site <= self.count
    }

    /// No effect on variable 0 or on one that is in the heap.
    pub(crate) fn insert(&mut self, var: u32) {
        if var > 0 && !self.is_there(var) {
            self.count = self.count.saturating_add(1);
            write(&mut self.heap, self.count, var);
            write(&mut self.sites, var, self.count);
            self.rise(self.count);
        }
    }

    pub(crate) fn pop(&mut self) -> Option<u32> {
        if self.count == 0 {
            return None;
        }
        let first = read(&self.heap, 1);
        let last = read(&self.heap, self.count);
        self.count = self.count.saturating_sub(1);
        if self.count > 0 {
            self.sink(last);
        }
        write(&mut self.sites, first, 0);
        Some(first)
    }

    fn halve(&mut self) {
        for score in self.scores.iter_mut() {
            *score >>= HALVES;
        }
        self.reward = (self.reward >> HALVES).max(1);
    }

    pub(crate) fn reward(&mut self, var: u32) {
        if (var as usize) < self.scores.len() {
            let score = self.scores[var as usize].saturating_add(self.reward);
            self.scores[var as usize] = score;
            if score > BOUND {
                self.halve();
            }
            if self.is_there(var) {
                let site = read(&self.sites, var);
                self.rise(site);
            }
        }
    }

    /// Growing the reward decays all scores without a walk over them.
    pub(crate) fn age(&mut self) {
        self.reward = self.reward.saturating_add(self.reward >> 4);
    }
}
