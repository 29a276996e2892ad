//! The false literals in the order in which they became so, each with the clause that implied it. All room is taken
//! when variables are added, so the inner loop of propagation neither allocates nor fails.

use crate::NoMemory;
use crate::codes::{Code, mark};
use crate::propagator::Found;
use std::alloc::Global;

// `found` names the clause whose other literals were false.
#[derive(Clone, Copy, Debug)]
struct Fall {
    code: Code,
    found: Found,
}

// Both signs of each variable, and of variable 0, which is none.
fn literals(vars: u32) -> usize {
    2 * (vars as usize + 1)
}

/// Room for each literal once is taken beforehand, so that `add` neither fails nor passes over a literal for lack of
/// memory.
#[derive(Drop)]
pub(crate) struct FalseLiterals {
    marks: Vec<bool>,
    falls: Vec<Fall>,
}

impl FalseLiterals {
    pub(crate) fn new(alloc: Global, vars: u32) -> Result<FalseLiterals, NoMemory> {
        Ok(FalseLiterals {
            marks: vec![in alloc; false; literals(vars)]?,
            falls: Vec::with_capacity(alloc, literals(vars))?,
        })
    }

    /// Keeps room for each literal once.
    pub(crate) fn widen(&mut self, vars: u32) -> Result<(), NoMemory> {
        let count = literals(vars);
        self.falls.reserve(count.saturating_sub(self.falls.len()))?;
        self.marks.resize(count, false)
    }

    #[inline]
    pub(crate) fn len(&self) -> usize {
        self.falls.len()
    }

    #[inline]
    pub(crate) fn marks(&self) -> &[bool] {
        &self.marks
    }

    #[inline]
    pub(crate) fn code(&self, place: usize) -> Code {
        match self.falls.get(place) {
            Some(fall) => fall.code,
            None => Code::NOTHING,
        }
    }

    /// A place beyond the list has none.
    #[inline]
    pub(crate) fn found(&self, place: usize) -> Option<Found> {
        let fall = self.falls.get(place)?;
        Some(fall.found)
    }

    /// The literal is not false yet, so the room suffices.
    #[inline]
    pub(crate) fn add(&mut self, code: Code, found: Found) {
        if self.falls.push(Fall { code, found }).is_ok() {
            mark(&mut self.marks, code, true);
        }
    }

    fn pop(&mut self) {
        if let Some(last) = self.falls.pop() {
            mark(&mut self.marks, last.code, false);
        }
    }

    pub(crate) fn take_back(&mut self, place: usize) {
        for _ in place..self.falls.len() {
            self.pop();
        }
    }
}
