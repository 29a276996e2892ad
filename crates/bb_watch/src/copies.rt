//! Copies of all clauses in one list of 32-bit codes. The clauses themselves are lists of eight-byte literals with an
//! allocation for each longer one; a copy is half as long, and neighbours in memory are visited together. It is the
//! only copy that is made of given clauses.

use crate::NoMemory;
use crate::codes::{Code, is_false, is_true};
use bb_cnf::Lit;
use std::alloc::Global;

/// The literals that are not false. `More` also where one of them is true: nothing comes of such a clause.
#[derive(Clone, Copy, Debug)]
pub(crate) enum Left {
    None,
    One(Code),
    More,
}

/// Each clause ends with `NOTHING`, so a place suffices to find it and no length is kept.
#[derive(Drop)]
pub(crate) struct Copies {
    codes: Vec<Code>,
}

impl Copies {
    pub(crate) fn new(alloc: Global) -> Copies {
        Copies {
            codes: Vec::new(alloc),
        }
    }

    /// The place at which the copy begins, by which lists name it.
    pub(crate) fn add(&mut self, clause: &[Lit]) -> Result<u32, NoMemory> {
        let place = u32::try_from(self.codes.len()).unwrap_or(u32::MAX);
        for lit in clause {
            self.codes.push(Code::of(*lit))?;
        }
        self.codes.push(Code::NOTHING)?;
        Ok(place)
    }

    /// The first literal that is not false and is not `but`, or none.
    #[inline(always)]
    pub(crate) fn not_false(&self, place: u32, marks: &[bool], but: Code) -> Option<Code> {
        // `NOTHING` is not marked, and so ends the clause.
        for code in self.codes.get(place as usize..).unwrap_or(&[]) {
            if !is_false(marks, *code) && *code != but {
                return if *code == Code::NOTHING {
                    None
                } else {
                    Some(*code)
                };
            }
        }
        None
    }

    pub(crate) fn left(&self, place: u32, marks: &[bool]) -> Left {
        match self.not_false(place, marks, Code::OTHER) {
            None => Left::None,
            Some(code) => {
                if is_true(marks, code) || self.not_false(place, marks, code).is_some() {
                    Left::More
                } else {
                    Left::One(code)
                }
            }
        }
    }
}
