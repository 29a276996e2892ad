//! SAT sweeping (Kuehlmann 2004): cells are merged from the inputs on, each pair after the solver refuted on a window
//! that they differ. Candidates come from simulation and windows are guesses; only the refutation counts, and it goes
//! into no printed proof, since equivalence here only ends the search for a counterexample.

ghost use Rattle.std.specs.Prelude.{◌≡◌, ◌+◌, ◌<◌, ◌≤◌, ◌^◌, [], length, IfOk, IfSome, OnOk};
ghost use Rattle.bb_expand.specs.Inside.Cones.{IfOne, IfZero};
ghost use Rattle.bb_strash.specs.Inside.Extensions.{bit, Extends, Gives};

use crate::cones::{Effort, search_cell};
use crate::merge_candidates::{Candidate, Classes};
use crate::search_result::SearchResult;
use bb_bits::NoMemory;
use bb_net::{Cell, Net};
use bb_strash::{Hashed, Merger, bits};
use std::alloc::Global;

// Two efforts: a window that is UNSAT settles the candidate whatever its size, so the large one is tried only where the
// small one gives up.
const NEAR: Effort = Effort {
    gates: 64,
    clauses: 1_000,
    learned: 100,
};

const FAR: Effort = Effort {
    gates: 4_000,
    clauses: 60_000,
    learned: 1_000,
};

// The budget of failures: a candidate refuted by a vector costs 1, one left open `LEFT_OPEN`. Refuting vectors are kept
// until there are `KEPT`, since refinement walks over all cells.
const FAILED: u32 = 4_000;

const LEFT_OPEN: u32 = 250;

const KEPT: usize = 32;

#[derive(Debug, Drop)]
pub(crate) struct Sweep<'a> {
    net: &'a Net,
    classes: Classes,
    // Vectors that separate candidates and are not yet in the classes.
    against: Vec<Vec<bool>>,
    failed: u32,
}

// `against` is the vector that separates the two, where one was found.
#[derive(Debug, Drop)]
struct Settled {
    place: u32,
    failed: bool,
    against: Option<Vec<bool>>,
}

// Hashing makes the complement only once.
fn candidate_at(hashed: &mut Hashed, candidate: Candidate) -> Result<u32, NoMemory>
    requires none { hashed.old.boxes ≡ [] }
    requires there { candidate.place < length hashed.old.cells }
    requires room { length hashed.old.cells + 5 < 2 ^ 32 }
    ensures extends { OnOk result (Extends hashed.old hashed.new 5) }
    ensures there { IfOk result (λ place. place < length hashed.new.cells) }
{
    let _ = hashed.net();
    if candidate.inverse {
        hashed.add(Cell::Not(candidate.place))
    } else {
        Ok(candidate.place)
    }
}

fn search_near(alloc: Global, net: &Net, place: u32) -> Result<SearchResult, NoMemory>
    requires none { net.now.boxes ≡ [] }
    requires there { place < length net.now.cells }
    ensures one { IfOk result (IfOne net.now place) }
    ensures zero { IfOk result (IfZero net.now place) }
{
    match search_cell(alloc, net, place, NEAR)? {
        SearchResult::GivenUp => search_cell(alloc, net, place, FAR),
        answer => Ok(answer),
    }
}

// The candidate where it equals the cell at every vector, else the cell itself. The question is whether their xor is
// ever 1; that xor stays in the netlist, unread.
fn settle(
    alloc: Global,
    hashed: &mut Hashed,
    candidate: Candidate,
    place: u32,
) -> Result<Settled, NoMemory>
    requires none { hashed.old.boxes ≡ [] }
    requires there { place < length hashed.old.cells }
    requires other { candidate.place < length hashed.old.cells }
    requires room { length hashed.old.cells + 10 < 2 ^ 32 }
    ensures extends { OnOk result (Extends hashed.old hashed.new 10) }
    ensures gives { IfOk result (λ s. Gives hashed.new s.place (λ x. bit hashed.old x place)) }
{
    bits();
    let other = candidate_at(hashed, candidate)?;
    let difference = hashed.add(Cell::Xor(other, place))?;
    match search_near(alloc, hashed.net(), difference)? {
        SearchResult::Nowhere => Ok(Settled {
            place: other,
            failed: false,
            against: None,
        }),
        SearchResult::At(x) => Ok(Settled {
            place,
            failed: true,
            against: Some(x),
        }),
        SearchResult::GivenUp => Ok(Settled {
            place,
            failed: true,
            against: None,
        }),
    }
}

impl<'a> Sweep<'a> {
    pub(crate) fn of(alloc: Global, net: &'a Net) -> Result<Sweep<'a>, NoMemory>
        requires { net.now.inputs ≤ 2048 }
    {
        Ok(Sweep {
            net,
            classes: Classes::of(alloc, net)?,
            against: Vec::new(alloc),
            failed: 0,
        })
    }

    // Constants and inputs stay, since the new netlist has them at fixed places. A candidate counts only where the new
    // netlist has that cell: nothing else is known of the classes.
    fn candidate(&self, number: usize, places: usize) -> Option<Candidate>
        ensures { IfSome result (λ c. c.place < places) }
    {
        if self.failed >= FAILED || number < self.net.inputs() as usize + 2 {
            return None;
        }
        let candidate = self.classes.candidate(number)?;
        if (candidate.place as usize) < places {
            Some(candidate)
        } else {
            None
        }
    }

    fn note(
        &mut self,
        alloc: Global,
        failed: bool,
        against: Option<Vec<bool>>,
    ) -> Result<(), NoMemory> {
        match against {
            Some(x) => {
                self.failed = self.failed.saturating_add(1);
                self.against.push(x)?;
            }
            None if failed => self.failed = self.failed.saturating_add(LEFT_OPEN),
            None => {}
        }
        if self.against.len() >= KEPT {
            self.classes.refine(alloc, self.net, &self.against)?;
            self.against.clear();
        }
        Ok(())
    }
}

impl<'a> Merger for Sweep<'a> {
    fn merge(
        &mut self,
        alloc: Global,
        hashed: &mut Hashed,
        number: usize,
        place: u32,
    ) -> Result<u32, NoMemory> {
        let count = hashed.net().cells().len();
        let Some(candidate) = self.candidate(number, count) else {
            self.classes.enter(place)?;
            return Ok(place);
        };
        let Settled {
            place,
            failed,
            against,
        } = settle(alloc, hashed, candidate, place)?;
        self.note(alloc, failed, against)?;
        self.classes.enter(place)?;
        Ok(place)
    }
}
