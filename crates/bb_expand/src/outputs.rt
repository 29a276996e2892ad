//! Counterexample search in the miter of two netlists, cheap steps first. Gates are hashed as the miter is built, so a
//! design beside itself needs no search. Few learned clauses are spent on all outputs together, whose vectors are of
//! more kinds than those of the first output; then small BDDs, for tables, register files and state machines. BDDs are
//! not first since they give the least vector, and of such more are needed. Then each output has its cone, and where
//! some stay open, SAT sweeping and once more each output.

ghost use Rattle.std.specs.Prelude.{◌≡◌, ◌≤◌, [], IfOk};
ghost use Rattle.bb_miter.specs.Inside.Equivalence.{AreComparable};
ghost use Rattle.bb_expand.specs.Inside.Cones.{IfNone, IfSomeOne};
ghost use Rattle.bb_expand.specs.Inside.Searches.{IfAt, IfNowhere};
ghost use Rattle.bb_strash.specs.Inside.Miters.{IsMiter};

use crate::cones::{Effort, search_cell};
use crate::free::by_solver;
use crate::merging::Sweep;
use crate::search_result::SearchResult;
use bb_bits::NoMemory;
use bb_miter::difference;
use bb_net::Net;
use bb_strash::{miter, swept};
use bb_sym::RungFault;
use std::alloc::Global;

// The first output that can be 1 ends the search. Once `most` outputs are open the result cannot be `Nowhere`, so the
// rest is skipped.
fn by_outputs(alloc: Global, net: &Net, effort: Effort, most: u32) -> Result<SearchResult, NoMemory>
    requires none { net.now.boxes ≡ [] }
    requires budget { effort.clauses ≤ 8000000 }
    ensures one { IfOk result (IfSomeOne net.now) }
    ensures zero { IfOk result (IfNone net.now) }
{
    let mut open: u32 = 0;
    for out in net.outs() {
        match search_cell(alloc, net, *out, effort)? {
            SearchResult::At(x) => return Ok(SearchResult::At(x)),
            SearchResult::Nowhere => {}
            SearchResult::GivenUp => open = open.saturating_add(1),
        }
        if open >= most {
            return Ok(SearchResult::GivenUp);
        }
    }
    if open == 0 {
        Ok(SearchResult::Nowhere)
    } else {
        Ok(SearchResult::GivenUp)
    }
}

// A statement about the miter becomes one about the two netlists; it exists for its contract.
fn lifted(spec: &Net, imp: &Net, net: &Net, search_result: SearchResult) -> SearchResult
    requires miter { IsMiter spec.now imp.now net.now }
    requires one { IfSomeOne net.now search_result }
    requires zero { IfNone net.now search_result }
    ensures at { IfAt spec.now imp.now result }
    ensures nowhere { IfNowhere spec.now imp.now result }
{
    let _ = spec;
    let _ = imp;
    let _ = net;
    search_result
}

// One open output gives up here: after sweeping there is no further step in this file.
fn by_sweeping(alloc: Global, net: &Net, effort: Effort) -> Result<SearchResult, NoMemory>
    requires none { net.now.boxes ≡ [] }
    requires inputs { net.now.inputs ≤ 2048 }
    requires budget { effort.clauses ≤ 8000000 }
    ensures one { IfOk result (IfSomeOne net.now) }
    ensures zero { IfOk result (IfNone net.now) }
{
    let mut sweep = Sweep::of(alloc, net)?;
    match swept(alloc, net, &mut sweep)? {
        Some(merged) => by_outputs(alloc, &merged, effort, 1),
        None => Ok(SearchResult::GivenUp),
    }
}

// Limits of the steps, in their order. `AS_IT_IS` cuts each output at itself, so it settles those that hashing made
// constant. `TOGETHER`, `EACH` and `MERGED` are learned clauses; `NODES` and `CACHE` limit the BDDs.
const AS_IT_IS: Effort = Effort {
    gates: 0,
    clauses: 100,
    learned: 1,
};

const TOGETHER: u32 = 200;

const NODES: u32 = 100_000;

const CACHE: u32 = 16_384;

const EACH: u32 = 200;

// Once that many outputs are open, the rest waits for sweeping.
const OPEN: u32 = 4;

const MERGED: u32 = 10_000;

fn search_in_miter(alloc: Global, net: &Net, clauses: u32) -> Result<SearchResult, NoMemory>
    requires none { net.now.boxes ≡ [] }
    requires inputs { net.now.inputs ≤ 2048 }
    requires budget { clauses ≤ 8000000 }
    ensures one { IfOk result (IfSomeOne net.now) }
    ensures zero { IfOk result (IfNone net.now) }
{
    let each = Effort {
        gates: usize::MAX,
        clauses,
        learned: EACH,
    };
    match by_outputs(alloc, net, each, OPEN)? {
        SearchResult::GivenUp => by_sweeping(
            alloc,
            net,
            Effort {
                gates: usize::MAX,
                clauses,
                learned: MERGED,
            },
        ),
        answer => Ok(answer),
    }
}

// Too many nodes is no error here: the next step takes over.
fn by_small_diagrams(alloc: Global, spec: &Net, imp: &Net) -> Result<SearchResult, NoMemory>
    requires comparable { AreComparable spec.now imp.now }
    ensures at { IfOk result (IfAt spec.now imp.now) }
    ensures nowhere { IfOk result (IfNowhere spec.now imp.now) }
{
    match difference(alloc, spec, imp, NODES, CACHE) {
        Ok(Some(x)) => Ok(SearchResult::At(x)),
        Ok(None) => Ok(SearchResult::Nowhere),
        Err(RungFault::Nodes) => Ok(SearchResult::GivenUp),
        Err(RungFault::NoMemory) => Err(NoMemory),
    }
}

fn search_apart(
    alloc: Global,
    spec: &Net,
    imp: &Net,
    net: &Net,
    clauses: u32,
) -> Result<SearchResult, NoMemory>
    requires comparable { AreComparable spec.now imp.now }
    requires miter { IsMiter spec.now imp.now net.now }
    requires budget { clauses ≤ 8000000 }
    ensures at { IfOk result (IfAt spec.now imp.now) }
    ensures nowhere { IfOk result (IfNowhere spec.now imp.now) }
{
    match by_small_diagrams(alloc, spec, imp)? {
        SearchResult::GivenUp => {
            let search_result = search_in_miter(alloc, net, clauses)?;
            Ok(lifted(spec, imp, net, search_result))
        }
        answer => Ok(answer),
    }
}

fn search_both(
    alloc: Global,
    spec: &Net,
    imp: &Net,
    net: &Net,
    clauses: u32,
) -> Result<SearchResult, NoMemory>
    requires comparable { AreComparable spec.now imp.now }
    requires miter { IsMiter spec.now imp.now net.now }
    requires budget { clauses ≤ 8000000 }
    ensures at { IfOk result (IfAt spec.now imp.now) }
    ensures nowhere { IfOk result (IfNowhere spec.now imp.now) }
{
    match by_solver(alloc, spec, imp, clauses, TOGETHER)? {
        SearchResult::GivenUp => search_apart(alloc, spec, imp, net, clauses),
        answer => Ok(answer),
    }
}

/// Gives up where an output takes more clauses or more learned ones than the limits.
pub(crate) fn by_miter(
    alloc: Global,
    spec: &Net,
    imp: &Net,
    clauses: u32,
) -> Result<SearchResult, NoMemory>
    requires comparable { AreComparable spec.now imp.now }
    requires budget { clauses ≤ 8000000 }
    ensures at { IfOk result (IfAt spec.now imp.now) }
    ensures nowhere { IfOk result (IfNowhere spec.now imp.now) }
{
    let Some(net) = miter(alloc, spec, imp)? else {
        return Ok(SearchResult::GivenUp);
    };
    match by_outputs(alloc, &net, AS_IT_IS, 1)? {
        SearchResult::GivenUp => search_both(alloc, spec, imp, &net, clauses),
        answer => Ok(lifted(spec, imp, &net, answer)),
    }
}
