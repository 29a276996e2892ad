//! Equivalence of two netlists without boxes by one SAT query, the inputs free. It gives up by two limits: clauses,
//! which bound memory before they are made, and learned clauses, which bound the search.

ghost use Rattle.std.specs.Prelude.{◌≤◌, IfOk};
ghost use Rattle.bb_miter.specs.Inside.Equivalence.{AreComparable};
ghost use Rattle.bb_expand.specs.Inside.Searches.{IfAt, IfNowhere};

use crate::free_clauses::free_clauses;
use crate::free_counting::free_count;
use crate::free_laws::models_are_differences;
use crate::search_result::SearchResult;
use bb_bits::NoMemory;
use bb_cdcl::{Attempt, Outcome, solve_within};
use bb_net::Net;
use std::alloc::Global;

/// Gives up where the query has more than `clauses` clauses or the solver learned `learned` ones. The refutation is
/// dropped: no printed proof rests on equivalence of filled netlists.
pub(crate) fn by_solver(
    alloc: Global,
    spec: &Net,
    imp: &Net,
    clauses: u32,
    learned: u32,
) -> Result<SearchResult, NoMemory>
    requires comparable { AreComparable spec.now imp.now }
    requires budget { clauses ≤ 8000000 }
    ensures at { IfOk result (IfAt spec.now imp.now) }
    ensures nowhere { IfOk result (IfNowhere spec.now imp.now) }
{
    models_are_differences();
    if free_count(spec, imp) > u64::from(clauses) {
        return Ok(SearchResult::GivenUp);
    }
    let cnf = free_clauses(alloc, spec, imp)?;
    match solve_within(alloc, &cnf, learned)? {
        Attempt::Decided(Outcome::Sat(mut bits)) => {
            bits.truncate(imp.inputs() as usize);
            Ok(SearchResult::At(bits))
        }
        Attempt::Decided(Outcome::Unsat(_)) => Ok(SearchResult::Nowhere),
        Attempt::Spent(_) => Ok(SearchResult::GivenUp),
    }
}
