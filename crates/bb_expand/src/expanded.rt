//! Answers of the check. The refutation comes with its vectors and clauses, so it can be checked without this crate;
//! for all contents of the boxes the designs differ at one of the vectors, so who believes no solver can simulate these
//! alone.

use bb_bits::{NoMemory, Table};
use bb_cnf::{Cnf, Refutation};

/// Either tables that agree, one for each sharing class in order, or a refutation of the clauses over `vectors`.
///
/// No vector occurs twice, and the clauses are in the order of the vectors.
#[derive(Drop)]
pub enum Expanded {
    Error {
        vectors: Vec<Vec<bool>>,
        cnf: Cnf,
        refutation: Refutation,
    },
    Repair(Vec<Table>),
}

/// Why a pair stays open.
#[derive(Clone, Copy, Debug, PartialEq, Eq)]
pub enum ExpandFault {
    /// The clauses over all vectors exceed the budget, and for some required samples either their clauses do, or some
    /// tables that agree at all of them are too large to be tried.
    Clauses,
    /// The tables of all sharing classes have more than 2^24 bits together. Tested before any search.
    Wide,
    NoMemory,
}

impl From<NoMemory> for ExpandFault {
    ghost use Rattle.std.specs.Prelude.{◌≡◌};
    ghost use Rattle.bb_expand.specs.declared.expanded.ExpandFault.TheVariants as fault;

    ghost from_gives = { λ _ e. e ≡ fault.NoMemory };

    fn from(_: NoMemory) -> ExpandFault {
        ExpandFault::NoMemory
    }
}
