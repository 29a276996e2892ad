//! Faults of texts in the DIMACS format. Of several faults in one text the first in the text is reported, whatever its
//! kind. A wrong header comes before all others; a missing end and a wrong number of clauses, which only the end of the
//! text shows, come last.

ghost use Rattle.std.specs.Prelude.{◌≡◌};
ghost use Rattle.bb_rup.specs.declared.fault.RupFault.TheVariants.{NoMemory};

use std::alloc::{AllocError, AllocFailed};
use thiserror::Error;

/// Lines count from 1. `NoMemory` is no fault of the text.
#[derive(Debug, Drop, PartialEq, Eq, Error)]
pub enum RupFault {
    /// The first four words are not `p`, `cnf` and two numbers of at most 8,000,000. The line is that of the first
    /// word, or 1 where there is none.
    #[error("line {line}: no header `p cnf V K`")]
    Header { line: u32 },
    /// The word is neither `0` nor a literal, and is no `d` where a deletion may begin.
    #[error("line {line}: not a literal")]
    Token { line: u32 },
    /// The word is a literal whose variable is greater than the number of variables.
    #[error("line {line}: no such variable")]
    Literal { line: u32 },
    /// The last clause has no `0`.
    #[error("the last clause has no 0")]
    Unclosed,
    /// The header gives another number of clauses.
    #[error("the number of clauses is not the header's")]
    Count,
    #[error("memory ran out")]
    NoMemory,
}

impl From<AllocError> for RupFault {
    ghost from_gives = { λ _ e. e ≡ NoMemory };

    fn from(_e: AllocError) -> RupFault {
        RupFault::NoMemory
    }
}

impl<T: Drop> From<AllocFailed<T>> for RupFault {
    ghost from_gives = { λ _ e. e ≡ NoMemory };

    fn from(_e: AllocFailed<T>) -> RupFault {
        RupFault::NoMemory
    }
}
