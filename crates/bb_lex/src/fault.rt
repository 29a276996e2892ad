//! Faults of a text that has no tokens. They say a line and nothing of what was expected: no piece begins there, so
//! there is nothing to name.

ghost use Rattle.std.specs.Prelude.{◌≡◌};
ghost use Rattle.bb_lex.specs.declared.fault.LexFault.TheVariants.{NoMemory};

use std::alloc::{AllocError, AllocFailed};
use thiserror::Error;

/// A text has tokens or a fault, never both.
#[derive(Debug, Drop, Error)]
pub enum LexFault {
    /// No piece begins at the first place after whole pieces; the line is that of this place.
    #[error("line {line}: no token begins here")]
    Bad { line: u32 },
    #[error("memory ran out")]
    NoMemory,
}

impl From<AllocError> for LexFault {
    ghost from_gives = { λ _ e. e ≡ NoMemory };

    fn from(_e: AllocError) -> LexFault {
        LexFault::NoMemory
    }
}

impl<T: Drop> From<AllocFailed<T>> for LexFault {
    ghost from_gives = { λ _ e. e ≡ NoMemory };

    fn from(_e: AllocFailed<T>) -> LexFault {
        LexFault::NoMemory
    }
}
