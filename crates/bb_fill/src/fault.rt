//! Why no filled text is made. The verdict and its tables stay: a clash of names or a bound of the reader says nothing
//! of the design.

use bb_bits::Name;
use std::alloc::{AllocError, AllocFailed};
use thiserror::Error;

/// Where both causes hold, the clash is reported.
#[derive(Debug, Drop, Error)]
pub enum FillFault {
    /// The first text that two of an input, a register and an output share, inputs before outputs.
    #[error("a name that stands for two nets")]
    Clash { name: Name },
    /// More than 33,554,432 bytes, 1,000,000 bits of nets, or 2,000,000 cells: such a text would not be read again.
    #[error("a text that is too large")]
    TooLarge,
    #[error("out of memory")]
    NoMemory,
}

impl From<AllocError> for FillFault {
    ghost use Rattle.std.specs.Prelude.{◌≡◌};
    ghost use Rattle.bb_fill.specs.declared.fault.FillFault.TheVariants.{NoMemory};

    ghost from_gives = { λ _ e. e ≡ NoMemory };

    fn from(_: AllocError) -> FillFault {
        FillFault::NoMemory
    }
}

impl<T: Drop> From<AllocFailed<T>> for FillFault {
    ghost use Rattle.std.specs.Prelude.{◌≡◌};
    ghost use Rattle.bb_fill.specs.declared.fault.FillFault.TheVariants.{NoMemory};

    ghost from_gives = { λ _ e. e ≡ NoMemory };

    fn from(_: AllocFailed<T>) -> FillFault {
        FillFault::NoMemory
    }
}
