//! Why two netlists are refused as a pair. A fault has the name that is reported, so it outlives the netlists.

use bb_bits::Name;
use std::alloc::{AllocError, AllocFailed};
use thiserror::Error;

/// Where several causes hold, the first in this order is reported; of two of one cause, that of the specification.
#[derive(Debug, Drop, Error)]
pub enum MatchFault {
    /// The path of the first in the order of the netlist. A specification has to be complete.
    #[error("a box in the specification")]
    SpecBox { name: Name },
    /// No bit of an output port of the specification has the name that `--care` gives.
    #[error("no such care output")]
    NoCare { name: Name },
    /// A bit of an input port or of an output port that the other side lacks, or the care output where the
    /// implementation has it too.
    #[error("a port that the other lacks")]
    PortDiffers { name: Name },
    /// A register bit that the other side lacks.
    #[error("a register that the other lacks")]
    RegDiffers { name: Name },
    /// A register bit whose clock is no input, even through buffers: gated and derived clocks are not supported.
    #[error("a clock that is no input")]
    ClockNotInput { name: Name },
    /// A register bit that has another edge or another clock in the implementation.
    #[error("a register with another clock")]
    ClockDiffers { name: Name },
    /// More than 2,048 inputs, registers and pins of boxes together: each may be a variable of a BDD.
    #[error("too many pins")]
    TooManyPins,
    #[error("out of memory")]
    NoMemory,
}

impl From<AllocError> for MatchFault {
    ghost use Rattle.std.specs.Prelude.{◌≡◌};
    ghost use Rattle.bb_match.specs.declared.fault.MatchFault.TheVariants.{NoMemory};

    ghost from_gives = { λ _ e. e ≡ NoMemory };

    fn from(_: AllocError) -> MatchFault {
        MatchFault::NoMemory
    }
}

impl<T: Drop> From<AllocFailed<T>> for MatchFault {
    ghost use Rattle.std.specs.Prelude.{◌≡◌};
    ghost use Rattle.bb_match.specs.declared.fault.MatchFault.TheVariants.{NoMemory};

    ghost from_gives = { λ _ e. e ≡ NoMemory };

    fn from(_: AllocFailed<T>) -> MatchFault {
        MatchFault::NoMemory
    }
}
