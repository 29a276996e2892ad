//! The five kinds of faults, in the order in which they are reported of a statement.

use bb_bits::Name;
use std::alloc::{AllocError, AllocFailed};
use thiserror::Error;

/// The first fault of a source. `line` is that of the statement's first token; `name` is the name at fault, or a word
/// where nothing has a name, such as `wide`.
#[derive(Debug, Drop, Error)]
pub enum NameFault {
    /// A declaration that an earlier one leaves no room for, or a port that is connected twice.
    #[error("line {line}: a second time")]
    Twice { line: u32, name: Name },
    /// A name that nothing declares, and that is no implicit wire.
    #[error("line {line}: not known")]
    Unknown { line: u32, name: Name },
    /// Bits that the net does not have, which the standard reads as `x` (5.2.1), or in the other direction than its
    /// range.
    #[error("line {line}: no such bits")]
    Select { line: u32, name: Name },
    /// Wider than 65,536 bits, or not as wide as the port, gate or clock that it is connected to.
    #[error("line {line}: a wrong width")]
    Width { line: u32, name: Name },
    /// A name or an expression of a kind that is not allowed at this place, such as an input port that is driven.
    #[error("line {line}: not of the kind that may stand there")]
    Role { line: u32, name: Name },
    #[error("out of memory")]
    NoMemory,
}

impl From<AllocError> for NameFault {
    ghost use Rattle.std.specs.Prelude.{◌≡◌};
    ghost use Rattle.bb_names.specs.declared.fault.NameFault.TheVariants.{NoMemory};

    ghost from_gives = { λ _ e. e ≡ NoMemory };

    fn from(_: AllocError) -> NameFault {
        NameFault::NoMemory
    }
}

impl<T: Drop> From<AllocFailed<T>> for NameFault {
    ghost use Rattle.std.specs.Prelude.{◌≡◌};
    ghost use Rattle.bb_names.specs.declared.fault.NameFault.TheVariants.{NoMemory};

    ghost from_gives = { λ _ e. e ≡ NoMemory };

    fn from(_: AllocFailed<T>) -> NameFault {
        NameFault::NoMemory
    }
}
