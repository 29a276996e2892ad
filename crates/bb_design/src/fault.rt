//! Why a design is refused. A fault has the name that is reported, so it outlives the design.

use bb_bits::Name;
use std::alloc::{AllocError, AllocFailed};
use thiserror::Error;

/// Where several causes hold, the first in this order is reported: later ones are defined only where earlier ones do
/// not hold.
#[derive(Debug, Drop, Error)]
pub enum ElabFault {
    /// None has the given name, or without a name not exactly one is instantiated nowhere.
    #[error("no top")]
    NoTop,
    /// Directly or through others; the first such module in the text that the top reaches.
    #[error("a module that contains itself")]
    Recursive { name: Name },
    /// The path of the first instance, in elaboration order, whose depth is over 64, the top having depth 1.
    #[error("too deep")]
    TooDeep { name: Name },
    /// More than 1,000,000 bits of nets and instances together, or more than 2,000,000 cells.
    #[error("too large")]
    TooLarge,
    /// The first bit in net order that has two drivers; the standard would resolve them.
    #[error("driven twice")]
    DrivenTwice { name: Name },
    /// The first bit in net order that is read and has no driver: it would read `z`, which is no bit.
    #[error("not driven")]
    Undriven { name: Name },
    /// The first bit in net order that depends on itself within a cycle: it would be no function of the vector.
    #[error("on a combinational loop")]
    Loop { name: Name },
    /// The path of the second of two boxes that have one path text.
    #[error("two boxes of one path")]
    BoxTwice { name: Name },
    /// The text of the second of two register bits that have one.
    #[error("two registers of one name")]
    RegTwice { name: Name },
    /// The text of the second of two bits of input ports, or of output ports, of the top that have one.
    #[error("two ports of one name")]
    PortTwice { name: Name },
    #[error("out of memory")]
    NoMemory,
}

impl From<AllocError> for ElabFault {
    ghost use Rattle.std.specs.Prelude.{◌≡◌};
    ghost use Rattle.bb_design.specs.declared.fault.ElabFault.TheVariants.{NoMemory};

    ghost from_gives = { λ _ e. e ≡ NoMemory };

    fn from(_: AllocError) -> ElabFault {
        ElabFault::NoMemory
    }
}

impl<T: Drop> From<AllocFailed<T>> for ElabFault {
    ghost use Rattle.std.specs.Prelude.{◌≡◌};
    ghost use Rattle.bb_design.specs.declared.fault.ElabFault.TheVariants.{NoMemory};

    ghost from_gives = { λ _ e. e ≡ NoMemory };

    fn from(_: AllocFailed<T>) -> ElabFault {
        ElabFault::NoMemory
    }
}
