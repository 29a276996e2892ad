//! The only fault of an operation: memory is no fault here, since the store has its room from the start.

ghost use Rattle.std.specs.Prelude.{◌≡◌};

use bb_uniq::StoreFault;

/// An operation fails only at the limit, never for want of memory.
#[derive(Clone, Copy, Debug, PartialEq, Eq)]
pub enum DdFault {
    /// The result has beads beyond the limit of the store. What was made on the way stays.
    Full,
}

impl From<StoreFault> for DdFault {
    ghost use Rattle.std.specs.Prelude.{◌≡◌};
    ghost use Rattle.bb_dd.specs.declared.fault.DdFault.TheVariants.{Full};

    ghost from_gives = { λ _ e. e ≡ Full };

    fn from(_: StoreFault) -> DdFault {
        DdFault::Full
    }
}
