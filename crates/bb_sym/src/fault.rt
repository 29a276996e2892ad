//! Faults of the checks by BDDs: the budget and memory are kept apart, since the first is a function of the pair and
//! the second is not.

ghost use Rattle.std.specs.Prelude.{◌≡◌};

use bb_bits::NoMemory;
use bb_dd::DdFault;
use std::alloc::AllocFailed;

/// `Nodes` is decided by the pair and the budget alone, `NoMemory` by the machine.
#[derive(Clone, Copy, Debug, PartialEq, Eq)]
pub enum RungFault {
    /// The functions of the check have more beads than the budget, exactly then.
    Nodes,
    NoMemory,
}

impl From<DdFault> for RungFault {
    ghost use Rattle.std.specs.Prelude.{◌≡◌};
    ghost use Rattle.bb_sym.specs.declared.fault.RungFault.TheVariants as fault;

    ghost from_gives = { λ _ e. e ≡ fault.Nodes };

    fn from(_: DdFault) -> RungFault {
        RungFault::Nodes
    }
}

impl From<NoMemory> for RungFault {
    ghost use Rattle.std.specs.Prelude.{◌≡◌};
    ghost use Rattle.bb_sym.specs.declared.fault.RungFault.TheVariants as fault;

    ghost from_gives = { λ _ e. e ≡ fault.NoMemory };

    fn from(_: NoMemory) -> RungFault {
        RungFault::NoMemory
    }
}

impl<T: Drop> From<AllocFailed<T>> for RungFault {
    ghost use Rattle.std.specs.Prelude.{◌≡◌};
    ghost use Rattle.bb_sym.specs.declared.fault.RungFault.TheVariants as fault;

    ghost from_gives = { λ _ e. e ≡ fault.NoMemory };

    fn from(_: AllocFailed<T>) -> RungFault {
        RungFault::NoMemory
    }
}
