//! Why a rule stops. A rule needs no more than this: the parser never backtracks past the token that decides, so the
//! line and the kind of a fault are the same for the whole statement and are added in `statement.rt`.

use std::alloc::{AllocError, AllocFailed};

/// `Amiss`: the next tokens begin nothing that the rule allows.
#[derive(Debug, Drop)]
pub(crate) enum Stop {
    Amiss,
    NoMemory,
}

impl From<AllocError> for Stop {
    ghost use Rattle.std.specs.Prelude.{◌≡◌};
    ghost use Rattle.bb_parse.specs.declared.stop.Stop.TheVariants.{NoMemory};

    ghost from_gives = { λ _ e. e ≡ NoMemory };

    fn from(_: AllocError) -> Stop {
        Stop::NoMemory
    }
}

impl<T: Drop> From<AllocFailed<T>> for Stop {
    ghost use Rattle.std.specs.Prelude.{◌≡◌};
    ghost use Rattle.bb_parse.specs.declared.stop.Stop.TheVariants.{NoMemory};

    ghost from_gives = { λ _ e. e ≡ NoMemory };

    fn from(_: AllocFailed<T>) -> Stop {
        Stop::NoMemory
    }
}
