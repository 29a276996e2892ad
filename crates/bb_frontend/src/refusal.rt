//! Why two texts are refused, as one value with its side; the reported line is a function of it. Faults of the
//! specification come before those of the implementation, and these before those of the pair, in which order the code
//! finds them too, so no later fault is looked for.

ghost use Rattle.std.specs.Prelude.{◌≡◌};
ghost use Rattle.bb_frontend.specs.Inside.TextRefusals.{of_spec, of_imp, of_pair};

use crate::side_fault::SideFault;
use bb_match::MatchFault;

/// The first fault. `NoMemory` is none of the texts.
#[derive(Debug, Drop)]
pub enum Refusal {
    /// The specification has a fault.
    Spec(SideFault),
    /// The specification has none, but the implementation has.
    Imp(SideFault),
    /// Neither has one, but the two do not fit.
    Pair(MatchFault),
    NoMemory,
}

/// Lack of memory has no side.
pub fn of_spec(fault: SideFault) -> Refusal
    ensures refusal { result ≡ of_spec fault }
{
    match fault {
        SideFault::NoMemory => Refusal::NoMemory,
        fault => Refusal::Spec(fault),
    }
}

/// Lack of memory has no side.
pub fn of_imp(fault: SideFault) -> Refusal
    ensures refusal { result ≡ of_imp fault }
{
    match fault {
        SideFault::NoMemory => Refusal::NoMemory,
        fault => Refusal::Imp(fault),
    }
}

/// Lack of memory is no fault of the pair.
pub fn of_pair(fault: MatchFault) -> Refusal
    ensures refusal { result ≡ of_pair fault }
{
    match fault {
        MatchFault::NoMemory => Refusal::NoMemory,
        fault => Refusal::Pair(fault),
    }
}
