//! A call of the recursion as one value, so that its contract speaks of one argument.

ghost use Rattle.std.specs.Prelude.{◌≡◌};

use crate::key::{Key, Operation};
use bb_uniq::Ref;

/// An operation of fewer operands repeats its first one in the unused places, so that equal calls have equal keys.
#[derive(Clone, Copy)]
pub struct Call {
    pub operation: Operation,
    pub f: Ref,
    pub g: Ref,
    pub h: Ref,
}

pub fn key_of(call: Call) -> Key
    ensures { result ≡ Key.Apply call.operation call.f call.g call.h }
{
    let operation = call.operation;
    Key::Apply {
        operation,
        f: call.f,
        g: call.g,
        h: call.h,
    }
}
