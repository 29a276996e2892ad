//! Repeated names, by one pass with a set: the report is the first name that occurred before.

ghost use Rattle.std.specs.Prelude.{◌≢◌, AllPairs, IfNone, IfOk, IfSome};
ghost use Rattle.bb_bits.specs.Closures.{IsFirstRepeat};

use bb_bits::{Name, NoMemory};
use indexmap::IndexSet;
use std::alloc::Global;

/// The second occurrence decides which name is first: of `a b b a` it is `b`.
pub(crate) fn first_repeat(alloc: Global, names: &[Name]) -> Result<Option<Name>, NoMemory>
    ensures some { IfOk result (λ found. IfSome found (λ n. IsFirstRepeat names.now n)) }
    ensures none { IfOk result (λ found. IfNone found (AllPairs ◌≢◌ names.now)) }
{
    let mut seen = IndexSet::new(alloc);
    for name in names {
        if seen.contains(name) {
            return Ok(Some(name.clone()?));
        }
        seen.insert(name.clone()?)?;
    }
    Ok(None)
}
