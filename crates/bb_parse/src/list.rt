//! Lists of names, nets, gates, assignments and instances begin with room for one element. Most statements have one,
//! and a list that makes its first room as it grows takes room for four: on a large netlist that was near a third of
//! the memory at the peak.

ghost use Rattle.std.specs.Prelude.{◌≡◌, [], ◌∷◌, IfOk, IfErr};
ghost use Rattle.bb_parse.specs.declared.stop.Stop.{Stop};

use crate::stop::Stop;
use std::alloc::Global;

pub(crate) fn begun<T: Drop>(alloc: Global, first: T) -> Result<Vec<T>, Stop>
    ensures ok { IfOk result (λ parts. parts.items ≡ first ∷ []) }
    ensures err { IfErr result (λ stop. stop ≡ Stop.NoMemory) }
{
    let mut parts = Vec::with_capacity(alloc, 1)?;
    parts.push(first)?;
    Ok(parts)
}
