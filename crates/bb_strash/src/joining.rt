//! The miter (Brand 1993) over shared cells: both netlists are copied into one hashed netlist, so outputs whose cones
//! have the same structure give the constant 0 without search. The disjunction of the outputs is left out, since each
//! output is searched by itself.

ghost use Rattle.std.specs.Prelude.{◌≡◌, ◌+◌, ◌*◌, ◌<◌, ◌^◌, [], ℕ, length, slice_index, IfOk, IfSome, OnOk};
ghost use Rattle.bb_net.specs.Values.{xor};
ghost use Rattle.bb_strash.specs.Inside.Extensions.{bit, Extends, Gives};
ghost use Rattle.bb_strash.specs.Inside.Miters.{IsMiter};

use crate::bit_laws::bits;
use crate::copying::{Unmerged, copy};
use crate::hashed::Hashed;
use bb_bits::NoMemory;
use bb_net::{Cell, Net};
use bb_subst::place_of;
use std::alloc::Global;

// Five cells for each copied one then stay below 2^32.
pub(crate) const MOST: usize = 1 << 25;

fn differences(
    alloc: Global,
    hashed: &mut Hashed,
    outs: &[u32],
    places: &[u32],
    other_outs: &[u32],
    other_places: &[u32],
) -> Result<Vec<u32>, NoMemory>
    requires none { hashed.old.boxes ≡ [] }
    requires count { length other_outs.now ≡ length outs.now }
    requires there { (j : ℕ) → j < length outs.now
        → slice_index places.now (slice_index outs.now j) < length hashed.old.cells }
    requires other { (j : ℕ) → j < length outs.now
        → slice_index other_places.now (slice_index other_outs.now j) < length hashed.old.cells }
    requires room { length hashed.old.cells + 5 * length outs.now < 2 ^ 32 }
    ensures extends { OnOk result (Extends hashed.old hashed.new (5 * length outs.now)) }
    ensures count { IfOk result (λ all. length all.items ≡ length outs.now) }
    ensures gives { IfOk result (λ all. (j : ℕ) → j < length outs.now → Gives hashed.new (slice_index all.items j) (λ x.
        xor (bit hashed.old x (slice_index places.now (slice_index outs.now j)))
        (bit hashed.old x (slice_index other_places.now (slice_index other_outs.now j))))) }
{
    bits();
    let _ = hashed.net();
    let mut all = Vec::with_capacity(alloc, outs.len())?;
    for (j, out) in outs.iter().enumerate() {
        let place = hashed.add(Cell::Xor(
            place_of(places, *out),
            place_of(other_places, other_outs[j]),
        ))?;
        all.push(place)?;
    }
    Ok(all)
}

/// Output `j` is the xor of the outputs `j`. None beyond 2^25 cells or outputs.
pub fn miter(alloc: Global, spec: &Net, imp: &Net) -> Result<Option<Net>, NoMemory>
    requires inputs { spec.now.inputs ≡ imp.now.inputs }
    requires outputs { length spec.now.outs ≡ length imp.now.outs }
    requires spec_boxes { spec.now.boxes ≡ [] }
    requires imp_boxes { imp.now.boxes ≡ [] }
    ensures { IfOk result (λ found. IfSome found (IsMiter spec.now imp.now)) }
{
    bits();
    imp.keeps_its_order();
    spec.keeps_its_order();
    if spec.cells().len() > MOST || imp.cells().len() > MOST || imp.outs().len() > MOST {
        return Ok(None);
    }
    let mut hashed = Hashed::start(alloc, imp.inputs())?;
    let _ = hashed.net();
    let own = copy(alloc, &mut hashed, imp, &mut Unmerged)?;
    let wanted = copy(alloc, &mut hashed, spec, &mut Unmerged)?;
    let outs = differences(alloc, &mut hashed, imp.outs(), &own, spec.outs(), &wanted)?;
    let net = hashed.finish(outs)?;
    Ok(Some(net))
}
