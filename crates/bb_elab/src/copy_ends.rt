//! Where chains of buffers end: the place, no buffer itself, to which they lead.
//!
//! The end is noted for each place on the way, so a buffer is followed once, however many chains lead through it.

ghost use Rattle.std.specs.Prelude.{◌≡◌, ◌<◌, ℕ, None, Some, false, length, slice_index_or, IfOk, IfSome, IfNone};
ghost use Rattle.bb_net.specs.declared.loose.LooseCell.TheVariants.{Const, Copy};
ghost use Rattle.bb_elab.specs.Inside.CopyEnds.{EndsAt, AreEnds};

use bb_bits::NoMemory;
use bb_implements::list_laws::laws_of_cells;
use bb_net::{Loose, LooseCell};
use std::alloc::Global;

fn copied_from(cells: &[LooseCell], place: u32) -> Option<u32>
    ensures some { IfSome result (λ of.
        (place < length cells.now) × (slice_index_or cells.now place (Const false) ≡ Copy of)) }
    ensures none { IfNone result ((p : ℕ) → slice_index_or cells.now place (Const false) ≡ Copy p → ⊥) }
{
    match cells.get(place as usize) {
        Some(LooseCell::Copy(of)) => Some(*of),
        _ => None,
    }
}

fn noted(ends: &[Option<u32>], place: u32) -> Option<u32>
    ensures noted { IfSome result (λ end. slice_index_or ends.now place None ≡ Some end) }
{
    match ends.get(place as usize) {
        Some(Some(end)) => Some(*end),
        _ => None,
    }
}

// A chain without a loop is no longer than the list, which bounds the walk.
fn followed(list: &Loose, ends: &[Option<u32>], place: u32) -> u32
    requires ends { AreEnds list.now ends.now }
    ensures end { EndsAt list.now place result }
{
    laws_of_cells();
    let cells = list.cells();
    let mut at = place;
    for _step in 0..cells.len() {
        if let Some(end) = noted(ends, at) {
            return end;
        }
        let Some(of) = copied_from(cells, at) else {
            return at;
        };
        at = of;
    }
    at
}

// It stops at the first place that is noted: the rest of the chain was noted with it.
fn note(list: &Loose, ends: &mut [Option<u32>], place: u32, end: u32)
    requires ends { AreEnds list.now ends.old }
    requires end { EndsAt list.now place end }
    ensures ends { AreEnds list.now ends.new }
{
    let cells = list.cells();
    let mut at = place;
    for _step in 0..cells.len() {
        let Some(None) = ends.get(at as usize) else {
            return;
        };
        ends[at as usize] = Some(end);
        let Some(of) = copied_from(cells, at) else {
            return;
        };
        at = of;
    }
}

/// Notes the end for each place on the way.
pub(crate) fn end_of(list: &Loose, ends: &mut [Option<u32>], place: u32) -> u32
    requires ends { AreEnds list.now ends.old }
    ensures end { EndsAt list.now place result }
    ensures ends { AreEnds list.now ends.new }
{
    let end = followed(list, ends, place);
    note(list, ends, place, end);
    end
}

pub(crate) fn no_ends(alloc: Global, list: &Loose) -> Result<Vec<Option<u32>>, NoMemory>
    ensures ends { IfOk result (λ ends. AreEnds list.now ends.items) }
{
    let ends = vec![in alloc; None; list.cells().len()]?;
    Ok(ends)
}
