//! The place that drives each bit of a net, noted while cells are made. A bit keeps its first driver; designs with a
//! second one are refused before.
//!
//! Sums saturate at 2^32 - 1, and the definitions cap them alike. That a small design has few places is known of the
//! finished list alone, so no loop has a bound to carry: one lemma at the end says that nothing was capped.

ghost use Rattle.std.specs.Prelude.{◌≡◌, length, slice_get};
ghost use Rattle.bb_blast.specs.Inside.Counting.{capped, after};
ghost use Rattle.bb_blast.specs.Inside.Listing.{given_one, given_all, place_or_zero, beside, in_row, all_given_by};

use bb_net::LooseCell;

/// `nets` is the place of the first bit of a net, `others` that of the first cell after the bits of nets.
#[derive(Clone, Copy, Debug)]
pub(crate) struct Layout {
    pub nets: u32,
    pub others: u32,
}

/// Saturates at 2^32 - 1.
#[tactic(auto, unfolding(crate::specs::Inside::Counting::capped))]
pub(crate) fn after(number: u32, offset: u32) -> u32
    ensures number { result ≡ after number offset }
{
    number.saturating_add(offset)
}

/// Saturates at 2^32 - 1.
#[tactic(auto, unfolding(crate::specs::Inside::Counting::capped))]
pub(crate) fn count_of<T>(items: &[T]) -> u32
    ensures count { result ≡ capped (length items.now) }
{
    items.len().min(u32::MAX as usize) as u32
}

/// Saturates at 2^32 - 1. `start` is the place of the first of these cells.
#[tactic(auto, unfolding(crate::specs::Inside::Counting::capped))]
pub(crate) fn next_place(start: u32, cells: &[LooseCell]) -> u32
    ensures place { result ≡ after start (length cells.now) }
{
    after(start, count_of(cells))
}

/// A bit without a driver is the constant 0; where it is read, the design is refused once the list is made.
pub(crate) fn place_or_zero(sources: &[Option<u32>], bit: u32) -> u32
    ensures place { result ≡ place_or_zero (slice_get sources.now bit) }
{
    match sources.get(bit as usize) {
        Some(Some(place)) => *place,
        _ => 0,
    }
}

fn give(sources: &mut [Option<u32>], bit: u32, place: u32)
    ensures given { sources.new ≡ given_one sources.old (bit, place) }
{
    if let Some(None) = sources.get(bit as usize) {
        sources[bit as usize] = Some(place);
    }
}

/// Pairs each bit with its place; the longer list is cut off at its end.
pub(crate) fn give_beside(sources: &mut [Option<u32>], first: u32, bits: &[u32], places: &[u32])
    ensures given { sources.new ≡ given_all sources.old (beside first bits.now places.now) }
{
    for k in 0..bits.len().min(places.len()) {
        give(sources, after(first, bits[k]), places[k]);
    }
}

/// The places are consecutive, from `base` on.
pub(crate) fn give_in_row(sources: &mut [Option<u32>], first: u32, bits: &[u32], base: u32)
    ensures given { sources.new ≡ given_all sources.old (in_row first bits.now base) }
{
    let mut place = base;
    for bit in bits {
        give(sources, after(first, *bit), place);
        place = after(place, 1);
    }
}

pub(crate) fn give_all(sources: &mut [Option<u32>], first: u32, bits: &[u32], place: u32)
    ensures given { sources.new ≡ given_all sources.old (all_given_by first bits.now place) }
{
    for bit in bits {
        give(sources, after(first, *bit), place);
    }
}
