//! The places of names in a list, by a hash map that keeps the order in which names are inserted. Of equal names the
//! last one's place is kept; any of them would do.
ghost use Rattle.std.specs.Prelude.{◌≡◌, ◌<◌, ◌+◌, ◌++◌, ◌^◌, ℕ, List, length, map, IfOk, OnOk, IfSome, IfNone};
ghost use Rattle.bb_match.specs.Inside.Places.{ArePlaces, text_place};
ghost use Rattle.bb_match.specs.Refusals.{IsFirstMissing, AreAmong};

use bb_bits::{Name, NoMemory};
use indexmap::IndexMap;
use std::alloc::Global;

pub(crate) type Places = IndexMap<Name, u32>;

pub(crate) fn places_of(alloc: Global, texts: &[Name]) -> Result<Places, NoMemory>
    requires small { length texts.now < 2 ^ 32 }
    ensures places { IfOk result (λ places. ArePlaces texts.now places.entries) }
{
    let mut places = IndexMap::with_capacity(alloc, texts.len())?;
    for (place, text) in texts.iter().enumerate() {
        places.insert(text.clone()?, place as u32)?;
    }
    Ok(places)
}

/// 0 where it has none: total, for callers that have made sure of it.
pub(crate) fn text_place(places: &Places, text: &Name) -> u32
    ensures place { result ≡ text_place places.now.entries text.now }
{
    places.get(text).copied().unwrap_or(0)
}

pub(crate) fn first_missing<'a>(places: &Places, texts: &'a [Name]) -> Option<&'a Name>
    ensures some { (others : List (List ℕ)) → ArePlaces others places.now.entries
        → IfSome result (λ text. IsFirstMissing texts.now others text.now) }
    ensures none { (others : List (List ℕ)) → ArePlaces others places.now.entries
        → IfNone result (AreAmong texts.now others) }
{
    for text in texts {
        if !places.contains_key(text) {
            return Some(text);
        }
    }
    None
}

/// `base` is the place at which the list that `places` indexes begins.
pub(crate) fn add_places(
    places: &Places,
    base: u32,
    texts: &[Name],
    list: &mut Vec<u32>,
) -> Result<(), NoMemory>
    requires small { (text : List ℕ) → base + text_place places.now.entries text < 2 ^ 32 }
    ensures added { OnOk result (list.new.items
        ≡ list.old.items ++ map (λ text. base + text_place places.now.entries text) texts.now) }
{
    for text in texts {
        list.push(base + text_place(places, text))?;
    }
    Ok(())
}

/// The second list comes right after the first, so its places count from `base`.
pub(crate) fn places_after(
    alloc: Global,
    first: &Places,
    these: &[Name],
    base: u32,
    second: &Places,
    those: &[Name],
) -> Result<Vec<u32>, NoMemory>
    requires first { (text : List ℕ) → 0 + text_place first.now.entries text < 2 ^ 32 }
    requires second { (text : List ℕ) → base + text_place second.now.entries text < 2 ^ 32 }
    ensures places { IfOk result (λ list. list.items
        ≡ map (λ text. 0 + text_place first.now.entries text) these.now
        ++ map (λ text. base + text_place second.now.entries text) those.now) }
{
    let mut list = Vec::with_capacity(alloc, these.len().saturating_add(those.len()))?;
    add_places(first, 0, these, &mut list)?;
    add_places(second, base, those, &mut list)?;
    Ok(list)
}
