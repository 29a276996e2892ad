//! The leftmost fault of each kind in a statement, found in one walk. Faults are reported kind by kind, but the walk
//! goes from the left; keeping one slot for each kind avoids five walks, and a list of all faults.
ghost use Rattle.std.specs.Prelude.{◌≡◌, if◌then◌else◌, Some, None, option_map, OnOk};
ghost use Rattle.std.specs.Option.{option_or};
ghost use Rattle.bb_names.specs.Inside.Firsts.{nothing, first_fault};

use crate::fault::NameFault;
use bb_bits::{Name, NoMemory};
use std::alloc::Global;

/// In each slot is the name or word of the leftmost fault so far.
#[derive(Drop)]
pub(crate) struct Found {
    pub twice: Option<Name>,
    pub unknown: Option<Name>,
    pub select: Option<Name>,
    pub width: Option<Name>,
    pub role: Option<Name>,
}

impl Found {
    pub(crate) fn none() -> Found
        ensures { result ≡ nothing }
    {
        Found {
            twice: None,
            unknown: None,
            select: None,
            width: None,
            role: None,
        }
    }

    /// In the order of the kinds, which is that of the fields.
    pub(crate) fn into_fault(self, line: u32) -> Option<NameFault>
        ensures { result ≡ first_fault line self }
    {
        let Found {
            twice,
            unknown,
            select,
            width,
            role,
        } = self;
        if let Some(name) = twice {
            return Some(NameFault::Twice { line, name });
        }
        if let Some(name) = unknown {
            return Some(NameFault::Unknown { line, name });
        }
        if let Some(name) = select {
            return Some(NameFault::Select { line, name });
        }
        if let Some(name) = width {
            return Some(NameFault::Width { line, name });
        }
        if let Some(name) = role {
            return Some(NameFault::Role { line, name });
        }
        None
    }
}

/// Keeps the name only if no fault of its kind was found further left.
pub(crate) fn note(slot: &mut Option<Name>, wrong: bool, name: &Name) -> Result<(), NoMemory>
    ensures { OnOk result (slot.new ≡ option_or slot.old (if wrong then Some name.now else None)) }
{
    if wrong && slot.is_none() {
        *slot = Some(name.clone()?);
    }
    Ok(())
}

/// As `note`, with a word for what has no name. The word is allocated only if it is kept.
pub(crate) fn note_word(
    alloc: Global,
    slot: &mut Option<Name>,
    wrong: bool,
    word: &[u8],
) -> Result<(), NoMemory>
    ensures { OnOk result (slot.new ≡ option_or slot.old (if wrong then Some word.now else None)) }
{
    if wrong && slot.is_none() {
        *slot = Some(Name::of(alloc, word)?);
    }
    Ok(())
}

/// For a fault left of all that were noted: it replaces what is in the slot.
pub(crate) fn note_before(
    alloc: Global,
    slot: &mut Option<Name>,
    word: Option<&[u8]>,
) -> Result<(), NoMemory>
    ensures { OnOk result (slot.new ≡ option_or (option_map (λ w. w.now) word.entry) slot.old) }
{
    if let Some(word) = word {
        *slot = Some(Name::of(alloc, word)?);
    }
    Ok(())
}
