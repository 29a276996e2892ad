//! The register bits of a design, in net order.
//!
//! One pass over all constructs notes the clock and the edge of each bit that is stored, and one over the bits collects
//! them: so they come in order without being sorted.

ghost use Rattle.std.specs.Prelude.{◌≡◌, ◌^◌, ◌<◌, ◌++◌, ◌∷◌, [], List, All, None, length, replicate, IfOk};
ghost use Rattle.std.specs.List.{filter_map, flat_map};
ghost use Rattle.bb_blast.specs.declared.stored.Stored.{Stored};
ghost use Rattle.bb_design.specs.Hierarchy.{Design};
ghost use Rattle.bb_design.specs.Inside.Allowed.{IsBounded};
ghost use Rattle.bb_design.specs.NetBits.{net_order};
ghost use Rattle.bb_blast.specs.Inside.Placements.{ArePlaced, AreTemplated, AreStored};
ghost use Rattle.bb_elab.specs.Inside.StoredNumbers.{stored_from, part_stored, scope_stored, IsStorable, MayBeNoted};
ghost use Rattle.bb_elab.specs.Inside.StoredNumbers.{AreNotes};

use bb_bits::NoMemory;
use bb_blast::{ModuleTemplate, Part, Placed, Stored};
use bb_design::laws::laws_of_designs;
use bb_expr::laws::net_names_differ;
use std::alloc::Global;

// The first place that stores to a bit counts, as in the definition; a second one is a second driver, which is refused
// before.
fn note(notes: &mut [Option<Stored>], stored: Stored)
    requires there { stored.bit < length notes.old }
    ensures noted { (all : List Stored) → AreNotes all notes.old → AreNotes (all ++ stored ∷ []) notes.new }
{
    let place = stored.bit as usize;
    if notes[place].is_none() {
        notes[place] = Some(stored);
    }
}

fn note_bits(notes: &mut [Option<Stored>], first: u32, left: &[u32], clock: u32, falling: bool)
    requires few { length notes.old < 2 ^ 32 }
    requires there { All (IsStorable (length notes.old)) (stored_from first left.now clock falling) }
    ensures noted { (all : List Stored) → AreNotes all notes.old
        → AreNotes (all ++ stored_from first left.now clock falling) notes.new }
{
    for bit in left {
        note(
            notes,
            Stored {
                bit: first + *bit,
                clock: first + clock,
                falling,
            },
        );
    }
}

fn note_part(notes: &mut [Option<Stored>], scope: &Placed, part: &Part)
    requires few { length notes.old < 2 ^ 32 }
    requires there { All (IsStorable (length notes.old)) (part_stored scope.now part.now) }
    ensures noted { (all : List Stored) → AreNotes all notes.old
        → AreNotes (all ++ part_stored scope.now part.now) notes.new }
{
    if let Part::Register {
        left,
        clock,
        falling,
        ..
    } = part
    {
        note_bits(notes, scope.first, left, *clock, *falling);
    }
}

fn note_parts(notes: &mut [Option<Stored>], scope: &Placed, parts: &[Part])
    requires few { length notes.old < 2 ^ 32 }
    requires there { All (IsStorable (length notes.old)) (flat_map (part_stored scope.now) parts.now) }
    ensures noted { (all : List Stored) → AreNotes all notes.old
        → AreNotes (all ++ flat_map (part_stored scope.now) parts.now) notes.new }
{
    for part in parts {
        note_part(notes, scope, part);
    }
}

fn note_scope(notes: &mut [Option<Stored>], templates: &[ModuleTemplate], scope: &Placed)
    requires few { length notes.old < 2 ^ 32 }
    requires there { MayBeNoted templates.now (length notes.old) scope.now }
    ensures noted { (all : List Stored) → AreNotes all notes.old
        → AreNotes (all ++ scope_stored templates.now scope.now) notes.new }
{
    if !scope.boxed {
        note_parts(notes, scope, &templates[scope.module].parts);
    }
}

fn note_scopes(notes: &mut [Option<Stored>], placed: &[Placed], templates: &[ModuleTemplate])
    requires few { length notes.old < 2 ^ 32 }
    requires there { All (MayBeNoted templates.now (length notes.old)) placed.now }
    ensures noted { (all : List Stored) → AreNotes all notes.old
        → AreNotes (all ++ flat_map (scope_stored templates.now) placed.now) notes.new }
{
    for scope in placed {
        note_scope(notes, templates, scope);
    }
}

fn no_notes(alloc: Global, bits: usize) -> Result<Vec<Option<Stored>>, NoMemory>
    ensures none { IfOk result (λ notes. notes.items ≡ replicate bits None) }
    ensures long { IfOk result (λ notes. length notes.items ≡ bits) }
{
    let mut notes = Vec::with_capacity(alloc, bits)?;
    for _ in 0..bits {
        notes.push(None)?;
    }
    Ok(notes)
}

fn noted(alloc: Global, notes: &[Option<Stored>]) -> Result<Vec<Stored>, NoMemory>
    ensures noted { IfOk result (λ all. all.items ≡ filter_map (λ note. note) notes.now) }
{
    let mut all = Vec::new(alloc);
    for note in notes {
        if let Some(stored) = note {
            all.push(*stored)?;
        }
    }
    Ok(all)
}

/// In net order.
pub(crate) fn stored_bits(
    alloc: Global,
    placed: &[Placed],
    templates: &[ModuleTemplate],
    bits: usize,
) -> Result<Vec<Stored>, NoMemory>
    requires design { (d : Design) × ArePlaced d placed.now × AreTemplated d placed.now templates.now × IsBounded d
        × (bits ≡ length (net_order d)) }
    ensures stored { IfOk result (λ all. (d : Design) → ArePlaced d placed.now
        → AreTemplated d placed.now templates.now → IsBounded d → bits ≡ length (net_order d)
        → AreStored d all.items) }
{
    laws_of_designs();
    net_names_differ();
    let mut notes = no_notes(alloc, bits)?;
    note_scopes(&mut notes, placed, templates);
    noted(alloc, &notes)
}
