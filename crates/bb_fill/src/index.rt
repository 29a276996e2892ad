//! An index of the texts of registers and outputs by hash, so that looking for clashes is linear in the number of
//! names. It serves twice: for clashes, and for outputs that are registers and need no line.

ghost use Rattle.std.specs.Prelude.{◌≡◌, ◌+◌, ◌<◌, ◌⊎◌, ℕ, length, Contains, IfOk, IfSome, IfNone, MatchBool, OnOk, []};
ghost use Rattle.bb_bits.specs.Earlier.{has_name};
ghost use Rattle.bb_net.specs.CutPoints.{state_texts};
ghost use Rattle.bb_fill.specs.Clashes.{register_text};
ghost use Rattle.bb_fill.specs.Inside.Indexes.{IsIndex, IsIndexUpTo};

use crate::parts::{output_count, output_text, register_count, register_text};
use bb_bits::{Name, NoMemory};
use bb_net::Flat;
use indexmap::IndexMap;
use std::alloc::Global;

/// The number of the register with a text; for a text that only an output has, the number after the last register.
pub(crate) type Texts = IndexMap<Name, u32>;

// Outputs first, so that registers of the same text replace them.
fn put_outputs(flat: &Flat, texts: &mut Texts) -> Result<(), NoMemory>
    requires empty { texts.old.entries ≡ [] }
    ensures index { OnOk result (IsIndexUpTo flat.now 0 texts.new.entries) }
{
    let after = register_count(flat);
    for o in 0..output_count(flat) {
        let text = output_text(flat, o).clone()?;
        texts.insert(text, after)?;
    }
    Ok(())
}

fn put_registers(flat: &Flat, texts: &mut Texts) -> Result<(), NoMemory>
    requires index { IsIndexUpTo flat.now 0 texts.old.entries }
    ensures index { OnOk result (IsIndex flat.now texts.new.entries) }
{
    for r in 0..register_count(flat) {
        let text = register_text(flat, r).clone()?;
        texts.insert(text, r)?;
    }
    Ok(())
}

pub(crate) fn index_of(alloc: Global, flat: &Flat) -> Result<Texts, NoMemory>
    ensures index { IfOk result (λ texts. IsIndex flat.now texts.entries) }
{
    let count = flat.regs().len() + flat.outs().len();
    let mut texts = IndexMap::with_capacity(alloc, count)?;
    put_outputs(flat, &mut texts)?;
    put_registers(flat, &mut texts)?;
    Ok(texts)
}

/// None where only an output has the text.
pub(crate) fn register_of(flat: &Flat, texts: &Texts, text: &Name) -> Option<u32>
    requires index { IsIndex flat.now texts.now.entries }
    ensures some { IfSome result (λ r. (r < length flat.now.regs) × (text.now ≡ register_text flat.now r)) }
    ensures none { IfNone result ((r : ℕ) → r < length flat.now.regs → text.now ≡ register_text flat.now r → ⊥) }
{
    match texts.get(text) {
        Some(r) if (*r as usize) < flat.regs().len() => Some(*r),
        _ => None,
    }
}

/// An input with such a text clashes.
pub(crate) fn is_taken(flat: &Flat, texts: &Texts, text: &Name) -> bool
    requires index { IsIndex flat.now texts.now.entries }
    ensures taken { MatchBool result (Contains (state_texts flat.now) text.now ⊎ Contains flat.now.outs text.now)
        ((Contains (state_texts flat.now) text.now → ⊥) × (Contains flat.now.outs text.now → ⊥)) }
{
    let _ = flat;
    texts.contains_key(text)
}

/// Such an output needs no line: it is the register.
pub(crate) fn is_register(flat: &Flat, texts: &Texts, text: &Name) -> bool
    requires index { IsIndex flat.now texts.now.entries }
    ensures register { result ≡ has_name text.now (state_texts flat.now) }
{
    register_of(flat, texts, text).is_some()
}
