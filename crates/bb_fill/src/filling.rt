//! From a netlist and its tables to the filled text. Nets and bytes are counted before memory is taken, by putting the
//! same lines on a buffer that only counts, so what is counted and what is printed are one code. The bound on cells
//! needs no count: there are at most two cells more than nets, and twice as many cells as nets are allowed. The text is
//! never read again here: that it reads, is sound and makes the designs equivalent are laws, so there is no branch for
//! a text that is not.

ghost use Rattle.std.specs.Prelude.{◌≡◌, ◌-◌, ◌<◌, ◌≤◌, ◌^◌, length, replicate, sum_by, IfOk, IfSome};
ghost use Rattle.bb_net.specs.Kinds.{per_box};
ghost use Rattle.bb_net.specs.Values.{FitBoxes};
ghost use Rattle.bb_fill.specs.Answers.{Answer, IsFillAnswer, answer_of};
ghost use Rattle.bb_fill.specs.Clashes.{AreNamesApart};
ghost use Rattle.bb_net.specs.Flats.{HaveClocks};
ghost use Rattle.bb_fill.specs.Filled.{choice_count, filled_text};
ghost use Rattle.bb_fill.specs.Inside.Indexes.{IsIndex};
ghost use Rattle.bb_fill.specs.Words.{stem_of};

use crate::clashes::first_clash;
use crate::fault::FillFault;
use crate::index::{Texts, index_of};
use crate::laws::answers_are_one;
use crate::sections::put_text;
use crate::sizes::net_count;
use crate::stems::stem_length;
use crate::text_buffer::TextBuffer;
use bb_bits::{NoMemory, Table};
use bb_net::Flat;
use std::alloc::Global;

// In bytes: the most that is read again.
const MOST_BYTES: u64 = 33_554_432;

// The most that elaboration takes.
const MOST_NETS: u64 = 1_000_000;

// In bytes; saturates at 2^64 - 1, beyond every bound.
fn byte_count(
    alloc: Global,
    flat: &Flat,
    tables: &[Table],
    kinds: &[u32],
    texts: &Texts,
    stem: usize,
) -> u64
    requires clocks { HaveClocks flat.now }
    requires tables { FitBoxes (per_box kinds.now tables.now) flat.now.net.boxes }
    requires index { IsIndex flat.now texts.now.entries }
    requires room { sum_by (choice_count flat.now.net.boxes) flat.now.net.cells < 2 ^ 32 }
    requires stem { replicate stem 95 ≡ stem_of flat.now }
    ensures counted { length (filled_text flat.now (per_box kinds.now tables.now)) < 2 ^ 64
        → result ≡ length (filled_text flat.now (per_box kinds.now tables.now)) }
    ensures full { 2 ^ 64 ≤ length (filled_text flat.now (per_box kinds.now tables.now)) → 2 ^ 64 - 1 ≤ result }
{
    let mut text_buffer = TextBuffer::new(Vec::new(alloc), 0);
    put_text(&mut text_buffer, flat, tables, kinds, texts, stem);
    text_buffer.count()
}

// Takes its memory at once, since the length is known.
fn text_of(
    alloc: Global,
    flat: &Flat,
    tables: &[Table],
    kinds: &[u32],
    texts: &Texts,
    stem: usize,
    bytes: u32,
) -> Result<Vec<u8>, NoMemory>
    requires clocks { HaveClocks flat.now }
    requires tables { FitBoxes (per_box kinds.now tables.now) flat.now.net.boxes }
    requires index { IsIndex flat.now texts.now.entries }
    requires room { sum_by (choice_count flat.now.net.boxes) flat.now.net.cells < 2 ^ 32 }
    requires stem { replicate stem 95 ≡ stem_of flat.now }
    requires bytes { length (filled_text flat.now (per_box kinds.now tables.now)) ≡ bytes }
    ensures text { IfOk result (λ text. text.items ≡ filled_text flat.now (per_box kinds.now tables.now)) }
{
    let text = Vec::with_capacity(alloc, bytes as usize)?;
    let mut text_buffer = TextBuffer::new(text, bytes);
    put_text(&mut text_buffer, flat, tables, kinds, texts, stem);
    Ok(text_buffer.into_text())
}

// Nets before bytes: with few nets the number of choices fits 32 bits, which printing needs.
fn fill_apart(
    alloc: Global,
    flat: &Flat,
    tables: &[Table],
    kinds: &[u32],
    texts: &Texts,
) -> Result<Vec<u8>, FillFault>
    requires clocks { HaveClocks flat.now }
    requires tables { FitBoxes (per_box kinds.now tables.now) flat.now.net.boxes }
    requires index { IsIndex flat.now texts.now.entries }
    requires apart { AreNamesApart flat.now }
    ensures answer { IfSome (answer_of result) (IsFillAnswer flat.now (per_box kinds.now tables.now)) }
    ensures text { IfOk result (λ text. text.items ≡ filled_text flat.now (per_box kinds.now tables.now)) }
{
    if net_count(flat, tables, kinds, texts) > MOST_NETS {
        return Err(FillFault::TooLarge);
    }
    let stem = stem_length(flat);
    let bytes = byte_count(alloc, flat, tables, kinds, texts, stem);
    if bytes > MOST_BYTES {
        return Err(FillFault::TooLarge);
    }
    let text = text_of(alloc, flat, tables, kinds, texts, stem, bytes as u32)?;
    Ok(text)
}

/// The netlist as a module in Verilog, each box replaced by a tree over the table of its sharing class. Each register
/// has a clock that is an input, and each table has the numbers of pins of its boxes.
///
/// # Errors
///
/// `Clash` with the first name, inputs before outputs; else `TooLarge`; and lack of memory.
pub fn fill(
    alloc: Global,
    flat: &Flat,
    tables: &[Table],
    kinds: &[u32],
) -> Result<Vec<u8>, FillFault>
    requires clocks { HaveClocks flat.now }
    requires tables { FitBoxes (per_box kinds.now tables.now) flat.now.net.boxes }
    ensures answer { IfSome (answer_of result) (IsFillAnswer flat.now (per_box kinds.now tables.now)) }
    ensures text { IfOk result (λ text. text.items ≡ filled_text flat.now (per_box kinds.now tables.now)) }

    // There is only one answer, so another result excludes it.
    ensures due { (answer : Answer) → IsFillAnswer flat.now (per_box kinds.now tables.now) answer
        → IfSome (answer_of result) (λ given. given ≡ answer) }
{
    answers_are_one();
    let texts = index_of(alloc, flat)?;
    match first_clash(flat, &texts) {
        Some(name) => Err(FillFault::Clash {
            name: name.clone()?,
        }),
        None => fill_apart(alloc, flat, tables, kinds, &texts),
    }
}
