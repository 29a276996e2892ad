//! Clashes of names. In one module a name means one thing (IEEE 1364-2005, 4.11), but a netlist names its inputs,
//! registers and outputs from three lists. An output may share its text with a register only where it is that register.
//! The first clash is reported and nothing is renamed, since another name would no longer be that of the report.

ghost use Rattle.std.specs.Prelude.{◌≡◌, ◌≢◌, ◌+◌, ◌<◌, All, length, IfSome, IfNone, MatchBool};
ghost use Rattle.bb_bits.specs.Closures.{IsFirst};
ghost use Rattle.bb_net.specs.Netlists.{cell_at};
ghost use Rattle.bb_fill.specs.Clashes.{AreInputsApart, AreNamesApart, IsClash, IsInputClash, IsItsRegister};
ghost use Rattle.bb_fill.specs.Clashes.{IsOutputClash, output_numbers, state_cell};
ghost use Rattle.bb_fill.specs.Inside.Indexes.{IsIndex};

use crate::index::{Texts, is_taken, register_of};
use crate::parts::{cell_of, output_count, output_place, output_text};
use bb_bits::Name;
use bb_net::{Cell, Flat};

// An input must share its text with no register and no output.
fn first_input<'a>(flat: &'a Flat, texts: &Texts) -> Option<&'a Name>
    requires index { IsIndex flat.now texts.now.entries }
    ensures some { IfSome result (λ text. IsFirst (IsInputClash flat.now) flat.now.ins text.now) }
    ensures none { IfNone result (AreInputsApart flat.now) }
{
    for text in flat.ins() {
        if is_taken(flat, texts, text) {
            return Some(text);
        }
    }
    None
}

fn state_input(flat: &Flat, r: u32) -> u32
    requires there { r < length flat.now.regs }
    ensures input { result ≡ length flat.now.ins + r }
{
    let inputs = flat.net().inputs();
    let regs = flat.regs().len() as u32;
    inputs - (regs - r)
}

// Only then is an output of this cell the register itself.
fn is_state(flat: &Flat, place: u32, r: u32) -> bool
    requires there { place < length flat.now.net.cells }
    requires register { r < length flat.now.regs }
    ensures state { MatchBool result (cell_at flat.now.net.cells place ≡ state_cell flat.now r)
        (cell_at flat.now.net.cells place ≢ state_cell flat.now r) }
{
    match cell_of(flat, place) {
        Cell::Input(i) => i == state_input(flat, r),
        _ => false,
    }
}

fn is_output_clash(flat: &Flat, texts: &Texts, o: u32) -> bool
    requires index { IsIndex flat.now texts.now.entries }
    requires there { o < length flat.now.outs }
    ensures clash { MatchBool result (IsOutputClash flat.now o) (IsItsRegister flat.now o) }
{
    match register_of(flat, texts, output_text(flat, o)) {
        Some(r) => !is_state(flat, output_place(flat, o), r),
        None => false,
    }
}

fn first_output<'a>(flat: &'a Flat, texts: &Texts) -> Option<u32>
    requires index { IsIndex flat.now texts.now.entries }
    ensures some { IfSome result (λ o.
        (o < length flat.now.outs) × IsFirst (IsOutputClash flat.now) (output_numbers flat.now) o) }
    ensures none { IfNone result (All (IsItsRegister flat.now) (output_numbers flat.now)) }
{
    for o in 0..output_count(flat) {
        if is_output_clash(flat, texts, o) {
            return Some(o);
        }
    }
    None
}

/// Inputs before outputs, each in the order of the netlist.
pub(crate) fn first_clash<'a>(flat: &'a Flat, texts: &Texts) -> Option<&'a Name>
    requires index { IsIndex flat.now texts.now.entries }
    ensures some { IfSome result (λ name. IsClash flat.now name.now) }
    ensures none { IfNone result (AreNamesApart flat.now) }
{
    if let Some(name) = first_input(flat, texts) {
        return Some(name);
    }
    match first_output(flat, texts) {
        Some(o) => Some(output_text(flat, o)),
        None => None,
    }
}
