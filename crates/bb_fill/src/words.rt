//! The words of the filled text. Ports and registers keep their texts as escaped names (IEEE 1364-2005, 3.7.1), so that
//! a report and the text name the same things whatever bytes the names have; other cells and choices have names made of
//! the stem and a number.

ghost use Rattle.std.specs.Prelude.{◌≡◌, ◌+◌, ◌<◌, ◌++◌, if◌then◌else◌, [], codes, decimal, length, map, replicate};
ghost use Rattle.std.specs.List.{slice_index_or};
ghost use Rattle.bb_net.specs.CutPoints.{state_texts};
ghost use Rattle.bb_fill.specs.Words.{printed, word_at, word_text};
ghost use Rattle.bb_fill.specs.Inside.TextBuffers.{Adds};

use crate::text_buffer::TextBuffer;
use bb_bits::Name;
use bb_net::{Cell, Flat};

/// The blank ends an escaped name.
pub(crate) fn put_name(out: &mut TextBuffer, name: &Name)
    ensures adds { Adds out.old out.new (printed name.now) }
{
    out.put(b"\\");
    out.put(name.bytes());
    out.put(b" ");
}

pub(crate) fn put_bit(out: &mut TextBuffer, bit: bool)
    ensures adds { Adds out.old out.new (if bit then codes "1'b1" else codes "1'b0") }
{
    if bit {
        out.put(b"1'b1");
    } else {
        out.put(b"1'b0");
    }
}

pub(crate) fn put_net(out: &mut TextBuffer, stem: usize, number: u32)
    ensures adds { Adds out.old out.new (replicate stem 95 ++ decimal number) }
{
    out.put_stem(stem);
    out.put_number(number);
}

/// The `t` keeps choices apart from cells.
pub(crate) fn put_choice(out: &mut TextBuffer, stem: usize, number: u32)
    ensures adds { Adds out.old out.new (replicate stem 95 ++ codes "t" ++ decimal number) }
{
    out.put_stem(stem);
    out.put(b"t");
    out.put_number(number);
}

// Inputs of the netlist are those of the top and then the registers.
fn put_input(out: &mut TextBuffer, flat: &Flat, i: u32)
    requires there { i < length flat.now.ins + length flat.now.regs }
    ensures adds { Adds out.old out.new (printed (slice_index_or (flat.now.ins ++ state_texts flat.now) i [])) }
{
    let ins = flat.ins();
    let i = i as usize;
    if i < ins.len() {
        put_name(out, &ins[i]);
    } else {
        put_name(out, &flat.regs()[i - ins.len()].text);
    }
}

/// A constant is its bit, an input or register its text; any other cell its own net.
pub(crate) fn put_word(out: &mut TextBuffer, flat: &Flat, stem: usize, place: u32)
    requires there { place < length flat.now.net.cells }
    ensures adds { Adds out.old out.new (word_text (replicate stem 95) (word_at flat.now place)) }
{
    match flat.net().cells()[place as usize] {
        Cell::Const(b) => put_bit(out, b),
        Cell::Input(i) => put_input(out, flat, i),
        _ => put_net(out, stem, place),
    }
}
