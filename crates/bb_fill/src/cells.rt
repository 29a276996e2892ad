//! The lines of the cells, in the order of the netlist. Operands come before their cell there, so a line reads only
//! what is driven before it, and no loop has to be excluded.

ghost use Rattle.std.specs.Prelude.{◌≡◌, ◌+◌, ◌<◌, ◌^◌, length, replicate, sum_by};
ghost use Rattle.std.specs.List.{flat_map};
ghost use Rattle.bb_net.specs.Kinds.{per_box};
ghost use Rattle.bb_net.specs.Netlists.{cell_at};
ghost use Rattle.bb_net.specs.Values.{FitBoxes};
ghost use Rattle.bb_fill.specs.Lines.{line_text};
ghost use Rattle.bb_fill.specs.Filled.{cell_lines, choice_count, first_choice, lines_of_cells};
ghost use Rattle.bb_fill.specs.Inside.TextBuffers.{Adds};

use crate::lines::{put_gate_of_one, put_gate_of_two, put_multiplexer};
use crate::parts::{cell_count, cell_of, pins_of, table_of};
use crate::text_buffer::TextBuffer;
use crate::trees::{put_pin, row_count};
use bb_bits::Table;
use bb_net::{Cell, Flat};

/// The number of inner nodes of a box pin's tree, 2^n - 1 for n input pins; 0 for other cells.
pub(crate) fn choice_count(flat: &Flat, tables: &[Table], kinds: &[u32], number: u32) -> u32
    requires tables { FitBoxes (per_box kinds.now tables.now) flat.now.net.boxes }
    requires there { number < length flat.now.net.cells }
    ensures count { result ≡ choice_count flat.now.net.boxes (cell_at flat.now.net.cells number) }
    ensures few { result < 2 ^ 25 }
{
    match cell_of(flat, number) {
        Cell::BoxOut(b, p) => row_count(table_of(flat, tables, kinds, b, p)) - 1,
        _ => 0,
    }
}

// `first` is the number of the cell's first choice. Constants and inputs need no line: they are words themselves.
fn put_cell(
    out: &mut TextBuffer,
    flat: &Flat,
    tables: &[Table],
    kinds: &[u32],
    stem: usize,
    first: u32,
    number: u32,
)
    requires tables { FitBoxes (per_box kinds.now tables.now) flat.now.net.boxes }
    requires there { number < length flat.now.net.cells }
    requires first { first ≡ first_choice flat.now number }
    requires room { first + choice_count flat.now.net.boxes (cell_at flat.now.net.cells number) < 2 ^ 32 }
    ensures adds { Adds out.old out.new (flat_map (line_text (replicate stem 95)) (cell_lines flat.now
        (per_box kinds.now tables.now) number (cell_at flat.now.net.cells number))) }
{
    match cell_of(flat, number) {
        Cell::Const(_) | Cell::Input(_) => {}
        Cell::Not(a) => put_gate_of_one(out, flat, "not", stem, number, a),
        Cell::And(a, b) => put_gate_of_two(out, flat, "and", stem, number, a, b),
        Cell::Or(a, b) => put_gate_of_two(out, flat, "or", stem, number, a, b),
        Cell::Xor(a, b) => put_gate_of_two(out, flat, "xor", stem, number, a, b),
        Cell::Mux(c, t, e) => put_multiplexer(out, flat, stem, number, c, t, e),
        Cell::BoxOut(b, p) => {
            let table = table_of(flat, tables, kinds, b, p);
            put_pin(out, flat, stem, number, pins_of(flat, b), first, table, p)
        }
    }
}

/// Choices are numbered through all cells, so each has a net of its own.
pub(crate) fn put_cells(
    out: &mut TextBuffer,
    flat: &Flat,
    tables: &[Table],
    kinds: &[u32],
    stem: usize,
)
    requires tables { FitBoxes (per_box kinds.now tables.now) flat.now.net.boxes }
    requires room { sum_by (choice_count flat.now.net.boxes) flat.now.net.cells < 2 ^ 32 }
    ensures adds { Adds out.old out.new (flat_map (line_text (replicate stem 95)) (lines_of_cells flat.now
        (per_box kinds.now tables.now))) }
{
    let mut first = 0;
    for number in 0..cell_count(flat) {
        put_cell(out, flat, tables, kinds, stem, first, number);
        first += choice_count(flat, tables, kinds, number);
    }
}
