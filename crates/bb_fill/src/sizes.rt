//! Sizes of the filled text, counted in 64 bits from tables and names before anything is printed. The number of nets
//! comes first: within its bound choices have numbers of 32 bits, which the printer needs.

ghost use Rattle.std.specs.Prelude.{◌≡◌, ◌<◌, ◌≤◌, ◌^◌, length, sum_by};
ghost use Rattle.bb_net.specs.Kinds.{per_box};
ghost use Rattle.bb_net.specs.Netlists.{cell_at};
ghost use Rattle.bb_net.specs.Values.{FitBoxes};
ghost use Rattle.bb_fill.specs.Filled.{cell_lines, choice_count, lines_of_cells};
ghost use Rattle.bb_fill.specs.Sizes.{net_count, plain_outputs};
ghost use Rattle.bb_fill.specs.Inside.Indexes.{IsIndex};

use crate::index::{Texts, is_register};
use crate::parts::{cell_count, cell_of, input_count, output_count, output_text, table_of};
use crate::trees::row_count;
use bb_bits::Table;
use bb_net::{Cell, Flat};

// A tree over n pins gives 2^n - 1 choices and one `buf`.
fn line_count(flat: &Flat, tables: &[Table], kinds: &[u32], number: u32) -> u64
    requires tables { FitBoxes (per_box kinds.now tables.now) flat.now.net.boxes }
    requires there { number < length flat.now.net.cells }
    ensures count { result
        ≡ length (cell_lines flat.now (per_box kinds.now tables.now) number (cell_at flat.now.net.cells number)) }
    ensures choices { choice_count flat.now.net.boxes (cell_at flat.now.net.cells number) ≤ result }
    ensures few { result ≤ 2 ^ 25 }
{
    match cell_of(flat, number) {
        Cell::Const(_) | Cell::Input(_) => 0,
        Cell::BoxOut(b, p) => row_count(table_of(flat, tables, kinds, b, p)) as u64,
        _ => 1,
    }
}

fn all_line_count(flat: &Flat, tables: &[Table], kinds: &[u32]) -> u64
    requires tables { FitBoxes (per_box kinds.now tables.now) flat.now.net.boxes }
    ensures count { result ≡ length (lines_of_cells flat.now (per_box kinds.now tables.now)) }
    ensures choices { sum_by (choice_count flat.now.net.boxes) flat.now.net.cells ≤ result }
    ensures few { result ≤ 2 ^ 57 }
{
    let mut count = 0;
    for number in 0..cell_count(flat) {
        count += line_count(flat, tables, kinds, number);
    }
    count
}

// An output that is a register is one net with it.
fn plain_count(flat: &Flat, texts: &Texts) -> u64
    requires index { IsIndex flat.now texts.now.entries }
    ensures count { result ≡ length (plain_outputs flat.now) }
    ensures few { result ≤ 2 ^ 32 }
{
    let mut count = 0;
    for o in 0..output_count(flat) {
        if !is_register(flat, texts, output_text(flat, o)) {
            count += 1;
        }
    }
    count
}

/// Inputs, registers, further outputs, and one net for each line of a cell.
pub(crate) fn net_count(flat: &Flat, tables: &[Table], kinds: &[u32], texts: &Texts) -> u64
    requires tables { FitBoxes (per_box kinds.now tables.now) flat.now.net.boxes }
    requires index { IsIndex flat.now texts.now.entries }
    ensures count { result ≡ net_count flat.now (per_box kinds.now tables.now) }
    ensures choices { sum_by (choice_count flat.now.net.boxes) flat.now.net.cells ≤ result }
{
    let inputs = input_count(flat) as u64;
    inputs + plain_count(flat, texts) + all_line_count(flat, tables, kinds)
}
