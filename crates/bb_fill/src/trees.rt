//! Trees of choices over the tables of boxes, one for each output pin: the leaves are the bits of its rows, the level
//! next to them chooses by the last input pin, and the root by the first. Such a tree has 2^n - 1 choices for n pins,
//! whatever the table has: its size and its names are known from the pins alone, so both are counted before anything is
//! printed.

ghost use Rattle.std.specs.Prelude.{◌≡◌, ◌+◌, ◌*◌, ◌^◌, ◌<◌, ◌≤◌, ◌++◌, ◌∷◌, [], ℕ, All, length, map, replicate};
ghost use Rattle.std.specs.Prelude.{reverse};
ghost use Rattle.std.specs.List.{flat_map};
ghost use Rattle.bb_fill.specs.Words.{Bit, CellNet, word_at, word_text};
ghost use Rattle.bb_fill.specs.Lines.{Buf, Gate, line_text};
ghost use Rattle.bb_bits.specs.Tables.{column};
ghost use Rattle.bb_fill.specs.Trees.{halved, tree_lines, tree_values};
ghost use Rattle.bb_fill.specs.Inside.Levels.{HasValues, level_choice, level_words, value_word};
ghost use Rattle.bb_fill.specs.Inside.TextBuffers.{Adds};

use crate::text_buffer::TextBuffer;
use crate::words::{put_bit, put_choice, put_net, put_word};
use bb_bits::{Table, tables_have_few_inputs};
use bb_net::Flat;

/// The bits of the rows, or the nets of the choices from this number on.
#[derive(Clone, Copy, Debug, PartialEq, Eq)]
pub(crate) enum Values {
    Rows,
    Nets(u32),
}

fn put_value(out: &mut TextBuffer, table: &Table, p: u32, stem: usize, values: Values, i: u32)
    requires pin { p < table.now.outputs }
    requires values { HasValues table.now values (i + 1) }
    ensures adds { Adds out.old out.new (word_text (replicate stem 95) (value_word table.now p values i)) }
{
    match values {
        Values::Rows => put_bit(out, table.bit(i, p)),
        Values::Nets(first) => put_choice(out, stem, first + i),
    }
}

// The right neighbour where the pin is 1: it has the larger row number.
fn put_level_choice(
    out: &mut TextBuffer,
    flat: &Flat,
    stem: usize,
    pin: u32,
    first: u32,
    table: &Table,
    p: u32,
    values: Values,
    i: u32,
)
    requires there { pin < length flat.now.net.cells }
    requires pin { p < table.now.outputs }
    requires values { HasValues table.now values (2 * i + 2) }
    requires room { (first + i < 2 ^ 32) × (2 * i + 2 ≤ 2 ^ 32) }
    ensures adds { Adds out.old out.new (line_text (replicate stem 95) (level_choice table.now p values
        (word_at flat.now pin) first i)) }
{
    out.put(b"assign ");
    put_choice(out, stem, first + i);
    out.put(b" = ");
    put_word(out, flat, stem, pin);
    out.put(b" ? ");
    put_value(out, table, p, stem, values, 2 * i + 1);
    out.put(b" : ");
    put_value(out, table, p, stem, values, 2 * i);
    out.put(b";\n");
}

fn put_level(
    out: &mut TextBuffer,
    flat: &Flat,
    stem: usize,
    pin: u32,
    first: u32,
    table: &Table,
    p: u32,
    values: Values,
    count: u32,
)
    requires there { pin < length flat.now.net.cells }
    requires pin { p < table.now.outputs }
    requires values { HasValues table.now values (2 * count) }
    requires room { (first + count ≤ 2 ^ 32) × (2 * count ≤ 2 ^ 32) }
    ensures adds { Adds out.old out.new (flat_map (line_text (replicate stem 95)) (halved (word_at flat.now pin)
        first (level_words table.now p values (2 * count)))) }
{
    for i in 0..count {
        put_level_choice(out, flat, stem, pin, first, table, p, values, i);
    }
}

// From the last pin to the first; ends since each level halves the values, and returns the one that is left.
fn put_levels(
    out: &mut TextBuffer,
    flat: &Flat,
    stem: usize,
    pins: &[u32],
    first: u32,
    table: &Table,
    p: u32,
    values: Values,
    count: u32,
) -> Values
    requires there { All (λ k. k < length flat.now.net.cells) pins.now }
    requires pin { p < table.now.outputs }
    requires count { count ≡ 2 ^ length pins.now }
    requires values { HasValues table.now values count }
    requires room { first + count ≤ 2 ^ 32 }
    ensures adds { Adds out.old out.new (flat_map (line_text (replicate stem 95)) (tree_lines
        (reverse (map (word_at flat.now) pins.now)) first (level_words table.now p values count))) }
    ensures left { tree_values (reverse (map (word_at flat.now) pins.now)) first (level_words table.now p values
        count)
        ≡ level_words table.now p result 1 }
    ensures value { HasValues table.now result 1 }
{
    let Some((last, rest)) = pins.split_last() else {
        return values;
    };
    let half = count / 2;
    put_level(out, flat, stem, *last, first, table, p, values, half);
    put_levels(
        out,
        flat,
        stem,
        rest,
        first + half,
        table,
        p,
        Values::Nets(first),
        half,
    )
}

// The cell's own net gets the value by a `buf`, so other lines need not know that it is a tree.
fn put_root(out: &mut TextBuffer, table: &Table, p: u32, stem: usize, number: u32, values: Values)
    requires pin { p < table.now.outputs }
    requires value { HasValues table.now values 1 }
    ensures adds { Adds out.old out.new (line_text (replicate stem 95) (Gate Buf (CellNet number)
        (level_words table.now p values 1))) }
{
    out.put(b"buf(");
    put_net(out, stem, number);
    out.put(b",");
    put_value(out, table, p, stem, values, 0);
    out.put(b");\n");
}

/// 2^n for n input pins; below 2^25 by the bound of tables.
pub(crate) fn row_count(table: &Table) -> u32
    requires some { 0 < table.now.outputs }
    ensures rows { result ≡ 2 ^ table.now.inputs }
    ensures some { 1 ≤ result }
    ensures few { result < 2 ^ 25 }
{
    tables_have_few_inputs();
    1 << table.inputs()
}

/// A tree over the pin's column of the table, and the `buf` of its value.
pub(crate) fn put_pin(
    out: &mut TextBuffer,
    flat: &Flat,
    stem: usize,
    number: u32,
    pins: &[u32],
    first: u32,
    table: &Table,
    p: u32,
)
    requires there { All (λ k. k < length flat.now.net.cells) pins.now }
    requires inputs { table.now.inputs ≡ length pins.now }
    requires pin { p < table.now.outputs }
    requires room { first + 2 ^ length pins.now ≤ 2 ^ 32 }
    ensures adds { Adds out.old out.new (flat_map (line_text (replicate stem 95)) (tree_lines
        (reverse (map (word_at flat.now) pins.now)) first (map Bit (column table.now p))
        ++ Gate Buf (CellNet number) (tree_values (reverse (map (word_at flat.now) pins.now)) first
        (map Bit (column table.now p)))
        ∷ [])) }
{
    let rows = row_count(table);
    let values = put_levels(out, flat, stem, pins, first, table, p, Values::Rows, rows);
    put_root(out, table, p, stem, number, values);
}
