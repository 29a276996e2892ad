//! Tables of bits, and how they are the contents of a box. Rows are one after another in one vector, row 0 first. What
//! a report prints is bounded at 2^24 bits, and this type alone has that bound: definitions speak of tables of any
//! size.

ghost use Rattle.std.specs.Prelude.{◌≡◌, ℕ, ◌+◌, ◌*◌, ◌<◌, ◌≤◌, ◌^◌, Bool, List, length, take, drop, slice_set, IfOk};
ghost use Rattle.std.specs.Prelude.{All};
ghost use Rattle.bb_bits.specs.Numbers.{number_of};
ghost use Rattle.bb_bits.specs.Tables.{TableBits, IsTable, row_of, table_bit, zero_table};
ghost use Rattle.bb_bits.specs.Laws.RowLaws.{RowsHaveShape, RowsAreChosen, BitsAreChosen, RowsHaveTable, RowsFixTable};

use crate::NoMemory;
use crate::number::number;
use std::alloc::Global;
use std::marker::Model;

/// A row of `outputs` bits for each list of `inputs` bits.
///
/// Input bits choose the row whose number they spell in binary, the first pin as the most significant bit.
#[derive(Debug, Drop)]
pub struct Table {
    inputs: u32,
    outputs: u32,
    rows: Vec<bool>,
}

impl Model for Table {
    ghost use Rattle.bb_bits.specs.Tables.{TableBits, IsTable};

    ghost Value = { TableBits };

    ghost view = { λ t. record { inputs = t.inputs; outputs = t.outputs; rows = t.rows.items } };

    ghost invariant = { λ t. IsTable (record { inputs = t.inputs; outputs = t.outputs; rows = t.rows.items }) };
}

impl Table {
    /// All bits are 0. There are at most 2^24 bits; without outputs there may be any number of inputs.
    pub fn zeros(alloc: Global, inputs: u32, outputs: u32) -> Result<Table, NoMemory>
        requires { outputs * 2 ^ inputs ≤ 2 ^ 24 }
        ensures ok { IfOk result (λ table. table ≡ zero_table inputs outputs) }
    {
        let rows = vec![in alloc; false; bit_count(inputs, outputs)]?;
        Ok(Table {
            inputs,
            outputs,
            rows,
        })
    }

    /// Input pins; at most 24 if there is an output, else any number.
    pub fn inputs(&self) -> u32
        ensures inputs { result ≡ self.now.inputs }
        ensures kept { IsTable self.now }
    {
        self.inputs
    }

    /// Output pins, which may be none.
    pub fn outputs(&self) -> u32
        ensures outputs { result ≡ self.now.outputs }
        ensures kept { IsTable self.now }
    {
        self.outputs
    }

    // Hands out the invariant of one table, for `tables_have_all_bits`.
    fn keeps_its_bits(&self)
        ensures { IsTable self.now }
    {
        let _ = &self.rows;
    }

    /// Writes the row that the input bits `ins` choose, the first output pin first.
    pub fn row(&self, ins: &[bool], out: &mut [bool])
        requires inputs { length ins.now ≡ self.now.inputs }
        requires outputs { length out.old ≡ self.now.outputs }
        ensures row { out.new ≡ row_of self.now (number_of ins.now) }
    {
        // Without outputs there is nothing to write, and the inputs may be too many to spell a number of 32 bits.
        if self.outputs > 0 {
            copy_row(&self.rows, number(ins), out);
        }
    }

    /// `row` and `pin` count from 0.
    pub fn set(&mut self, row: u32, pin: u32, bit: bool)
        requires row { row < 2 ^ self.old.inputs }
        requires pin { pin < self.old.outputs }
        ensures set { self.new ≡ record self.old { rows = slice_set self.old.rows (row * self.old.outputs + pin) bit } }
    {
        let place = place_of(self.outputs, row, pin);
        self.rows[place] = bit;
    }

    /// `row` and `pin` count from 0.
    pub fn bit(&self, row: u32, pin: u32) -> bool
        requires row { row < 2 ^ self.now.inputs }
        requires pin { pin < self.now.outputs }
        ensures bit { result ≡ table_bit self.now row pin }
    {
        self.rows[place_of(self.outputs, row, pin)]
    }
}

fn copy_row(rows: &[bool], row: usize, out: &mut [bool])
    requires { row * length out.old + length out.old ≤ length rows.now }
    ensures { out.new ≡ take (length out.old) (drop (row * length out.old) rows.now) }
{
    let start = row * out.len();
    out.copy_from_slice(&rows[start..start + out.len()]);
}

fn place_of(outputs: u32, row: u32, pin: u32) -> usize
    ensures { result ≡ row * outputs + pin }
{
    row as usize * outputs as usize + pin as usize
}

// Without outputs the shift is not made: `inputs` may be more than a word has bits.
fn bit_count(inputs: u32, outputs: u32) -> usize
    requires { outputs * 2 ^ inputs ≤ 2 ^ 24 }
    ensures { result ≡ outputs * 2 ^ inputs }
{
    if outputs == 0 {
        0
    } else {
        (outputs as usize) << inputs
    }
}

/// With k inputs and m outputs exactly m * 2^k.
pub fn tables_have_all_bits(tables: &[Table])
    ensures { All IsTable tables.now }
{
    for table in tables {
        table.keeps_its_bits();
    }
}

/// From the bound of 2^24 bits: so a row's number fits into 32 bits.
#[tactic(auto, using(crate::proofs::TableLemmas::few_inputs))]
pub fn tables_have_few_inputs()
    ensures { (t : TableBits) → IsTable t → 0 < t.outputs → t.inputs ≤ 24 }
{}

/// So a table can be put into a box by its rows, without a look at them.
pub fn rows_have_shape()
    ensures { RowsHaveShape }
{}

/// Ties the two ways to say a bit: by a row's number and a place in the table, and by input bits and a pin of the box.
pub fn rows_are_chosen()
    ensures row { RowsAreChosen }
    ensures bit { BitsAreChosen }
{}

/// So tables and contents of a box say the same, and a verdict on tables is one on contents.
pub fn rows_are_tables()
    ensures found { RowsHaveTable }
    ensures unique { RowsFixTable }
{}
