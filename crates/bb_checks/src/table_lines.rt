//! The tables of a report as lines, one for each output pin of each sharing class. Boxes are named by their paths or,
//! where boxes of one module share their contents, by the module; the pins are those of the first box of the class.
//! BITS has row 0 first, and the first pin is the most significant bit of a row's number.

ghost use Rattle.std.specs.Prelude.{◌≡◌, ◌<◌, ◌++◌, ℕ, All, length, map, OnOk};
ghost use Rattle.std.specs.List.{flat_map};
ghost use Rattle.bb_net.specs.Kinds.{representatives};
ghost use Rattle.bb_net.specs.Values.{table_at};
ghost use Rattle.bb_checks.specs.Rungs.{TablesCanBeReported, texts_at};
ghost use Rattle.bb_checks.specs.TableLines.{printed_bit, pin_column, table_line, box_lines, table_lines};

use crate::bits::push_bit;
use crate::kind_laws::kind_laws;
use bb_bits::{Name, NoMemory, Table, tables_have_few_inputs};
use bb_net::{BoxName, Pair};

fn push_rows(text: &mut Vec<u8>, table: &Table, pin: u32) -> Result<(), NoMemory>
    requires pin { pin < table.now.outputs }
    ensures text { OnOk result (text.new.items ≡ text.old.items ++ flat_map printed_bit (pin_column table.now pin)) }
{
    tables_have_few_inputs();
    let rows = 1u32 << table.inputs();
    for row in 0..rows {
        push_bit(text, table.bit(row, pin))?;
    }
    Ok(())
}

fn push_pin(
    text: &mut Vec<u8>,
    key: &Name,
    name: &Name,
    table: &Table,
    pin: u32,
) -> Result<(), NoMemory>
    requires pin { pin < table.now.outputs }
    ensures text { OnOk result (text.new.items
        ≡ text.old.items ++ table_line key.now name.now (pin_column table.now pin)) }
{
    text.extend_from_slice(b"table ")?;
    text.extend_from_slice(key.bytes())?;
    text.extend_from_slice(b" ")?;
    text.extend_from_slice(name.bytes())?;
    text.extend_from_slice(b" ")?;
    push_rows(text, table, pin)?;
    text.extend_from_slice(b"\n")?;
    Ok(())
}

fn push_box(
    text: &mut Vec<u8>,
    shared: bool,
    texts: &BoxName,
    table: &Table,
) -> Result<(), NoMemory>
    requires outputs { table.now.outputs ≡ length texts.now.outs }
    ensures text { OnOk result (text.new.items ≡ text.old.items ++ box_lines shared (texts.now, table.now)) }
{
    for pin in 0..table.outputs() {
        let name = &texts.outs()[pin as usize];
        push_pin(text, texts.key(shared), name, table, pin)?;
    }
    Ok(())
}

// `places` has the first box of each class.
fn push_boxes(
    text: &mut Vec<u8>,
    shared: bool,
    boxes: &[BoxName],
    places: &[u32],
    tables: &[Table],
) -> Result<(), NoMemory>
    requires there { All (λ b. b < length boxes.now) places.now }
    requires count { length tables.now ≡ length places.now }
    requires outputs { (k : ℕ) → k < length tables.now
        → (table_at tables.now k).outputs ≡ length (texts_at (map (texts_at boxes.now) places.now) k).outs }
    ensures text { OnOk result (text.new.items
        ≡ text.old.items ++ table_lines shared (map (texts_at boxes.now) places.now) tables.now) }
{
    for (k, b) in places.iter().enumerate() {
        push_box(text, shared, &boxes[*b as usize], &tables[k])?;
    }
    Ok(())
}

/// In the order of the first box of each class, and of its pins.
pub(crate) fn push_tables(
    text: &mut Vec<u8>,
    shared: bool,
    pair: &Pair,
    tables: &[Table],
) -> Result<(), NoMemory>
    requires reported { TablesCanBeReported pair.now tables.now }
    ensures text { OnOk result (text.new.items
        ≡ text.old.items ++ table_lines shared (representatives pair.now.kinds pair.now.boxes) tables.now) }
{
    kind_laws();
    let firsts = pair.first_boxes(*text.allocator())?;
    push_boxes(text, shared, pair.boxes(), &firsts, tables)
}
