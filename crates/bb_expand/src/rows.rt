//! Clauses of a box output: two for each row of its table. A row is a guard over the input pins, so the variables of
//! the table bits are selected by position and need no multiplexer tree. Boxes of one sharing class use the same table
//! variables.

ghost use Rattle.std.specs.Prelude.{◌≡◌, ◌+◌, ◌*◌, ◌^◌, ◌<◌, ◌≤◌, ◌∷◌, ◌++◌, [], All, length, map, IfOk, OnOk};
ghost use Rattle.std.specs.List.{flat_map, range_with_len};
ghost use Rattle.bb_bits.specs.Numbers.{bits_of};
ghost use Rattle.bb_cnf.specs.Clauses.{lists_of};
ghost use Rattle.bb_net.specs.Completions.{HaveSmallTables};
ghost use Rattle.bb_net.specs.Kinds.{representatives};
ghost use Rattle.bb_net.specs.Netlists.{box_at};
ghost use Rattle.bb_expand.specs.Inside.TableStarts.{AreStarts};
ghost use Rattle.bb_expand.specs.Expansions.{differing, row_clauses};

use crate::clauses::{having, no, yes};
use crate::numbers::spell;
use crate::tables::shown_boxes;
use bb_bits::NoMemory;
use bb_cnf::Lit;
use bb_net::{BoxPins, Pair};
use smallvec::SmallVec;
use std::alloc::Global;

// Without outputs there are no bits, however many rows; the test comes before the shift, which could overflow.
pub(crate) fn box_bits(pins: &BoxPins) -> u32
    requires small { length pins.now.outs * 2 ^ length pins.now.ins ≤ 2 ^ 24 }
    ensures bits { result ≡ length pins.now.outs * 2 ^ length pins.now.ins }
{
    let outs = pins.outs().len() as u32;
    if outs == 0 {
        0
    } else {
        outs << pins.ins().len()
    }
}

fn starts_of_boxes(alloc: Global, firsts: &[u32], boxes: &[BoxPins]) -> Result<Vec<u32>, NoMemory>
    requires there { All (λ b. b < length boxes.now) firsts.now }
    requires small { HaveSmallTables (map (box_at boxes.now) firsts.now) }
    ensures starts { IfOk result (λ starts. AreStarts starts.items (map (box_at boxes.now) firsts.now)) }
{
    let mut starts = Vec::with_capacity(alloc, firsts.len())?;
    let mut start = 0;
    for b in firsts {
        starts.push(start)?;
        start += box_bits(&boxes[*b as usize]);
    }
    Ok(starts)
}

// For each sharing class, how many table bits come before its table.
pub(crate) fn table_starts(alloc: Global, pair: &Pair) -> Result<Vec<u32>, NoMemory>
    requires small { HaveSmallTables (representatives pair.now.kinds pair.now.imp.boxes) }
    ensures starts { IfOk result (λ starts.
        AreStarts starts.items (representatives pair.now.kinds pair.now.imp.boxes)) }
{
    let firsts = shown_boxes(alloc, pair)?;
    let starts = starts_of_boxes(alloc, &firsts, pair.imp().boxes())?;
    Ok(starts)
}

// Some input pin differs from the row, or `y` or `t` is true.
fn row_clause(
    alloc: Global,
    base: u32,
    ins: &[u32],
    row: &[bool],
    y: Lit,
    t: Lit,
) -> Result<SmallVec<Lit, 4>, NoMemory>
    requires bits { length row.now ≡ length ins.now }
    requires there { All (λ pin. base + pin + 1 < 2 ^ 32) ins.now }
    ensures clause { IfOk result (λ clause.
        clause.items ≡ differing (λ pin. base + pin + 1) ins.now row.now ++ y ∷ t ∷ []) }
{
    let mut clause = SmallVec::with_capacity(alloc, ins.len() + 2)?;
    for (i, pin) in ins.iter().enumerate() {
        clause.push(having(base + *pin + 1, !row[i]))?;
    }
    clause.push(y)?;
    clause.push(t)?;
    Ok(clause)
}

fn push_row(
    clauses: &mut Vec<SmallVec<Lit, 4>>,
    base: u32,
    ins: &[u32],
    row: &[bool],
    y: u32,
    t: u32,
) -> Result<(), NoMemory>
    requires bits { length row.now ≡ length ins.now }
    requires there { All (λ pin. base + pin + 1 < 2 ^ 32) ins.now }
    ensures { OnOk result (lists_of clauses.new.items
        ≡ lists_of clauses.old.items ++ row_clauses (λ pin. base + pin + 1) ins.now y row.now t) }
{
    let alloc = *clauses.allocator();
    clauses.push(row_clause(alloc, base, ins, row, no(y), yes(t))?)?;
    clauses.push(row_clause(alloc, base, ins, row, yes(y), no(t))?)?;
    Ok(())
}

// `start` table bits come before those of this table. In it the order is row by row, and output pins within a row.
pub(crate) fn push_pin(
    clauses: &mut Vec<SmallVec<Lit, 4>>,
    base: u32,
    pins: &BoxPins,
    start: u32,
    pin: u32,
    y: u32,
) -> Result<(), NoMemory>
    requires small { start + length pins.now.outs * 2 ^ length pins.now.ins ≤ 2 ^ 24 }
    requires pin { pin < length pins.now.outs }
    requires there { All (λ place. base + place + 1 < 2 ^ 32) pins.now.ins }
    ensures { OnOk result (lists_of clauses.new.items ≡ lists_of clauses.old.items
        ++ flat_map (λ row. row_clauses (λ place. base + place + 1) pins.now.ins y (bits_of (length pins.now.ins) row)
        (start + row * length pins.now.outs + pin + 1)) (range_with_len 0 (2 ^ length pins.now.ins))) }
{
    let ins = pins.ins();
    let outs = pins.outs().len() as u32;
    let mut bits = vec![in *clauses.allocator(); false; ins.len()]?;
    for row in 0..1u32 << ins.len() {
        spell(row, &mut bits);
        push_row(clauses, base, ins, &bits, y, start + row * outs + pin + 1)?;
    }
    Ok(())
}
