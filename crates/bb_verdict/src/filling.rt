//! The filled implementation after the verdict `repairable`. It comes last and on the same stream, since the program
//! writes no file: everything up to the verdict is the same with and without `--fill`, and no line after it looks like
//! that of a table, so a script that reads reports by their lines needs no change. Where no text can be printed, a line
//! says why, and the status stays 0: the tables are in the report and make the designs equivalent, and only this form
//! of them is missing.

ghost use Rattle.std.specs.Prelude.{◌≡◌, ◌++◌, ℕ, true, List, OnOk};
ghost use Rattle.bb_bits.specs.Tables.{TableBits};
ghost use Rattle.bb_fill.specs.Answers.{Answer, IsFillAnswer};
ghost use Rattle.bb_net.specs.Flats.{HaveClocks};
ghost use Rattle.bb_net.specs.Kinds.{per_box};
ghost use Rattle.bb_net.specs.Values.{FitBoxes};
ghost use Rattle.bb_checks.specs.Reports.{GivesTables};
ghost use Rattle.bb_verdict.specs.FilledTexts.{MayFollowVerdict, answer_text};

use bb_bits::{NoMemory, Table};
use bb_checks::{Line, Verdict, given_tables, verdict_of};
use bb_fill::{FillFault, fill};
use bb_net::Flat;
use std::alloc::Global;

fn put_filled(
    alloc: Global,
    text: &mut Vec<u8>,
    imp: &Flat,
    kinds: &[u32],
    tables: &[Table],
) -> Result<(), NoMemory>
    requires clocks { HaveClocks imp.now }
    requires tables { FitBoxes (per_box kinds.now tables.now) imp.now.net.boxes }
    ensures put { OnOk result ((answer : Answer) × IsFillAnswer imp.now (per_box kinds.now tables.now) answer
        × (text.new.items ≡ text.old.items ++ answer_text answer)) }
{
    match fill(alloc, imp, tables, kinds) {
        Ok(filled) => {
            text.extend_from_slice(b"fill\n")?;
            text.extend_from_slice(&filled)?;
        }
        Err(FillFault::Clash { name }) => {
            text.extend_from_slice(b"fill clash ")?;
            text.extend_from_slice(name.bytes())?;
            text.extend_from_slice(b"\n")?;
        }
        Err(FillFault::TooLarge) => text.extend_from_slice(b"fill toolarge\n")?,
        Err(FillFault::NoMemory) => return Err(NoMemory),
    }
    Ok(())
}

/// Appends nothing unless the verdict is `repairable`.
pub(crate) fn put_rest(
    alloc: Global,
    text: &mut Vec<u8>,
    imp: &Flat,
    kinds: &[u32],
    lines: &[Line],
) -> Result<(), NoMemory>
    requires clocks { HaveClocks imp.now }
    requires tables { (tables : List TableBits) → GivesTables lines.now tables
        → FitBoxes (per_box kinds.now tables) imp.now.net.boxes }
    ensures put { OnOk result ((rest : List ℕ) × MayFollowVerdict true imp.now kinds.now lines.now rest
        × (text.new.items ≡ text.old.items ++ rest)) }
{
    match given_tables(lines) {
        Some(tables) if verdict_of(lines) == Verdict::Repairable => {
            put_filled(alloc, text, imp, kinds, tables)
        }
        _ => Ok(()),
    }
}
