//! The verdict on a list of results. An error counts before tables; both at once do not occur, by a law, so the order
//! only makes the function total.

ghost use Rattle.std.specs.Prelude.{◌≡◌, false, IfNone, IfSome, Vec};
ghost use Rattle.std.specs.declared.alloc.Global.{Global};
ghost use Rattle.std.specs.List.{list_any};
ghost use Rattle.bb_bits.specs.Tables.{TableBits};
ghost use Rattle.bb_checks.specs.declared.line.CheckResult.TheVariants.{Repair};
ghost use Rattle.bb_checks.specs.Reports.{GivesTables, is_error, is_repair, verdict_of, verdict_name, status_of};

use crate::line::{CheckResult, Line};
use bb_bits::Table;

/// The verdict of all checks together.
#[derive(Clone, Copy, Debug, PartialEq, Eq)]
pub enum Verdict {
    /// No contents of the boxes make the designs equivalent.
    Error,
    /// The reported tables make them equivalent.
    Repairable,
    /// No requested check decided.
    Open,
}

impl Verdict {
    /// The word after `verdict` in reports.
    pub fn name(self) -> &'static str
        ensures name { result.now ≡ verdict_name self }
    {
        match self {
            Verdict::Error => "error",
            Verdict::Repairable => "repairable",
            Verdict::Open => "open",
        }
    }

    /// Exit status: 0 `repairable`, 1 `error`, 3 `open`. 2 is left for refusals.
    pub fn status(self) -> u8
        ensures status { result ≡ status_of self }
    {
        match self {
            Verdict::Repairable => 0,
            Verdict::Error => 1,
            Verdict::Open => 3,
        }
    }
}

pub(crate) fn is_error(line: &Line) -> bool
    ensures error { result ≡ is_error line.now }
{
    matches!(line.check_result, CheckResult::Error(_))
}

pub(crate) fn is_repair(line: &Line) -> bool
    ensures repair { result ≡ is_repair line.now }
{
    matches!(line.check_result, CheckResult::Repair(_))
}

fn any_error(lines: &[Line]) -> bool
    ensures any { result ≡ list_any is_error lines.now }
{
    lines.iter().any(|line| is_error(line))
}

fn any_repair(lines: &[Line]) -> bool
    ensures any { result ≡ list_any is_repair lines.now }
{
    lines.iter().any(|line| is_repair(line))
}

fn tables_of_line(line: &Line) -> Option<&[Table]>
    ensures some { IfSome result (λ tables.
        (given : Vec TableBits Global) × (line.now.check_result ≡ Repair given) × (given.items ≡ tables.now)) }
    ensures none { IfNone result (is_repair line.now ≡ false) }
{
    match &line.check_result {
        CheckResult::Repair(tables) => Some(tables),
        _ => None,
    }
}

/// One for each sharing class; none where no check gives tables. At most one check does, so the first is the only one.
pub fn given_tables(lines: &[Line]) -> Option<&[Table]>
    ensures some { IfSome result (λ tables. GivesTables lines.now tables.now) }
    ensures none { IfNone result (list_any is_repair lines.now ≡ false) }
{
    for line in lines {
        if let Some(tables) = tables_of_line(line) {
            return Some(tables);
        }
    }
    None
}

/// `Error` where a check reports one, else `Repairable` where one gives tables, else `Open`.
pub fn verdict_of(lines: &[Line]) -> Verdict
    ensures verdict { result ≡ verdict_of lines.now }
{
    if any_error(lines) {
        Verdict::Error
    } else if any_repair(lines) {
        Verdict::Repairable
    } else {
        Verdict::Open
    }
}
