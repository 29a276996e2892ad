//! The report: a line for each check with its details, and the verdict last. Errors and tables come right after the
//! check that found them, so before the verdict there are lines of checks with their details and nothing else. Whether
//! a proof is printed is an option like the bounds: the details of a line are then a function of the result and the
//! options.

ghost use Rattle.std.specs.Prelude.{◌≡◌, ◌++◌, ◌<◌, length, zip, All, IfOk, IfSome, OnOk};
ghost use Rattle.std.specs.List.{flat_map};
ghost use Rattle.bb_checks.specs.Reports.{result_name, output_line, reported_output, printed_input, input_line};
ghost use Rattle.bb_checks.specs.Reports.{evidence_text, details, rung_line, check_line_text, verdict_line};
ghost use Rattle.bb_checks.specs.Reports.{report_text};
ghost use Rattle.bb_checks.specs.Rungs.{CanBeReported, EvidenceCanBeReported, ResultCanBeReported};

use crate::bits::push_bit;
use crate::line::{CheckResult, Evidence, Line};
use crate::proof_lines::push_proof;
use crate::table_lines::push_tables;
use crate::verdict::{Verdict, verdict_of};
use bb_bits::{Name, NoMemory};
use bb_net::{OutName, Pair};
use bb_options::Options;
use bb_sym::Found;
use std::alloc::Global;

fn push_output(text: &mut Vec<u8>, name: &OutName) -> Result<(), NoMemory>
    ensures text { OnOk result (text.new.items ≡ text.old.items ++ output_line name.now) }
{
    text.extend_from_slice(if name.next { b"next " } else { b"output " })?;
    text.extend_from_slice(name.text.bytes())?;
    text.extend_from_slice(b"\n")?;
    Ok(())
}

// Written as ` NAME=BIT`.
fn push_input(text: &mut Vec<u8>, name: &Name, bit: bool) -> Result<(), NoMemory>
    ensures text { OnOk result (text.new.items ≡ text.old.items ++ printed_input (name.now, bit)) }
{
    text.extend_from_slice(b" ")?;
    text.extend_from_slice(name.bytes())?;
    text.extend_from_slice(b"=")?;
    push_bit(text, bit)
}

/// Appends ` NAME=BIT` for each name.
pub fn push_inputs(text: &mut Vec<u8>, names: &[Name], x: &[bool]) -> Result<(), NoMemory>
    requires bits { length x.now ≡ length names.now }
    ensures text { OnOk result (text.new.items ≡ text.old.items ++ flat_map printed_input (zip names.now x.now)) }
{
    for (i, name) in names.iter().enumerate() {
        push_input(text, name, x[i])?;
    }
    Ok(())
}

// Only some checks name an output: others find that some output is wrong and not which.
fn push_reported(text: &mut Vec<u8>, pair: &Pair, output: Option<u32>) -> Result<(), NoMemory>
    requires there { IfSome output (λ j. j < length pair.now.outs) }
    ensures text { OnOk result (text.new.items ≡ text.old.items ++ reported_output pair.now.outs output) }
{
    if let Some(j) = output {
        push_output(text, &pair.outs()[j as usize])?;
    }
    Ok(())
}

fn push_found(text: &mut Vec<u8>, pair: &Pair, found: &Found) -> Result<(), NoMemory>
    requires reportable { CanBeReported pair.now found.now }
    ensures text { OnOk result (text.new.items
        ≡ text.old.items
        ++ (reported_output pair.now.outs found.now.output ++ input_line pair.now.ins found.now.input.items)) }
{
    push_reported(text, pair, found.output)?;
    text.extend_from_slice(b"input")?;
    push_inputs(text, pair.ins(), &found.input)?;
    text.extend_from_slice(b"\n")?;
    Ok(())
}

fn push_evidence(
    text: &mut Vec<u8>,
    pair: &Pair,
    options: &Options,
    evidence: &Evidence,
) -> Result<(), NoMemory>
    requires reportable { EvidenceCanBeReported pair.now evidence.now }
    ensures text { OnOk result (text.new.items ≡ text.old.items ++ evidence_text pair.now options.now evidence.now) }
{
    match evidence {
        Evidence::Vector(found) => push_found(text, pair, found),
        Evidence::Refutation(proof) if options.proof => push_proof(text, proof),
        Evidence::NoChoices | Evidence::Refutation(_) => Ok(()),
    }
}

fn result_name(check_result: &CheckResult) -> &'static str
    ensures name { result.now ≡ result_name check_result.now }
{
    match check_result {
        CheckResult::Error(_) => "error",
        CheckResult::Nothing => "none",
        CheckResult::Repair(_) => "repair",
        CheckResult::Nodes => "nodes",
        CheckResult::Clauses => "clauses",
        CheckResult::Wide => "wide",
    }
}

fn push_details(
    text: &mut Vec<u8>,
    pair: &Pair,
    options: &Options,
    check_result: &CheckResult,
) -> Result<(), NoMemory>
    requires reportable { ResultCanBeReported pair.now check_result.now }
    ensures text { OnOk result (text.new.items ≡ text.old.items ++ details pair.now options.now check_result.now) }
{
    match check_result {
        CheckResult::Error(evidence) => push_evidence(text, pair, options, evidence),
        CheckResult::Repair(tables) => push_tables(text, options.shared, pair, tables),
        CheckResult::Nothing | CheckResult::Nodes | CheckResult::Clauses | CheckResult::Wide => Ok(
            (),
        ),
    }
}

fn push_rung(text: &mut Vec<u8>, line: &Line) -> Result<(), NoMemory>
    ensures text { OnOk result (text.new.items ≡ text.old.items ++ rung_line line.now) }
{
    text.extend_from_slice(b"rung ")?;
    text.extend_from_slice(line.rung.name().as_bytes())?;
    text.extend_from_slice(b" ")?;
    text.extend_from_slice(result_name(&line.check_result).as_bytes())?;
    text.extend_from_slice(b"\n")?;
    Ok(())
}

fn push_line(
    text: &mut Vec<u8>,
    pair: &Pair,
    options: &Options,
    line: &Line,
) -> Result<(), NoMemory>
    requires reportable { ResultCanBeReported pair.now line.now.check_result }
    ensures text { OnOk result (text.new.items ≡ text.old.items ++ check_line_text pair.now options.now line.now) }
{
    push_rung(text, line)?;
    push_details(text, pair, options, &line.check_result)
}

fn push_verdict(text: &mut Vec<u8>, verdict: Verdict) -> Result<(), NoMemory>
    ensures text { OnOk result (text.new.items ≡ text.old.items ++ verdict_line verdict) }
{
    text.extend_from_slice(b"verdict ")?;
    text.extend_from_slice(verdict.name().as_bytes())?;
    text.extend_from_slice(b"\n")?;
    Ok(())
}

/// A line for each check in the order of `lines`; after an error what shows it, after a repair its tables, and the
/// verdict last. A proof is printed only where `options.proof` is set.
pub fn report(
    alloc: Global,
    pair: &Pair,
    options: &Options,
    lines: &[Line],
) -> Result<Vec<u8>, NoMemory>
    requires report { All (λ line. ResultCanBeReported pair.now line.check_result) lines.now }
    ensures text { IfOk result (λ text. text.items ≡ report_text pair.now options.now lines.now) }
{
    let mut text = Vec::new(alloc);
    for line in lines {
        push_line(&mut text, pair, options, line)?;
    }
    push_verdict(&mut text, verdict_of(lines))?;
    Ok(text)
}
