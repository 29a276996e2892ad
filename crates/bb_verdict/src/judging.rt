//! The verdict on two texts. The checks run on a pair of netlists, but each verdict speaks of the two texts: laws tie a
//! condition on netlists to worlds of the designs as which the texts read. So no definition of a report speaks of
//! worlds, and a further check changes no clause here. The clause `error` can be read without knowing what a driver or
//! a loop is: it speaks of designs in which nothing is at fault, and that the two fit is a clause of its own (`fit`).

ghost use Rattle.std.specs.Prelude.{◌≡◌, ◌<◌, ◌++◌, ◌⊎◌, ℕ, List, Some, codes, length, option_map};
ghost use Rattle.std.specs.Prelude.{IfNone, IfOk, IfSome, OnOk};
ghost use Rattle.bb_options.specs.Rungs.{AreBounds};
ghost use Rattle.bb_frontend.specs.declared.limit.TheConstants.{READ_LIMIT};
ghost use Rattle.bb_frontend.specs.declared.refusal.Refusal.{Refusal};
ghost use Rattle.bb_frontend.specs.RefusalLines.{refusal_line};
ghost use Rattle.bb_verdict.specs.declared.answer.Answer.{Answer};
ghost use Rattle.bb_verdict.specs.Inside.Made.{CanBeFilled, IsChecked, IsMade};
ghost use Rattle.bb_verdict.specs.InvariantAnswers.{AnswersTexts, AreDecidedWith, AreLeftOpenWith, AreRefutedWith};
ghost use Rattle.bb_verdict.specs.InvariantAnswers.{AreShownWith, IsFinishedWith, IsOpenReportWith, IsRefusalLine};
ghost use Rattle.bb_verdict.specs.InvariantAnswers.{JudgesWith, invariant_name, refusal_line_with};
ghost use Rattle.bb_verdict.specs.TextPairs.{AreStayingOpen, DoFit};

use crate::answer::{Answer, say};
use crate::filling::put_rest;
use crate::invariant_laws::{answers_to_texts_are_meant, made_can_be_unrolled, unrolled_are_meant};
use crate::invariants::{broken_report, decided, output_cell};
use crate::pair_texts::{Made, keeps, pair_of, spec_flat};
use crate::requested::TextComparison;
use crate::text_laws::made_can_be_filled;
use bb_bits::{Name, NoMemory};
use bb_checks::{
    Options, climb, climbs_are_reported, given_tables_make_equivalent, report, verdict_of,
};
use bb_frontend::{Refusal, push_refusal};
use bb_invariant::Invariance;
use bb_match::MatchFault;
use std::alloc::Global;

fn invariant_name(requested: &TextComparison) -> Option<&Name>
    ensures name { option_map (λ name. name.now) result ≡ invariant_name requested.now }
{
    if requested.invariant {
        requested.care.as_ref()
    } else {
        None
    }
}

// The name of the invariant, where the refusal is that it is no output.
fn missing_invariant<'a>(refusal: &'a Refusal, invariant: Option<&Name>) -> Option<&'a Name>
    ensures some { IfSome result (λ name. refusal_line_with (option_map (λ name. name.now) invariant.entry) refusal.now
        ≡ codes "refused pair invariant " ++ (name.now ++ codes "\n")) }
    ensures none { IfNone result (refusal_line_with (option_map (λ name. name.now) invariant.entry) refusal.now
        ≡ refusal_line refusal.now) }
    ensures memory { IfSome result (λ name. refusal.now ≡ Refusal.NoMemory → ⊥) }
{
    let (Some(_), Refusal::Pair(fault)) = (invariant, refusal) else {
        return None;
    };
    match fault {
        MatchFault::NoCare { name } => Some(name),
        _ => None,
    }
}

// An invariant is refused as a care output is, with its own word.
fn push_refusal_with(
    text: &mut Vec<u8>,
    refusal: &Refusal,
    invariant: Option<&Name>,
) -> Result<(), NoMemory>
    ensures line { OnOk result (text.new.items
        ≡ text.old.items ++ refusal_line_with (option_map (λ name. name.now) invariant.entry) refusal.now) }
    ensures memory { OnOk result (refusal.now ≡ Refusal.NoMemory → ⊥) }
{
    let Some(name) = missing_invariant(refusal, invariant) else {
        return push_refusal(text, refusal);
    };
    text.extend_from_slice(b"refused pair invariant ")?;
    text.extend_from_slice(name.bytes())?;
    text.extend_from_slice(b"\n")?;
    Ok(())
}

fn refuse(alloc: Global, refusal: &Refusal, invariant: Option<&Name>) -> Result<Answer, NoMemory>
    ensures status { IfOk result (λ answer. answer.status ≡ 2) }
    ensures report { IfOk result (λ answer. answer.report.items
        ≡ refusal_line_with (option_map (λ name. name.now) invariant.entry) refusal.now) }
    ensures memory { IfOk result (λ answer. refusal.now ≡ Refusal.NoMemory → ⊥) }
{
    let mut report = Vec::new(alloc);
    push_refusal_with(&mut report, refusal, invariant)?;
    Ok(Answer { status: 2, report })
}

// The filled implementation comes after the verdict, so a report without it is a prefix of one with it.
fn check(alloc: Global, made: &Made, options: &Options) -> Result<Answer, NoMemory>
    requires bounds { AreBounds options.now }
    requires kept { IfSome made.now.imp (CanBeFilled made.now.pair) }
    ensures answer { IfOk result (IsChecked made.now options.now) }
{
    climbs_are_reported();
    given_tables_make_equivalent();
    keeps(&made.pair);
    let lines = climb(alloc, &made.pair, options)?;
    let mut text = report(alloc, &made.pair, options, &lines)?;
    if let Some(imp) = &made.imp {
        put_rest(alloc, &mut text, imp, made.pair.kinds(), &lines)?;
    }
    Ok(Answer {
        status: verdict_of(&lines).status(),
        report: text,
    })
}

// The report of the checks behind the line that the invariant is kept.
fn kept(alloc: Global, made: &Made, options: &Options) -> Result<Answer, NoMemory>
    requires bounds { AreBounds options.now }
    requires kept { IfSome made.now.imp (CanBeFilled made.now.pair) }
    ensures answer { IfOk result (λ answer. (checked : Answer) × IsChecked made.now options.now checked
        × (answer.status ≡ checked.status)
        × (answer.report.items ≡ codes "invariant kept\n" ++ checked.report.items)) }
{
    let checked = check(alloc, made, options)?;
    let mut report = Vec::from_slice(alloc, b"invariant kept\n")?;
    report.extend_from_slice(&checked.report)?;
    Ok(Answer {
        status: checked.status,
        report,
    })
}

// The pair has the netlists alone, so the specification is elaborated once more for its registers' clocks.
fn answer_with(
    alloc: Global,
    spec: &[u8],
    imp: &[u8],
    made: &Made,
    requested: &TextComparison,
    name: &Name,
) -> Result<Answer, NoMemory>
    requires short { length spec.now < READ_LIMIT }
    requires bounds { AreBounds requested.now.options }
    requires made { IsMade requested.now spec.now imp.now made.now }
    requires name { invariant_name requested.now ≡ Some name.now }
    ensures answer { IfOk result (λ answer.
        JudgesWith requested.now name.now spec.now imp.now answer.status answer.report.items) }
{
    made_can_be_filled();
    made_can_be_unrolled();
    unrolled_are_meant();
    let _ = imp;
    let flat = match spec_flat(alloc, spec, requested) {
        Ok(flat) => flat,
        Err(refusal) => return refuse(alloc, &refusal, Some(name)),
    };
    let Some(cell) = output_cell(&flat, name) else {
        unreachable!();
    };
    match decided(alloc, &flat, cell, &requested.options)? {
        Invariance::Kept => kept(alloc, made, &requested.options),
        Invariance::Broken(x) => Ok(Answer {
            status: 3,
            report: broken_report(alloc, &flat, made.pair.ins(), &x)?,
        }),
        Invariance::Open => say(alloc, 3, "invariant open\nverdict open\n"),
    }
}

fn answer_made(
    alloc: Global,
    spec: &[u8],
    imp: &[u8],
    made: &Made,
    requested: &TextComparison,
) -> Result<Answer, NoMemory>
    requires short { length spec.now < READ_LIMIT }
    requires bounds { AreBounds requested.now.options }
    requires made { IsMade requested.now spec.now imp.now made.now }
    ensures answer { IfOk result (λ answer.
        AnswersTexts requested.now spec.now imp.now answer.status answer.report.items) }
{
    made_can_be_filled();
    match invariant_name(requested) {
        Some(name) => answer_with(alloc, spec, imp, made, requested, name),
        None => check(alloc, made, &requested.options),
    }
}

fn answer(
    alloc: Global,
    spec: &[u8],
    imp: &[u8],
    requested: &TextComparison,
) -> Result<Answer, NoMemory>
    requires spec { length spec.now < READ_LIMIT }
    requires imp { length imp.now < READ_LIMIT }
    requires bounds { AreBounds requested.now.options }
    ensures answer { IfOk result (λ answer.
        AnswersTexts requested.now spec.now imp.now answer.status answer.report.items) }
{
    match pair_of(alloc, spec, imp, requested) {
        Ok(made) => answer_made(alloc, spec, imp, &made, requested),
        Err(refusal) => refuse(alloc, &refusal, invariant_name(requested)),
    }
}

/// The answer to the texts of a specification and an implementation, wherever they were read.
///
/// Status 0: the tables at the end of the report make the designs equivalent where equivalence is requested, and each
/// of them runs as the specification does; so does the text after the line `fill`, where one is requested and printed,
/// and it passes as an implementation. Status 1: no contents of the boxes do, and the vectors of the report show
/// errors. Status 2: the line is the first refusal of the texts. Status 3: each requested check leaves the question
/// open, or the invariant is in doubt. With every status but 2 the texts have no fault, and they fit. Where a requested
/// check decides and the invariant is not in doubt, the status is 0 or 1; where the question stays open with each, it
/// is 3; where the texts have a refusal, it is 2.
///
/// Where the care output is meant as an invariant, statuses 0 and 1 come only if each clock event keeps it, after the
/// line `invariant kept`, and with status 0 the two run the same for ever from each state in which it is 1 whatever the
/// inputs are. Status 3 may then come with an event that breaks it, or where the budgets are too small to find out.
///
/// # Errors
///
/// Lack of memory only.
pub fn judge_pair(
    alloc: Global,
    spec: &[u8],
    imp: &[u8],
    requested: &TextComparison,
) -> Result<Answer, NoMemory>
    requires spec { length spec.now < READ_LIMIT }
    requires imp { length imp.now < READ_LIMIT }
    requires bounds { AreBounds requested.now.options }
    ensures answer { IfOk result (λ answer.
        AnswersTexts requested.now spec.now imp.now answer.status answer.report.items) }
    ensures fit { IfOk result (λ answer. (answer.status ≡ 2 → ⊥) → DoFit requested.now spec.now imp.now) }
    ensures repairable { IfOk result (λ answer. answer.status ≡ 0
        → IsFinishedWith requested.now spec.now imp.now answer.report.items) }
    ensures error { IfOk result (λ answer. answer.status ≡ 1 → AreRefutedWith requested.now spec.now imp.now) }
    ensures shown { IfOk result (λ answer. answer.status ≡ 1
        → AreShownWith requested.now spec.now imp.now answer.report.items) }
    ensures left_open { IfOk result (λ answer. answer.status ≡ 3 → AreLeftOpenWith requested.now spec.now imp.now) }
    ensures open_report { IfOk result (λ answer. answer.status ≡ 3
        → IsOpenReportWith requested.now spec.now imp.now answer.report.items) }
    ensures refused { IfOk result (λ answer. answer.status ≡ 2
        → IsRefusalLine requested.now spec.now imp.now answer.report.items) }
    ensures stays_refused { IfOk result (λ answer. (line : List ℕ)
        → IsRefusalLine requested.now spec.now imp.now line
        → (answer.status ≡ 2) × (answer.report.items ≡ line)) }
    ensures decided { IfOk result (λ answer. AreDecidedWith requested.now spec.now imp.now
        → (answer.status ≡ 0) ⊎ (answer.status ≡ 1)) }
    ensures stays_open { IfOk result (λ answer. AreStayingOpen requested.now spec.now imp.now → answer.status ≡ 3) }
{
    answers_to_texts_are_meant();
    answer(alloc, spec, imp, requested)
}
