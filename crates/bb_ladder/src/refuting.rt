//! The answer to a formula and clause additions. Both texts are read and judged as two texts of a comparison are, so a
//! second kind of request is one more case of `MayAnswer`, and no clause on comparisons changes.

ghost use Rattle.std.specs.Prelude.{◌≡◌, ◌<◌, ◌++◌, ℕ, List, Ok, codes, length, IfOk, OnOk};
ghost use Rattle.bb_cnf.specs.Clauses.{HasVariablesWithin, lists_of};
ghost use Rattle.bb_rup.specs.Dimacs.{dimacs_of};
ghost use Rattle.bb_rup.specs.declared.fault.RupFault.{RupFault};
ghost use Rattle.bb_frontend.specs.declared.limit.TheConstants.{READ_LIMIT};
ghost use Rattle.bb_frontend.specs.Refusals.{refusal};
ghost use Rattle.bb_ladder.specs.Refutations.{CheckLaws, Checks, FailsAt, IsCheckRefusal, Refutes, IsRefutationReport};
ghost use Rattle.bb_ladder.specs.Refutations.{no_line};
ghost use Rattle.bb_ladder.specs.Refutations.{rup_words};

use bb_bits::NoMemory;
use bb_cnf::{Cnf, Lit};
use bb_frontend::push_at_line;
use bb_rup::{RupAnswer, RupFault, additions, dimacs, rup};
use bb_verdict::{Answer, say};
use itoa::Buffer;
use smallvec::SmallVec;
use std::alloc::Global;

// Lack of memory is no fault of a text, so there are no words for it.
fn push_fault(text: &mut Vec<u8>, fault: &RupFault) -> Result<(), NoMemory>
    ensures words { OnOk result (text.new.items ≡ text.old.items ++ rup_words fault.now) }
    ensures memory { OnOk result (fault.now ≡ RupFault.NoMemory → ⊥) }
{
    match fault {
        RupFault::Header { line } => push_at_line(text, "header", *line),
        RupFault::Token { line } => push_at_line(text, "token", *line),
        RupFault::Literal { line } => push_at_line(text, "literal", *line),
        RupFault::Unclosed => text.extend_from_slice(b"unclosed"),
        RupFault::Count => text.extend_from_slice(b"count"),
        RupFault::NoMemory => Err(NoMemory),
    }
}

fn push_line(text: &mut Vec<u8>, which: &str, fault: &RupFault) -> Result<(), NoMemory>
    ensures line { OnOk result (text.new.items ≡ text.old.items ++ refusal which.now (rup_words fault.now)) }
    ensures memory { OnOk result (fault.now ≡ RupFault.NoMemory → ⊥) }
{
    text.extend_from_slice(b"refused ")?;
    text.extend_from_slice(which.as_bytes())?;
    text.extend_from_slice(b" ")?;
    push_fault(text, fault)?;
    text.extend_from_slice(b"\n")?;
    Ok(())
}

fn refuse(alloc: Global, which: &str, fault: &RupFault) -> Result<Answer, NoMemory>
    ensures status { IfOk result (λ answer. answer.status ≡ 2) }
    ensures report { IfOk result (λ answer. answer.report.items ≡ refusal which.now (rup_words fault.now)) }
    ensures memory { IfOk result (λ answer. fault.now ≡ RupFault.NoMemory → ⊥) }
{
    let mut report = Vec::new(alloc);
    push_line(&mut report, which, fault)?;
    Ok(Answer { status: 2, report })
}

// `number` counts from 1.
fn say_no(alloc: Global, number: u32) -> Result<Answer, NoMemory>
    ensures { IfOk result (λ answer. (answer.status ≡ 1) × (answer.report.items ≡ no_line number)) }
{
    let mut report = Vec::new(alloc);
    report.extend_from_slice(b"rup no ")?;
    let mut buffer = Buffer::new();
    report.extend_from_slice(buffer.format(number).as_bytes())?;
    report.extend_from_slice(b"\n")?;
    Ok(Answer { status: 1, report })
}

fn check(alloc: Global, cnf: &Cnf, adds: &[SmallVec<Lit, 4>]) -> Result<Answer, NoMemory>
    requires within { HasVariablesWithin cnf.now.vars (lists_of adds.now) }
    requires few { length adds.now < 4294967295 }
    ensures answer { IfOk result (λ answer.
        IsRefutationReport cnf.now.clauses (lists_of adds.now) answer.status answer.report.items) }
{
    match rup(alloc, cnf, adds)? {
        RupAnswer::Yes => say(alloc, 0, "rup yes\n"),
        RupAnswer::No(number) => say_no(alloc, number),
    }
}

// Variables of additions are bounded by those of the formula, so the formula is read first.
fn judge_additions(alloc: Global, cnf: &Cnf, second: &[u8]) -> Result<Answer, NoMemory>
    requires second { length second.now < READ_LIMIT }
    ensures answer { IfOk result (λ answer. (first : List ℕ) → dimacs_of first ≡ Ok cnf.now
        → Checks first second.now answer.status answer.report.items) }
{
    match additions(alloc, second, cnf.vars) {
        Ok(adds) => check(alloc, cnf, &adds),
        Err(fault) => refuse(alloc, "rup", &fault),
    }
}

// A fault of the formula comes before one of the additions.
fn answer(alloc: Global, first: &[u8], second: &[u8]) -> Result<Answer, NoMemory>
    requires first { length first.now < READ_LIMIT }
    requires second { length second.now < READ_LIMIT }
    ensures answer { IfOk result (λ answer. Checks first.now second.now answer.status answer.report.items) }
{
    match dimacs(alloc, first) {
        Ok(cnf) => judge_additions(alloc, &cnf, second),
        Err(fault) => refuse(alloc, "cnf", &fault),
    }
}

/// The answer to the texts of a formula and of clause additions, wherever they were read.
///
/// Status 0: each addition follows by unit propagation, so no assignment satisfies the formula. Status 1: the number is
/// that of the first addition that does not, counted from 1 without deletions. Status 2: the fault of the first text,
/// else of the second.
///
/// # Errors
///
/// Lack of memory only.
pub fn judge_refutation(alloc: Global, first: &[u8], second: &[u8]) -> Result<Answer, NoMemory>
    requires first { length first.now < READ_LIMIT }
    requires second { length second.now < READ_LIMIT }
    ensures answer { IfOk result (λ answer. Checks first.now second.now answer.status answer.report.items) }
    ensures yes { IfOk result (λ answer. answer.status ≡ 0
        → (answer.report.items ≡ codes "rup yes\n") × Refutes first.now second.now) }
    ensures no { IfOk result (λ answer. answer.status ≡ 1
        → (n : ℕ) × (answer.report.items ≡ no_line n) × FailsAt first.now second.now n) }
    ensures refused { IfOk result (λ answer. answer.status ≡ 2
        → IsCheckRefusal first.now second.now answer.report.items) }
{
    refutations_are_answered();
    answer(alloc, first, second)
}

/// There is exactly one answer, status and bytes.
pub fn refutations_are_answered()
    ensures { CheckLaws }
{
    bb_rup::laws::additions();
}
