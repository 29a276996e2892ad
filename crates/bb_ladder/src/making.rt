//! A made pair: two texts of known answer that the call makes itself, so that the program can be tried without a file.
//! It is judged as any two texts are, by `judge_pair`, so the clauses on verdicts hold of it word for word; what they
//! say of a report holds after two lines of its own. That these texts fit is tested, for sixteen widths from 1 to
//! 256, and not proved: a refusal therefore has its case, and its line comes alone, as every refusal.

ghost use Rattle.std.specs.Prelude.{◌≡◌, ◌≤◌, IfOk};
ghost use Rattle.bb_options.specs.Rungs.{AreBounds};
ghost use Rattle.bb_ladder.specs.MadePairs.{JudgesMade, request_for, made_head, made_text};

use bb_bits::{Name, NoMemory};
use bb_checks::Options;
use bb_frontend::read_limit_is;
use bb_make::{input_count, texts};
use bb_verdict::{Answer, TextComparison, judge_pair};
use itoa::Buffer;
use std::alloc::Global;

// The module `add` is the top of both.
fn request_for(alloc: Global, fill: bool, options: &Options) -> Result<TextComparison, NoMemory>
    ensures requested { IfOk result (λ requested. requested ≡ request_for fill options.now) }
{
    Ok(TextComparison {
        spec_top: Some(Name::of(alloc, b"add")?),
        imp_top: Some(Name::of(alloc, b"add")?),
        care: None,
        invariant: false,
        fill,
        options: *options,
    })
}

// The lines `make WIDTH` and `inputs COUNT`.
fn head(alloc: Global, n: u32) -> Result<Vec<u8>, NoMemory>
    requires width { n ≤ 256 }
    ensures head { IfOk result (λ text. text.items ≡ made_head n) }
{
    let mut text = Vec::from_slice(alloc, b"make ")?;
    let mut buffer = Buffer::new();
    text.extend_from_slice(buffer.format(n).as_bytes())?;
    text.extend_from_slice(b"\ninputs ")?;
    text.extend_from_slice(buffer.format(input_count(n)).as_bytes())?;
    text.extend_from_slice(b"\n")?;
    Ok(text)
}

// A refusal comes without the two lines: every refusal is a single line.
fn headed(alloc: Global, n: u32, answer: Answer) -> Result<Answer, NoMemory>
    requires width { n ≤ 256 }
    ensures status { IfOk result (λ headed. headed.status ≡ answer.status) }
    ensures report { IfOk result (λ headed. headed.report.items ≡ made_text n answer.status answer.report.items) }
{
    if answer.status == 2 {
        return Ok(answer);
    }
    let mut report = head(alloc, n)?;
    report.extend_from_slice(&answer.report)?;
    Ok(Answer {
        status: answer.status,
        report,
    })
}

/// The answer to the made pair of adders of `n` bits, whose texts are those of `bb_make::texts`.
///
/// # Errors
///
/// Lack of memory only.
pub fn judge_made(alloc: Global, n: u32, fill: bool, options: &Options) -> Result<Answer, NoMemory>
    requires width { (1 ≤ n) × (n ≤ 256) }
    requires bounds { AreBounds options.now }
    ensures answer { IfOk result (λ answer.
        JudgesMade (record { n = n; fill = fill; options = options.now }) answer.status answer.report.items) }
{
    read_limit_is();
    let requested = request_for(alloc, fill, options)?;
    let (spec, imp) = texts(alloc, n)?;
    let answer = judge_pair(alloc, &spec, &imp, &requested)?;
    headed(alloc, n, answer)
}
