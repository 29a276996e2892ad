//! The job of a call as a value. Names of modules are copied, so that the options of a comparison borrow nothing from
//! the words; names of files stay parts of the words.

ghost use Rattle.std.specs.Prelude.{◌≡◌, ◌⊎◌, map, option_copied, string_bytes, IfErr, IfOk, None};
ghost use Rattle.bb_args.specs.Requests.{requested_made_pair, request_of, requested_refutation};
ghost use Rattle.bb_ladder.specs.Answers.{pair_request, pair_request_of};
ghost use Rattle.bb_ladder.specs.Inside.Tasks.{RequestJob, HasBounds};

use bb_args::{FileComparison, Wanted, WordsFault, read_words};
use bb_bits::{Name, NoMemory};
use bb_checks::Options;
use bb_verdict::TextComparison;
use std::alloc::Global;

/// What is done with the two texts, once they are read.
#[derive(Debug, Drop)]
pub enum Task {
    /// Compare them.
    Comparison(TextComparison),
    /// Check the second as a refutation of the first.
    Refutation,
}

/// The file `spec` is read first. For a refutation it has the formula, and `imp` the additions.
#[derive(Debug, Drop)]
pub struct PairRequest<'a> {
    pub spec: &'a str,
    pub imp: &'a str,
    pub task: Task,
}

/// The job of a call: files or a made pair.
#[derive(Debug, Drop)]
pub enum Job<'a> {
    /// Read two files and compare or check their texts.
    Files(PairRequest<'a>),
    /// Make two adders of `n` bits and compare them. No file is read.
    Made {
        n: u32,
        fill: bool,
        options: Options,
    },
}

fn given_name(alloc: Global, given: Option<&str>) -> Result<Option<Name>, NoMemory>
    ensures name { IfOk result (λ name. name ≡ option_copied given.entry) }
{
    match given {
        Some(text) => Ok(Some(Name::of(alloc, text.as_bytes())?)),
        None => Ok(None),
    }
}

// An invariant is handed on in the place of the care output; both are not given.
fn guard<'a>(requested: &FileComparison<'a>) -> Option<&'a str>
    ensures guard { option_copied result ≡ (pair_request (request_of requested.now)).requested.care }
{
    match requested.invariant {
        Some(name) => Some(name),
        None => requested.care,
    }
}

fn texts_requested(
    alloc: Global,
    requested: &FileComparison<'_>,
) -> Result<TextComparison, NoMemory>
    ensures requested { IfOk result (λ texts. texts ≡ (pair_request (request_of requested.now)).requested) }
{
    Ok(TextComparison {
        spec_top: given_name(alloc, requested.top_spec)?,
        imp_top: given_name(alloc, requested.top_imp)?,
        care: given_name(alloc, guard(requested))?,
        invariant: requested.invariant.is_some(),
        fill: requested.fill,
        options: requested.options,
    })
}

fn comparison<'a>(
    alloc: Global,
    requested: &FileComparison<'a>,
) -> Result<PairRequest<'a>, NoMemory>
    ensures spec { IfOk result (λ q. q.spec.now ≡ requested.now.spec.now) }
    ensures imp { IfOk result (λ q. q.imp.now ≡ requested.now.imp.now) }
    ensures task { IfOk result (λ q. q.task ≡ Task.Comparison (pair_request (request_of requested.now)).requested) }
{
    Ok(PairRequest {
        spec: requested.spec,
        imp: requested.imp,
        task: Task::Comparison(texts_requested(alloc, requested)?),
    })
}

/// The first word is the program's name.
///
/// # Errors
///
/// `Usage` where the words are not of the command's form, and lack of memory.
#[tactic(auto, using(crate::proofs::TaskLemmas::questions_requested))]
pub fn job_of<'a>(alloc: Global, words: &'a [String]) -> Result<Job<'a>, WordsFault>
    ensures job { IfOk result (RequestJob (map string_bytes words.entry.now)) }
    ensures bounds { IfOk result HasBounds }
    ensures usage { IfErr result (λ fault. (fault ≡ WordsFault.NoMemory)
        ⊎ ((fault ≡ WordsFault.Usage) × (pair_request_of (map string_bytes words.entry.now) ≡ None)
        × (requested_made_pair (map string_bytes words.entry.now) ≡ None)
        × (requested_refutation (map string_bytes words.entry.now) ≡ None))) }
{
    match read_words(alloc, words)? {
        Wanted::Comparison(requested) => Ok(Job::Files(comparison(alloc, &requested)?)),
        Wanted::MadePair { n, fill, options } => Ok(Job::Made { n, fill, options }),
        Wanted::Refutation { cnf, adds } => Ok(Job::Files(PairRequest {
            spec: cnf,
            imp: adds,
            task: Task::Refutation,
        })),
    }
}
