//! From the values that `clap` finds to a request. Each option that is given is used or refused, and none is passed
//! over: a user who gives one expects it to matter.

ghost use Rattle.std.specs.Prelude.{◌≡◌, ◌⊎◌, ◌∷◌, [], false, true, codes, map, option_map, string_bytes, IfOk};
ghost use Rattle.std.specs.Prelude.{IfErr, IfSome, IfNone, None, Some};
ghost use Rattle.std.specs.List.{list_all};
ghost use Rattle.bb_args.specs.CommandLines.{options as option_names};
ghost use Rattle.bb_args.specs.Inside.Commands.{by_matches};
ghost use Rattle.bb_args.specs.Requests.{AreRequestFor, RequestNothing, HasBounds, IsWantedBy, comparison_by};
ghost use Rattle.bb_args.specs.Requests.{made_pair_by};
ghost use Rattle.bb_args.specs.Requests.{options_by, refutation_by, request_by, has_no_files, is_absent};
ghost use Rattle.bb_args.specs.Requests.{is_alone, is_refuting, request_of};

use crate::command::{parse, value};
use crate::requested::{FileComparison, Wanted, WordsFault};
use crate::value::{care, file, is_true, number_or, rung_or, small, small_or, top};
use bb_options::{Options, Rung};
use clap::ArgMatches;
use clap::error::ErrorKind;
use std::alloc::Global;

// None where a value is out of its bounds, or the last check comes before the first: a run of no check would report
// nothing.
fn options(matches: &ArgMatches<'_>) -> Option<Options>
    ensures options { result ≡ options_by (by_matches matches.now) }
{
    let from = rung_or(value(matches, "from"), Rung::Ternary)?;
    let to = rung_or(value(matches, "to"), Rung::Expand)?;
    let patterns = small_or(value(matches, "patterns"), 32, 0, 4_096)?;
    let seed = number_or(value(matches, "seed"), 1, 1, u64::MAX)?;
    let nodes = small_or(value(matches, "nodes"), 1_000_000, 0, 50_000_000)?;
    let cache = small_or(value(matches, "cache"), 65_536, 1, 1_048_576)?;
    let clauses = small_or(value(matches, "clauses"), 2_000_000, 0, 8_000_000)?;
    if to.rank() < from.rank() {
        return None;
    }
    Some(Options {
        from,
        to,
        all: is_true(value(matches, "all")),
        patterns,
        seed,
        nodes,
        cache,
        clauses,
        proof: is_true(value(matches, "proof")),
        shared: is_true(value(matches, "shared")),
    })
}

fn request<'a>(matches: &ArgMatches<'a>) -> Option<FileComparison<'a>>
    ensures request { option_map request_of result ≡ request_by (by_matches matches.now) }
{
    let spec = file(value(matches, "SPEC"))?;
    let imp = file(value(matches, "IMPL"))?;
    let top_spec = top(value(matches, "top-spec"))?;
    let top_imp = top(value(matches, "top-impl"))?;
    let care_output = care(value(matches, "care"))?;
    let invariant = care(value(matches, "invariant"))?;
    let fill = is_true(value(matches, "fill"));
    let options = options(matches)?;
    if care_output.is_some() && invariant.is_some() {
        return None;
    }
    Some(FileComparison {
        spec,
        imp,
        top_spec,
        top_imp,
        care: care_output,
        invariant,
        fill,
        options,
    })
}

fn no_guard_and_width(matches: &ArgMatches<'_>) -> bool
    ensures { result
        ≡ list_all (is_absent (by_matches matches.now)) (codes "care" ∷ codes "invariant" ∷ codes "make" ∷ []) }
{
    value(matches, "care").is_none()
        && value(matches, "invariant").is_none()
        && value(matches, "make").is_none()
}

fn no_bound(matches: &ArgMatches<'_>) -> bool
    ensures { result
        ≡ list_all (is_absent (by_matches matches.now)) (codes "patterns" ∷ codes "seed" ∷ codes "nodes"
        ∷ codes "clauses" ∷ codes "cache" ∷ codes "care" ∷ codes "invariant" ∷ codes "make" ∷ []) }
{
    value(matches, "patterns").is_none()
        && value(matches, "seed").is_none()
        && value(matches, "nodes").is_none()
        && value(matches, "clauses").is_none()
        && value(matches, "cache").is_none()
        && no_guard_and_width(matches)
}

fn no_option(matches: &ArgMatches<'_>) -> bool
    ensures { result ≡ list_all (is_absent (by_matches matches.now)) option_names }
{
    value(matches, "top-spec").is_none()
        && value(matches, "top-impl").is_none()
        && value(matches, "from").is_none()
        && value(matches, "to").is_none()
        && no_bound(matches)
}

// With `--rup` any other option is refused, also with its default value: none of them means anything there, and words
// that are passed over deceive.
fn is_alone(matches: &ArgMatches<'_>) -> bool
    ensures alone { result ≡ is_alone (by_matches matches.now) }
{
    !is_true(value(matches, "all"))
        && !is_true(value(matches, "proof"))
        && !is_true(value(matches, "shared"))
        && !is_true(value(matches, "fill"))
        && no_option(matches)
}

fn refutation<'a>(matches: &ArgMatches<'a>) -> Option<Wanted<'a>>
    requires refuting { is_refuting (by_matches matches.now) ≡ true }
    ensures some { IfSome result (IsWantedBy (by_matches matches.now)) }
    ensures none { IfNone result (refutation_by (by_matches matches.now) ≡ None) }
{
    let cnf = file(value(matches, "SPEC"))?;
    let adds = file(value(matches, "IMPL"))?;
    if !is_alone(matches) {
        return None;
    }
    Some(Wanted::Refutation { cnf, adds })
}

// A made pair has no files, so options on them are refused and not passed over.
fn no_files(matches: &ArgMatches<'_>) -> bool
    ensures none { result ≡ has_no_files (by_matches matches.now) }
{
    value(matches, "SPEC").is_none()
        && value(matches, "IMPL").is_none()
        && value(matches, "top-spec").is_none()
        && value(matches, "top-impl").is_none()
        && value(matches, "care").is_none()
        && value(matches, "invariant").is_none()
}

// `--shared` is refused: with one box nothing is shared.
fn made_pair<'a>(matches: &ArgMatches<'a>) -> Option<Wanted<'a>>
    requires comparing { is_refuting (by_matches matches.now) ≡ false }
    ensures some { IfSome result (IsWantedBy (by_matches matches.now)) }
    ensures none { IfNone result (made_pair_by (by_matches matches.now) ≡ None) }
{
    let n = small(value(matches, "make"), 1, 256)?;
    let options = options(matches)?;
    if options.shared || !no_files(matches) {
        return None;
    }
    let fill = is_true(value(matches, "fill"));
    Some(Wanted::MadePair { n, fill, options })
}

fn comparison<'a>(matches: &ArgMatches<'a>) -> Option<Wanted<'a>>
    requires comparing { is_refuting (by_matches matches.now) ≡ false }
    ensures some { IfSome result (IsWantedBy (by_matches matches.now)) }
    ensures no_comparison { IfNone result (comparison_by (by_matches matches.now) ≡ None) }
    ensures no_made { IfNone result (made_pair_by (by_matches matches.now) ≡ None) }
{
    if value(matches, "make").is_some() {
        made_pair(matches)
    } else {
        Some(Wanted::Comparison(request(matches)?))
    }
}

#[tactic(auto, using(crate::proofs::OnceLemmas::no_pair_beside))]
fn wanted<'a>(matches: &ArgMatches<'a>) -> Option<Wanted<'a>>
    ensures some { IfSome result (IsWantedBy (by_matches matches.now)) }
    ensures no_comparison { IfNone result (comparison_by (by_matches matches.now) ≡ None) }
    ensures no_made { IfNone result (made_pair_by (by_matches matches.now) ≡ None) }
    ensures no_refutation { IfNone result (refutation_by (by_matches matches.now) ≡ None) }
{
    if is_true(value(matches, "rup")) {
        refutation(matches)
    } else {
        comparison(matches)
    }
}

/// The request of a command line. The first word is the program's name, and is not looked at. The others are two
/// files, the specification before the implementation, and in any order among them these, each at most once:
///
/// | Words | Value | Without it |
/// |---|---|---|
/// | `--top-spec`, `--top-impl` | the name of a module | the one that no module instantiates |
/// | `--from` | `ternary`, `symbolic`, `local`, `output`, `input`, `expand` | `ternary` |
/// | `--to` | the same, no earlier than that of `--from` | `expand` |
/// | `--patterns` | 0 to 4,096 | 32 |
/// | `--seed` | 1 to 18,446,744,073,709,551,615 | 1 |
/// | `--nodes` | 0 to 50,000,000 | 1,000,000 |
/// | `--cache` | 1 to 1,048,576 | 65,536 |
/// | `--clauses` | 0 to 8,000,000 | 2,000,000 |
/// | `--care` | the text of a bit of an output port: one or more bytes from 33 to 126 | none |
/// | `--invariant` | the same; not both this and `--care` | none |
/// | `--all`, `--proof`, `--shared`, `--fill` | none | not set |
///
/// A value is the next word after its option, or follows `=`; one that begins with a minus sign, and is more than
/// that, has to follow `=`. No name is empty. A number has at most 20 digits. After `--` every word is a file.
///
/// With `--make` and a number from 1 to 256 a pair is made and compared, and no file, no top, no `--shared`, no
/// `--care` and no `--invariant` may be given. With `--rup` the two files are a formula and clause additions, and no
/// other flag and no option may be given.
///
/// # Errors
/// `Usage` where the words are not of this form, and `NoMemory` for lack of memory.
#[tactic(auto, using(crate::proofs::WithinLemmas::nothing_found, crate::proofs::WithinLemmas::nothing_taken))]
pub fn read_words<'a>(alloc: Global, words: &'a [String]) -> Result<Wanted<'a>, WordsFault>
    ensures ok { IfOk result (AreRequestFor (map string_bytes words.entry.now)) }
    ensures bounds { IfOk result HasBounds }
    ensures usage { IfErr result (λ fault. (fault ≡ WordsFault.NoMemory)
        ⊎ ((fault ≡ WordsFault.Usage) × RequestNothing (map string_bytes words.entry.now))) }
{
    match parse(alloc, words) {
        Ok(matches) => wanted(&matches).ok_or(WordsFault::Usage),
        Err(error) if error.kind() == ErrorKind::OutOfMemory => Err(WordsFault::NoMemory),
        Err(_) => Err(WordsFault::Usage),
    }
}
