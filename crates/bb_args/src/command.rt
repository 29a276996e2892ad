//! The command as it is given to `clap`. Help is disabled, and no short names exist, so that the words that are
//! accepted are those of the definition and no others.

ghost use Rattle.std.specs.Prelude.{◌≡◌, ◌⊎◌, false, map, None, option_copied, string_bytes, IfOk, IfErr};
ghost use Rattle.clap.specs.Words.{app_of, first_of, found_of, kind_of, rows_of, rule_of};
ghost use Rattle.bb_args.specs.CommandLines.{found_in};
ghost use Rattle.bb_args.specs.Inside.Commands.{FindsIn, bare, command, flag, positional, valued};

use clap::error::ErrorKind;
use clap::{Arg, ArgAction, ArgMatches, Command, Error};
use std::alloc::{AllocError, Global};

fn positional<'a>(alloc: Global, name: &'a str) -> Arg<'a>
    ensures rule { rule_of result ≡ positional name.entry.now }
    ensures local { result.global ≡ false }
{
    Arg::new(alloc, name).action(ArgAction::Set)
}

fn flag<'a>(alloc: Global, name: &'a str) -> Arg<'a>
    ensures rule { rule_of result ≡ flag name.entry.now }
    ensures local { result.global ≡ false }
{
    Arg::new(alloc, name).long(name).action(ArgAction::SetTrue)
}

fn valued<'a>(alloc: Global, name: &'a str) -> Arg<'a>
    ensures rule { rule_of result ≡ valued name.entry.now }
    ensures local { result.global ≡ false }
{
    Arg::new(alloc, name).long(name).action(ArgAction::Set)
}

fn bare<'a>(alloc: Global) -> Command<'a>
    ensures app { app_of result ≡ bare }
{
    Command::new(alloc, "bbeq").disable_help_flag(true)
}

// The order of files counts: the first is SPEC.
fn command<'a>(alloc: Global) -> Result<Command<'a>, AllocError>
    ensures app { IfOk result (λ c. app_of c ≡ command) }
{
    let command = bare(alloc)
        .arg(positional(alloc, "SPEC"))?
        .arg(positional(alloc, "IMPL"))?
        .arg(flag(alloc, "all"))?
        .arg(flag(alloc, "proof"))?
        .arg(flag(alloc, "rup"))?
        .arg(flag(alloc, "shared"))?
        .arg(flag(alloc, "fill"))?
        .arg(valued(alloc, "top-spec"))?
        .arg(valued(alloc, "top-impl"))?
        .arg(valued(alloc, "from"))?
        .arg(valued(alloc, "to"))?
        .arg(valued(alloc, "patterns"))?
        .arg(valued(alloc, "seed"))?
        .arg(valued(alloc, "nodes"))?
        .arg(valued(alloc, "clauses"))?
        .arg(valued(alloc, "cache"))?
        .arg(valued(alloc, "care"))?
        .arg(valued(alloc, "invariant"))?
        .arg(valued(alloc, "make"))?;
    Ok(command)
}

/// The first word is the program's name. Any error but lack of memory means that the words are no command line.
pub fn parse<'a>(alloc: Global, words: &'a [String]) -> Result<ArgMatches<'a>, Error>
    ensures found { IfOk result (FindsIn (map string_bytes words.entry.now)) }
    ensures refused { IfErr result (λ e. (kind_of e ≡ ErrorKind.OutOfMemory)
        ⊎ (found_in (map string_bytes words.entry.now) ≡ None)) }
{
    command(alloc)?.try_get_matches_from(words)
}

/// The value of an argument, or `true` for a flag that was given.
#[tactic(auto, using(crate::proofs::FoundLemmas::value_by_rows))]
pub fn value<'a>(matches: &ArgMatches<'a>, name: &str) -> Option<&'a str>
    ensures value { option_copied result ≡ first_of name.now (rows_of (found_of matches.now)) }
{
    matches.get_str(name)
}
