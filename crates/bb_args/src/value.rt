//! The value of each option by its kind, with its default. None is a value that is refused; an option that is not given
//! is no fault.

ghost use Rattle.std.specs.Prelude.{◌≡◌, option_and_then, option_map, option_copied};
ghost use Rattle.std.specs.Char.{is_ascii_graphic};
ghost use Rattle.std.specs.List.{list_all};
ghost use Rattle.bb_args.specs.Requests.{care, file, name, printable, rung_named, top, value_or};
ghost use Rattle.bb_args.specs.Inside.Commands.{is_true};
ghost use Rattle.bb_args.specs.Numbers.{number_within};

use crate::number::{number_within, small_within};
use bb_options::Rung;

// An empty word names no file and no module.
fn name(text: &str) -> Option<&str>
    ensures name { option_copied result ≡ name text.now }
{
    if text.is_empty() { None } else { Some(text) }
}

/// A file has no default.
pub fn file(value: Option<&str>) -> Option<&str>
    ensures file { option_copied result ≡ file (option_copied value.entry) }
{
    name(value?)
}

/// The outer option is the fault, the inner one the absence.
pub fn top(value: Option<&str>) -> Option<Option<&str>>
    ensures top { option_map option_copied result ≡ top (option_copied value.entry) }
{
    match value {
        None => Some(None),
        Some(text) => Some(Some(name(text)?)),
    }
}

fn are_graphic(bytes: &[u8]) -> bool
    ensures graphic { result ≡ list_all is_ascii_graphic bytes.now }
{
    bytes.iter().all(|b| b.is_ascii_graphic())
}

// Bytes from 33 to 126: a name with a line feed would print a second line after a refusal.
fn printable(text: &str) -> Option<&str>
    ensures name { option_copied result ≡ printable text.now }
{
    if are_graphic(text.as_bytes()) {
        name(text)
    } else {
        None
    }
}

/// The outer option is the fault, the inner one the absence.
pub fn care(value: Option<&str>) -> Option<Option<&str>>
    ensures care { option_map option_copied result ≡ care (option_copied value.entry) }
{
    match value {
        None => Some(None),
        Some(text) => Some(Some(printable(text)?)),
    }
}

/// `clap` gives a flag that is set the value `true`.
pub fn is_true(value: Option<&str>) -> bool
    ensures set { result ≡ is_true (option_copied value.entry) }
{
    match value {
        None => false,
        Some(text) => text == "true",
    }
}

fn rung_named(text: &str) -> Option<Rung>
    ensures rung { result ≡ rung_named text.now }
{
    match text {
        "ternary" => Some(Rung::Ternary),
        "symbolic" => Some(Rung::Symbolic),
        "local" => Some(Rung::Local),
        "output" => Some(Rung::Output),
        "input" => Some(Rung::Input),
        "expand" => Some(Rung::Expand),
        _ => None,
    }
}

/// `default` where none is given.
pub fn rung_or(value: Option<&str>, default: Rung) -> Option<Rung>
    ensures rung { result ≡ value_or default rung_named (option_copied value.entry) }
{
    match value {
        None => Some(default),
        Some(text) => rung_named(text),
    }
}

/// From `least` to `most`, both included; `default` where none is given.
pub fn number_or(value: Option<&str>, default: u64, least: u64, most: u64) -> Option<u64>
    ensures number { result ≡ value_or default (number_within least most) (option_copied value.entry) }
{
    match value {
        None => Some(default),
        Some(text) => number_within(text, least, most),
    }
}

/// As `small_or`, without a default.
pub fn small(value: Option<&str>, least: u32, most: u32) -> Option<u32>
    ensures number { result ≡ option_and_then (number_within least most) (option_copied value.entry) }
{
    small_within(value?, least, most)
}

/// As `number_or`, for 32 bits.
pub fn small_or(value: Option<&str>, default: u32, least: u32, most: u32) -> Option<u32>
    ensures number { result ≡ value_or default (number_within least most) (option_copied value.entry) }
{
    match value {
        None => Some(default),
        Some(text) => small_within(text, least, most),
    }
}
