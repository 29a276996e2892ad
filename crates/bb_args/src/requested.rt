//! Requests, as the words make them. Names are parts of the words, so nothing is copied before it is known that the
//! words are sound.

use bb_options::Options;
use std::alloc::AllocError;

/// A comparison. Names are parts of the words.
#[derive(Clone, Copy, Debug)]
pub struct FileComparison<'a> {
    /// Not empty.
    pub spec: &'a str,
    /// Not empty.
    pub imp: &'a str,
    /// None: the module that no module instantiates.
    pub top_spec: Option<&'a str>,
    /// None: the module that no module instantiates.
    pub top_imp: Option<&'a str>,
    /// The care output: a bit of an output port of the specification, at 1 where equivalence is requested. One or more
    /// bytes from 33 to 126.
    pub care: Option<&'a str>,
    /// The invariant: a bit of an output port of the specification, meant of its registers. One or more bytes from 33
    /// to 126. Not both this and a care output.
    pub invariant: Option<&'a str>,
    /// Whether the filled implementation is requested.
    pub fill: bool,
    /// Which checks run, and their bounds.
    pub options: Options,
}

/// Exactly one of these; no words request two.
#[derive(Clone, Copy, Debug)]
pub enum Wanted<'a> {
    /// Two files.
    Comparison(FileComparison<'a>),
    /// A made pair: the adders have from 1 to 256 bits.
    MadePair {
        n: u32,
        fill: bool,
        options: Options,
    },
    /// Clause additions and the formula. The names of the files are parts of the words, and not empty.
    Refutation {
        cnf: &'a str,
        adds: &'a str,
    },
}

/// Words that make no request get one line of refusal, whatever is wrong with them.
#[derive(Clone, Copy, Debug, PartialEq, Eq)]
pub enum WordsFault {
    /// The words are not of the command's form.
    Usage,
    /// Lack of memory, which says nothing of the words.
    NoMemory,
}

impl From<AllocError> for WordsFault {
    ghost use Rattle.std.specs.Prelude.{◌≡◌};
    ghost use Rattle.bb_args.specs.declared.requested.WordsFault.TheVariants as fault;

    ghost from_gives = { λ _ e. e ≡ fault.NoMemory };

    fn from(_: AllocError) -> WordsFault {
        WordsFault::NoMemory
    }
}
