//! The faults of syntax. They carry a line and no text: a report prints the line, and the reader of the report has the
//! file.

use std::alloc::{AllocError, AllocFailed};
use thiserror::Error;

/// The first fault in text order. Of one statement, `Deep` comes before `Statement`.
#[derive(Debug, Drop, Error)]
pub enum ParseFault {
    /// The statement whose first token is on the line is not in the language, or not at this place: a header inside a
    /// module, an item outside one.
    #[error("line {line}: not a statement of the language in its place")]
    Statement { line: u32 },
    /// Tokens are left that no `;` or `endmodule` ends, or a module is open at the end.
    #[error("the text ends within a statement or a module")]
    Unended,
    /// The statement whose first token is on the line nests deeper than 200 levels, whether or not it would parse.
    #[error("line {line}: nests deeper than 200 levels")]
    Deep { line: u32 },
    #[error("out of memory")]
    NoMemory,
}

impl From<AllocError> for ParseFault {
    ghost use Rattle.std.specs.Prelude.{◌≡◌};
    ghost use Rattle.bb_parse.specs.declared.fault.ParseFault.TheVariants.{NoMemory};

    ghost from_gives = { λ _ e. e ≡ NoMemory };

    fn from(_: AllocError) -> ParseFault {
        ParseFault::NoMemory
    }
}

impl<T: Drop> From<AllocFailed<T>> for ParseFault {
    ghost use Rattle.std.specs.Prelude.{◌≡◌};
    ghost use Rattle.bb_parse.specs.declared.fault.ParseFault.TheVariants.{NoMemory};

    ghost from_gives = { λ _ e. e ≡ NoMemory };

    fn from(_: AllocFailed<T>) -> ParseFault {
        ParseFault::NoMemory
    }
}
