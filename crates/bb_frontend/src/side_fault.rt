//! The first fault of one text, on the way from its bytes to a flat netlist. Faults of names and of designs are kept
//! whole, so that the reported words are functions of the lower enums; only lack of memory is taken out of them, since
//! it is one fault here wherever it came.

use bb_bits::NoMemory;
use bb_design::ElabFault;
use bb_lex::LexFault;
use bb_names::NameFault;
use bb_parse::ParseFault;

/// In the order of the stages: tokens, statements, names, the design.
#[derive(Debug, Drop)]
pub enum SideFault {
    /// No token begins at some byte of this line.
    Token { line: u32 },
    /// The statement that begins on this line is not of the language, or not here.
    Statement { line: u32 },
    /// The statement that begins on this line nests too deep.
    Deep { line: u32 },
    /// The text ends within a statement or a module, so no line is named.
    Unended,
    /// A rule on names, widths or roles is broken.
    Named(NameFault),
    /// The modules are sound, but the design under this top is not.
    Elaborated(ElabFault),
    NoMemory,
}

impl From<NoMemory> for SideFault {
    ghost use Rattle.std.specs.Prelude.{◌≡◌};
    ghost use Rattle.bb_frontend.specs.declared.side_fault.SideFault.TheVariants as fault;

    ghost from_gives = { λ _ e. e ≡ fault.NoMemory };

    fn from(_: NoMemory) -> SideFault {
        SideFault::NoMemory
    }
}

impl From<LexFault> for SideFault {
    ghost use Rattle.std.specs.Prelude.{◌≡◌};
    ghost use Rattle.bb_frontend.specs.Inside.SideFaults.{of_lex};

    ghost from_gives = { λ fault e. e ≡ of_lex fault };

    fn from(fault: LexFault) -> SideFault {
        match fault {
            LexFault::Bad { line } => SideFault::Token { line },
            LexFault::NoMemory => SideFault::NoMemory,
        }
    }
}

impl From<ParseFault> for SideFault {
    ghost use Rattle.std.specs.Prelude.{◌≡◌};
    ghost use Rattle.bb_frontend.specs.Inside.SideFaults.{of_parse};

    ghost from_gives = { λ fault e. e ≡ of_parse fault };

    fn from(fault: ParseFault) -> SideFault {
        match fault {
            ParseFault::Statement { line } => SideFault::Statement { line },
            ParseFault::Unended => SideFault::Unended,
            ParseFault::Deep { line } => SideFault::Deep { line },
            ParseFault::NoMemory => SideFault::NoMemory,
        }
    }
}

impl From<NameFault> for SideFault {
    ghost use Rattle.std.specs.Prelude.{◌≡◌};
    ghost use Rattle.bb_frontend.specs.Inside.SideFaults.{of_name};

    ghost from_gives = { λ fault e. e ≡ of_name fault };

    fn from(fault: NameFault) -> SideFault {
        match fault {
            NameFault::NoMemory => SideFault::NoMemory,
            fault => SideFault::Named(fault),
        }
    }
}

impl From<ElabFault> for SideFault {
    ghost use Rattle.std.specs.Prelude.{◌≡◌};
    ghost use Rattle.bb_frontend.specs.Inside.SideFaults.{of_elab};

    ghost from_gives = { λ fault e. e ≡ of_elab fault };

    fn from(fault: ElabFault) -> SideFault {
        match fault {
            ElabFault::NoMemory => SideFault::NoMemory,
            fault => SideFault::Elaborated(fault),
        }
    }
}
