//! One side: a text as a flat netlist, or its first fault.
//!
//! Each stage drops what it has used: the tokens when the source is read, the source when the netlist is made. So
//! memory never holds all forms of a text at once.

ghost use Rattle.std.specs.Prelude.{◌≡◌, ◌<◌, ◌⊎◌, ℕ, List, Option, map, length, IfOk, IfErr, MatchResult};
ghost use Rattle.std.specs.Prelude.{option_copied};
ghost use Rattle.bb_ast.specs.Inside.Views.{source_view};
ghost use Rattle.bb_design.specs.Hierarchy.{Design};
ghost use Rattle.bb_implements.specs.Implements.{Implements};
ghost use Rattle.bb_names.specs.Inside.Checked.{syntax};
ghost use Rattle.bb_names.specs.Faults.{IsSound};
ghost use Rattle.bb_parse.specs.Sources.{ReadsAs};
ghost use Rattle.bb_frontend.specs.declared.limit.TheConstants.{READ_LIMIT};
ghost use Rattle.bb_frontend.specs.declared.side_fault.SideFault.{SideFault};
ghost use Rattle.bb_frontend.specs.TextDesigns.{IsDesignOf, IsSideFault, TextsReadAsOne, TextDesignsAreOne};
ghost use Rattle.bb_frontend.specs.TextDesigns.{SideFaultsAreOne, NotDesignAndFault, DesignOrFault};

use crate::side_fault::SideFault;
use bb_ast::Source;
use bb_elab::{Flat, elaborate};
use bb_lex::tokens;
use bb_names::{Checked, check};
use bb_parse::source;
use std::alloc::Global;

// A fault of tokens comes before any fault of statements, also one that is later in the text.
fn source_of(alloc: Global, text: &[u8]) -> Result<Source, SideFault>
    requires short { length text.now < READ_LIMIT }
    ensures ok { IfOk result (λ source. ReadsAs text.now (source_view source)) }
    ensures fault { IfErr result (λ fault.
        (fault ≡ SideFault.NoMemory) ⊎ ((name : Option (List ℕ)) → IsSideFault name text.now fault)) }
{
    let tokens = tokens(alloc, text)?;
    Ok(source(alloc, &tokens, text)?)
}

// All modules are checked, also those that the top never instantiates.
fn checked_of(alloc: Global, text: &[u8]) -> Result<Checked, SideFault>
    requires short { length text.now < READ_LIMIT }
    ensures ok { IfOk result (λ checked. ReadsAs text.now (map syntax checked)) }
    ensures sound { IfOk result (λ checked. IsSound (map syntax checked)) }
    ensures fault { IfErr result (λ fault.
        (fault ≡ SideFault.NoMemory) ⊎ ((name : Option (List ℕ)) → IsSideFault name text.now fault)) }
{
    bb_parse::laws::sources_are_formed();
    bb_parse::laws::texts_are_long();
    let source = source_of(alloc, text)?;
    Ok(check(alloc, source)?)
}

/// The flat netlist of a text, or its first fault.
///
/// `top` names the top module; without it, the one module that no module instantiates.
pub fn flat_of(alloc: Global, text: &[u8], top: Option<&[u8]>) -> Result<Flat, SideFault>
    requires short { length text.now < READ_LIMIT }

    // The result implements the design of the text, or is the first fault.
    ensures ok { IfOk result (λ flat.
        (d : Design) × IsDesignOf (option_copied top.entry) text.now d × Implements d flat) }
    ensures fault { IfErr result (λ fault.
        (fault ≡ SideFault.NoMemory) ⊎ IsSideFault (option_copied top.entry) text.now fault) }

    // A netlist where the text has a design, and otherwise the first fault, unless memory runs out.
    ensures only_sound { (d : Design) → IsDesignOf (option_copied top.entry) text.now d
        → IfErr result (λ fault. fault ≡ SideFault.NoMemory) }
    ensures only_fault { (first : SideFault) → IsSideFault (option_copied top.entry) text.now first
        → MatchResult result (λ flat. ⊥) (λ fault. (fault ≡ first) ⊎ (fault ≡ SideFault.NoMemory)) }
{
    texts_have_designs();
    let checked = checked_of(alloc, text)?;
    Ok(elaborate(alloc, &checked, top)?)
}

/// Under a given top a text has one design or one first fault, and never both: so a verdict may speak of the design of
/// a text.
pub fn texts_have_designs()
    ensures readings { TextsReadAsOne }
    ensures designs { TextDesignsAreOne }
    ensures faults { SideFaultsAreOne }
    ensures not_both { NotDesignAndFault }
    ensures either { DesignOrFault }
{
    bb_lex::laws::tokens_are_one();
    bb_lex::laws::bad_lines_are_one();
    bb_lex::laws::not_tokens_and_bad_line();
    bb_lex::laws::tokens_or_bad_line();
    bb_parse::laws::texts_read_once();
    bb_parse::laws::faults_are_one();
    bb_parse::laws::not_source_and_fault();
    bb_parse::laws::source_or_fault();
    bb_names::laws::first_faults_are_one();
    bb_names::laws::not_sound_and_fault();
    bb_names::laws::sound_or_fault();
    bb_design::laws::first_refusals_are_one();
    bb_design::laws::not_sound_and_refused();
    bb_design::laws::sound_or_refused();
}
