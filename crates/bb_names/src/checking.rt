//! The call of the crate. All modules are indexed before the first is checked, since an instance may name a module that
//! comes later in the text.

ghost use Rattle.std.specs.Prelude.{◌≡◌, ◌⊎◌, IfOk, IfErr, MatchResult, map};
ghost use Rattle.bb_ast.specs.Inside.Views.{module_view, source_view};
ghost use Rattle.bb_names.specs.declared.fault.NameFault.{NameFault};
ghost use Rattle.bb_names.specs.declared.fault.NameFault.TheVariants.{NoMemory};
ghost use Rattle.bb_names.specs.Inside.Checked.{AreFormedAndSmall, syntax};
ghost use Rattle.bb_names.specs.Faults.{IsSound, IsFirstFault, faults_of};
ghost use Rattle.bb_names.specs.Inside.Firsts.{Answers};

use crate::checked::Checked;
use crate::fault::NameFault;
use crate::faults::check_module;
use crate::sources::IndexedSource;
use bb_ast::Source;
use std::alloc::Global;

fn check_modules(alloc: Global, source: &IndexedSource) -> Result<(), NameFault>
    ensures { Answers result (faults_of (map module_view source.now)) }
{
    for (place, of) in source.modules().iter().enumerate() {
        check_module(alloc, source, of, place)?;
    }
    Ok(())
}

/// The modules of a source with their nets, or the first fault of the source.
///
/// Statements are checked one by one. In each, what is declared twice comes first, then unknown names, then bits that
/// no net has, then widths, then what is not allowed at its place; within one kind the leftmost comes first.
pub fn check(alloc: Global, source: Source) -> Result<Checked, NameFault>
    requires read { AreFormedAndSmall (source_view source) }

    // A result is the same modules, without a fault; an error is the first fault or `NoMemory`.
    ensures ok { IfOk result (λ checked. map syntax checked ≡ source_view source) }
    ensures sound { IfOk result (λ checked. IsSound (source_view source)) }
    ensures fault { IfErr result (λ fault. (fault ≡ NoMemory) ⊎ IsFirstFault (source_view source) fault) }

    // The modules come wherever there is no fault, and else the first fault, unless memory runs out.
    ensures only_sound { IsSound (source_view source) → IfErr result (λ fault. fault ≡ NoMemory) }
    ensures only_fault { (first : NameFault) → IsFirstFault (source_view source) first
        → MatchResult result (λ checked. ⊥) (λ fault. (fault ≡ first) ⊎ (fault ≡ NoMemory)) }
{
    let indexed = IndexedSource::new(alloc, source)?;
    check_modules(alloc, &indexed)?;
    Ok(Checked::new(alloc, indexed)?)
}
