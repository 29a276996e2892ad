//! Elaboration from the top module to the flat netlist, or to the first cause for which the design is refused.

ghost use Rattle.std.specs.Prelude.{◌≡◌, ◌⊎◌, ◌<◌, length, map, IfOk, IfErr, MatchResult, option_copied};
ghost use Rattle.bb_names.specs.Inside.Checked.{syntax};
ghost use Rattle.bb_design.specs.declared.fault.ElabFault.{ElabFault};
ghost use Rattle.bb_design.specs.declared.fault.ElabFault.TheVariants.{NoMemory};
ghost use Rattle.bb_design.specs.Refusals.{IsFirstDesignRefusal, IsRefusalOf, IsSoundDesign, IsSoundText};
ghost use Rattle.bb_hier.specs.Inside.Finite.{AtTop};
ghost use Rattle.bb_implements.specs.Implements.{Implements, ImplementsText};

use crate::elaboration::grow;
use crate::finishing::finish;
use crate::levelizing::arrange;
use bb_design::ElabFault;
use bb_design::laws::laws_of_designs;
use bb_hier::{hierarchy, place_of_top};
use bb_names::Checked;
use bb_net::Flat;
use std::alloc::Global;

fn flatten(alloc: Global, checked: &Checked, top: usize) -> Result<Flat, ElabFault>
    requires top { top < length checked.now }
    ensures ok { IfOk result (λ flat. AtTop (map syntax checked.now) top (λ d. Implements d flat × IsSoundDesign d)) }
    ensures fault { IfErr result (λ fault.
        (fault ≡ NoMemory) ⊎ AtTop (map syntax checked.now) top (λ d. IsRefusalOf d fault)) }
{
    let called = hierarchy(alloc, checked, top)?;
    let elaborated = grow(alloc, checked, &called, top)?;
    let levelized = arrange(alloc, checked, &elaborated)?;
    finish(alloc, checked, &elaborated, levelized)
}

/// The flat netlist of a source, or the first cause for which it is refused: later stages presuppose that earlier
/// causes do not hold.
///
/// The top is the module of the given name, or without a name the one module that no module instantiates.
pub fn elaborate(alloc: Global, checked: &Checked, top: Option<&[u8]>) -> Result<Flat, ElabFault>
    // The result implements the design, or is the first cause.
    ensures ok { IfOk result (λ flat. ImplementsText (map syntax checked.now) (option_copied top.entry) flat) }
    ensures sound { IfOk result (λ flat. IsSoundText (map syntax checked.now) (option_copied top.entry)) }
    ensures fault { IfErr result (λ fault.
        (fault ≡ NoMemory) ⊎ IsFirstDesignRefusal (map syntax checked.now) (option_copied top.entry) fault) }

    // A netlist is answered where there is no cause, and else the first, unless memory runs out.
    ensures only_sound { IsSoundText (map syntax checked.now) (option_copied top.entry)
        → IfErr result (λ fault. fault ≡ NoMemory) }
    ensures only_fault { (first : ElabFault)
        → IsFirstDesignRefusal (map syntax checked.now) (option_copied top.entry) first
        → MatchResult result (λ flat. ⊥) (λ fault. (fault ≡ first) ⊎ (fault ≡ NoMemory)) }
{
    laws_of_designs();
    let Some(top) = place_of_top(alloc, checked, top)? else {
        return Err(ElabFault::NoTop);
    };
    let flat = flatten(alloc, checked, top)?;
    Ok(flat)
}
