//! Refuses a design that is recursive, too deep or too large, in this order: depth means something only without
//! recursion. Nothing is instantiated before all three are known not to hold.

ghost use Rattle.std.specs.Prelude.{◌≡◌, ◌⊎◌, ◌<◌, map, length, IfOk, IfErr};
ghost use Rattle.bb_names.specs.Inside.Checked.{syntax};
ghost use Rattle.bb_design.specs.declared.fault.ElabFault.TheVariants.{NoMemory};
ghost use Rattle.bb_design.specs.Inside.Callees.{callees};
ghost use Rattle.bb_design.specs.Refusals.{IsRefusalOf};
ghost use Rattle.bb_hier.specs.Inside.Finite.{AtTop, IsFinite};

use crate::callees::callees_of;
use crate::depth::low_instance;
use crate::recursion::recursive_module;
use crate::size::is_too_large;
use bb_design::ElabFault;
use bb_design::laws::laws_of_designs;
use bb_names::Checked;
use std::alloc::Global;

/// For each module the places of its callees, one for each instance, in text order.
pub fn hierarchy(alloc: Global, checked: &Checked, top: usize) -> Result<Vec<Vec<usize>>, ElabFault>
    requires top { top < length checked.now }
    ensures called { IfOk result (λ called.
        map (λ list. list.items) called.items ≡ map (callees (map syntax checked.now)) (map syntax checked.now)) }
    ensures finite { IfOk result (λ called. AtTop (map syntax checked.now) top IsFinite) }
    ensures fault { IfErr result (λ fault.
        (fault ≡ NoMemory) ⊎ AtTop (map syntax checked.now) top (λ d. IsRefusalOf d fault)) }
{
    laws_of_designs();
    let _modules = checked.modules();
    let called = callees_of(alloc, checked)?;
    // The search for a recursion empties lists, so it has lists of its own.
    let mut lists = callees_of(alloc, checked)?;
    if let Some(name) = recursive_module(alloc, checked, &mut lists, top)? {
        return Err(ElabFault::Recursive { name });
    }
    if let Some(name) = low_instance(alloc, checked, &called, top)? {
        return Err(ElabFault::TooDeep { name });
    }
    if is_too_large(alloc, checked, &called, top)? {
        return Err(ElabFault::TooLarge);
    }
    Ok(called)
}
