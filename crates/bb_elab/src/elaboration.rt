//! Elaborates the hierarchy (`Elaborated`): scopes, templates of modules, drivers and registers by numbers; the design
//! is refused where a bit is driven twice.

ghost use Rattle.std.specs.Prelude.{◌≡◌, ◌⊎◌, ◌<◌, ℕ, map, length, Some, slice_get, IfOk, IfErr};
ghost use Rattle.bb_names.specs.Inside.Checked.{syntax};
ghost use Rattle.bb_design.specs.declared.fault.ElabFault.TheVariants.{NoMemory};
ghost use Rattle.bb_design.specs.Inside.Callees.{callees};
ghost use Rattle.bb_design.specs.Refusals.{TwoDrivers, IsRefusalOf};
ghost use Rattle.bb_elab.specs.Inside.Stages.{AreElaborated};
ghost use Rattle.bb_hier.specs.Inside.Finite.{AtTop, IsFinite};

use crate::drivers::{bit_count, driver_counts, first_driven_twice};
use crate::registers::stored_bits;
use crate::scopes::place_scopes;
use crate::texts::bit_name;
use bb_blast::{ModuleTemplate, Placed, Stored, module_templates};
use bb_design::ElabFault;
use bb_design::laws::laws_of_designs;
use bb_names::Checked;
use std::alloc::Global;

/// An elaborated design, before it has cells.
#[derive(Debug, Drop)]
pub(crate) struct Elaborated {
    /// In elaboration order.
    pub placed: Vec<Placed>,
    /// The templates, by the index of their module.
    pub templates: Vec<ModuleTemplate>,
    /// Drivers of each bit, in net order; 2 means two or more.
    pub counts: Vec<u8>,
    /// In net order.
    pub stored: Vec<Stored>,
}

/// Second drivers are refused before cells are made, so that what drives a bit is one place from then on.
pub(crate) fn grow(
    alloc: Global,
    checked: &Checked,
    called: &[Vec<usize>],
    top: usize,
) -> Result<Elaborated, ElabFault>
    requires called { map (λ list. list.items) called.now
        ≡ map (callees (map syntax checked.now)) (map syntax checked.now) }
    requires top { top < length checked.now }
    requires finite { AtTop (map syntax checked.now) top IsFinite }
    ensures elaborated { IfOk result (λ g. AtTop (map syntax checked.now) top (λ d.
        AreElaborated d g.placed.items g.templates.items g.counts.items g.stored.items)) }
    ensures fault { IfErr result (λ fault.
        (fault ≡ NoMemory) ⊎ AtTop (map syntax checked.now) top (λ d. IsRefusalOf d fault)) }
{
    laws_of_designs();
    let placed = place_scopes(alloc, checked, called, top)?;
    let templates = module_templates(alloc, checked, called, &placed)?;
    let counts = driver_counts(alloc, &placed, &templates)?;
    if let Some(number) = first_driven_twice(&counts) {
        return Err(ElabFault::DrivenTwice {
            name: bit_name(alloc, checked, &placed, &templates, number as u32)?,
        });
    }
    let stored = stored_bits(alloc, &placed, &templates, bit_count(&placed, &templates))?;
    Ok(Elaborated {
        placed,
        templates,
        counts,
        stored,
    })
}
