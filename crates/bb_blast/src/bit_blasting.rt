//! Makes the template of each module that the design uses, once for all its scopes.
//!
//! The numbers of first bits are found for all these modules before any template is made, since a connection names bits
//! of the module that is instantiated.

ghost use Rattle.std.specs.Prelude.{◌≡◌, ◌<◌, ◌≤◌, ◌^◌, ℕ, All, Some, true, length, map, slice_get, IfOk};
ghost use Rattle.bb_names.specs.Inside.Checked.{syntax};
ghost use Rattle.bb_names.specs.Nets.{nets_of};
ghost use Rattle.bb_design.specs.Hierarchy.{Design};
ghost use Rattle.bb_design.specs.Inside.Callees.{callees};
ghost use Rattle.bb_blast.specs.Inside.ModuleTemplates.{IsModuleTemplate};
ghost use Rattle.bb_blast.specs.Inside.BitBlasting.{AreStarts, AreUsed, IsOutlinable, IsStarted, bit_count, module_in};
ghost use Rattle.bb_blast.specs.Inside.Placements.{ArePlaced, AreTemplated};
ghost use Rattle.bb_design.specs.Refusals.{IsSmallDesign};

use crate::expression_steps::scope_at;
use crate::module_context::{ModuleContext, Targets};
use crate::module_parts::parts_of;
use crate::net_starts::{count_bits, port_bits, starts_of};
use crate::placed::Placed;
use crate::template::ModuleTemplate;
use bb_bits::NoMemory;
use bb_design::laws::laws_of_designs;
use bb_expr::laws::occurrences_are_fit;
use bb_names::{Checked, CheckedModule};
use std::alloc::Global;

fn template_of(
    alloc: Global,
    checked: &Checked,
    place: u32,
    starts: &[Vec<u32>],
    targets: &[usize],
) -> Result<ModuleTemplate, NoMemory>
    requires outlinable { IsOutlinable checked.now (map (λ list. list.items) starts.now) place targets.now }
    ensures template { IfOk result (λ template.
        IsModuleTemplate (map syntax checked.now) (module_in checked.now place) template) }
{
    laws_of_designs();
    occurrences_are_fit();
    let nets = &scope_at(checked, place).nets;
    let own = &starts[place as usize];
    let inputs = port_bits(alloc, nets, own, true)?;
    let outputs = port_bits(alloc, nets, own, false)?;
    let context = ModuleContext {
        checked,
        module: place,
        starts: own,
    };
    let targets = Targets {
        modules: targets,
        starts,
    };
    let parts = parts_of(alloc, context, targets)?;
    Ok(ModuleTemplate {
        starts: Vec::from_slice(alloc, own)?,
        bits: count_bits(nets),
        inputs,
        outputs,
        parts,
    })
}

// A text may have modules that the design does not use; these get no template.
fn used_modules(alloc: Global, count: usize, placed: &[Placed]) -> Result<Vec<bool>, NoMemory>
    requires there { All (λ p. p.module < count) placed.now }
    ensures used { IfOk result (λ used. AreUsed placed.now used.items) }
    ensures long { IfOk result (λ used. length used.items ≡ count) }
{
    let mut used = vec![in alloc; false; count]?;
    for k in 0..placed.len() {
        used[placed[k].module] = true;
    }
    Ok(used)
}

fn starts_where(alloc: Global, scope: &CheckedModule, used: bool) -> Result<Vec<u32>, NoMemory>
    requires modest { used ≡ true → bit_count scope.now.nets.items ≤ 1000000 }
    ensures starts { IfOk result (λ starts. used ≡ true → AreStarts scope.now.nets.items starts.items) }
{
    if !used {
        return Ok(Vec::new(alloc));
    }
    starts_of(alloc, &scope.nets)
}

fn all_starts(alloc: Global, checked: &Checked, used: &[bool]) -> Result<Vec<Vec<u32>>, NoMemory>
    requires long { length used.now ≡ length checked.now }
    requires modest { (m : ℕ) → slice_get used.now m ≡ Some true
        → bit_count (nets_of (module_in checked.now m)) ≤ 1000000 }
    ensures started { IfOk result (λ starts.
        (m : ℕ) → slice_get used.now m ≡ Some true → IsStarted checked.now (map (λ list. list.items) starts.items) m) }
{
    let modules = checked.modules();
    let mut starts = Vec::with_capacity(alloc, modules.len())?;
    for k in 0..modules.len() {
        starts.push(starts_where(alloc, &modules[k], used[k])?)?;
    }
    Ok(starts)
}

fn template_at(
    alloc: Global,
    checked: &Checked,
    place: usize,
    starts: &[Vec<u32>],
    targets: &[usize],
    used: bool,
) -> Result<ModuleTemplate, NoMemory>
    requires outlinable { used ≡ true
        → IsOutlinable checked.now (map (λ list. list.items) starts.now) place targets.now }
    ensures template { IfOk result (λ template.
        used ≡ true → IsModuleTemplate (map syntax checked.now) (module_in checked.now place) template) }
{
    if used {
        return template_of(alloc, checked, place as u32, starts, targets);
    }
    Ok(ModuleTemplate {
        starts: Vec::new(alloc),
        bits: 0,
        inputs: Vec::new(alloc),
        outputs: Vec::new(alloc),
        parts: Vec::new(alloc),
    })
}

/// Templates by the index of their module, where `called` has for each module the indices of its callees, one for each
/// instance. A module without a scope has an empty template, so that indices stay those of the text.
pub fn module_templates(
    alloc: Global,
    checked: &Checked,
    called: &[Vec<usize>],
    placed: &[Placed],
) -> Result<Vec<ModuleTemplate>, NoMemory>
    requires called { map (λ list. list.items) called.now
        ≡ map (callees (map syntax checked.now)) (map syntax checked.now) }
    requires design { (d : Design) × (d.text ≡ map syntax checked.now) × ArePlaced d placed.now × IsSmallDesign d }
    ensures templated { IfOk result (λ all. (d : Design) → d.text ≡ map syntax checked.now → ArePlaced d placed.now
        → IsSmallDesign d → AreTemplated d placed.now all.items) }
{
    laws_of_designs();
    let modules = checked.modules();
    let used = used_modules(alloc, modules.len(), placed)?;
    let starts = all_starts(alloc, checked, &used)?;
    let mut templates = Vec::with_capacity(alloc, used.len())?;
    for k in 0..used.len() {
        let template = template_at(alloc, checked, k, &starts, &called[k], used[k])?;
        templates.push(template)?;
    }
    Ok(templates)
}
