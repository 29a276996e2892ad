//! The names of boxes; a design is refused where two have one path, which escaped names can spell.
//!
//! A box carries the name of its module. A flat netlist keeps that boxes of one module have pins of the same names, so
//! where boxes share contents by module nothing has to be checked about their pins.

ghost use Rattle.std.specs.Prelude.{◌≡◌, ◌⊎◌, ◌<◌, ◌^◌, All, length, map, IfOk, IfErr};
ghost use Rattle.std.specs.List.{AllZip};
ghost use Rattle.bb_names.specs.Inside.Checked.{syntax};
ghost use Rattle.bb_design.specs.declared.fault.ElabFault.TheVariants.{NoMemory as out_of_memory};
ghost use Rattle.bb_design.specs.Hierarchy.{Design, Scope, boxes};
ghost use Rattle.bb_blast.specs.Inside.Placements.{IsScopeAt, ArePlaced};
ghost use Rattle.bb_design.specs.Refusals.{BoxTexts, IsAbsentInDesign, box_paths};
ghost use Rattle.bb_design.specs.Laws.CauseLaws.{ReportsCause};
ghost use Rattle.bb_elab.specs.Inside.Stages.{IsElaborated};
ghost use Rattle.bb_implements.specs.Implements.{box_number, box_texts};

use crate::elaboration::Elaborated;
use crate::naming::pin_names;
use crate::repeats::first_repeat;
use crate::texts::{module_name, path_name};
use bb_bits::{Name, NoMemory};
use bb_blast::{Placed, moved, template_of};
use bb_design::ElabFault;
use bb_names::Checked;
use bb_net::BoxName;
use std::alloc::Global;

// In elaboration order.
fn boxed_scopes(alloc: Global, placed: &[Placed]) -> Result<Vec<u32>, NoMemory>
    requires few { length placed.now < 2 ^ 32 }
    ensures boxed { IfOk result (λ boxed.
        (d : Design) → ArePlaced d placed.now → AllZip (IsScopeAt d) boxed.items (boxes d)) }
{
    let mut boxed = Vec::new(alloc);
    for (scope, at) in placed.iter().enumerate() {
        if at.boxed {
            boxed.push(scope as u32)?;
        }
    }
    Ok(boxed)
}

fn path_names(alloc: Global, placed: &[Placed], scopes: &[u32]) -> Result<Vec<Name>, NoMemory>
    requires design { (d : Design) × ArePlaced d placed.now }
    requires there { All (λ k. k < length placed.now) scopes.now }
    ensures paths { IfOk result (λ paths. (d : Design) → ArePlaced d placed.now
        → AllZip (IsScopeAt d) scopes.now (boxes d) → paths.items ≡ box_paths d) }
{
    let mut paths = Vec::with_capacity(alloc, scopes.len())?;
    for scope in scopes {
        paths.push(path_name(alloc, placed, *scope)?)?;
    }
    Ok(paths)
}

/// Scope numbers in elaboration order; no two of these boxes have one path.
pub(crate) fn boxes_apart(
    alloc: Global,
    checked: &Checked,
    elaborated: &Elaborated,
) -> Result<Vec<u32>, ElabFault>
    requires design { (d : Design) × IsElaborated (map syntax checked.now) d elaborated.now }
    ensures boxed { IfOk result (λ boxed. (d : Design) → IsElaborated (map syntax checked.now) d elaborated.now
        → AllZip (IsScopeAt d) boxed.items (boxes d)) }
    ensures apart { IfOk result (λ boxed.
        (d : Design) → IsElaborated (map syntax checked.now) d elaborated.now → IsAbsentInDesign d BoxTexts) }
    ensures fault { IfErr result (λ fault. (fault ≡ out_of_memory)
        ⊎ ((d : Design) → IsElaborated (map syntax checked.now) d elaborated.now → ReportsCause d BoxTexts fault)) }
{
    let boxed = boxed_scopes(alloc, &elaborated.placed)?;
    let paths = path_names(alloc, &elaborated.placed, &boxed)?;
    match first_repeat(alloc, &paths)? {
        Some(name) => Err(ElabFault::BoxTwice { name }),
        None => Ok(boxed),
    }
}

// Pins are the bits of ports, port by port and most significant first.
fn box_name(
    alloc: Global,
    checked: &Checked,
    elaborated: &Elaborated,
    scope: u32,
) -> Result<BoxName, NoMemory>
    requires design { (d : Design) × IsElaborated (map syntax checked.now) d elaborated.now }
    requires there { scope < length elaborated.now.placed.items }
    ensures name { IfOk result (λ n. (d : Design) → IsElaborated (map syntax checked.now) d elaborated.now
        → (s : Scope) → IsScopeAt d scope s → n ≡ box_texts d s) }
{
    let at = &elaborated.placed[scope as usize];
    let template = template_of(&elaborated.templates, at);
    let ins = moved(alloc, at.first, &template.inputs)?;
    let outs = moved(alloc, at.first, &template.outputs)?;
    Ok(BoxName::of(
        path_name(alloc, &elaborated.placed, scope)?,
        module_name(alloc, checked, &elaborated.placed, scope)?,
        pin_names(alloc, checked, elaborated, &ins)?,
        pin_names(alloc, checked, elaborated, &outs)?,
    ))
}

/// `numbers` has the order of the netlist: for each box of it the place in `boxed`.
pub(crate) fn box_names(
    alloc: Global,
    checked: &Checked,
    elaborated: &Elaborated,
    boxed: &[u32],
    numbers: &[u32],
) -> Result<Vec<BoxName>, NoMemory>
    requires design { (d : Design) × IsElaborated (map syntax checked.now) d elaborated.now }
    requires scopes { All (λ k. k < length elaborated.now.placed.items) boxed.now }
    requires there { All (λ b. b < length boxed.now) numbers.now }
    ensures names { IfOk result (λ names. (d : Design) → IsElaborated (map syntax checked.now) d elaborated.now
        → AllZip (IsScopeAt d) boxed.now (boxes d)
        → names.items ≡ map (λ b. box_texts d (box_number d b)) numbers.now) }
{
    let mut names = Vec::with_capacity(alloc, numbers.len())?;
    for number in numbers {
        names.push(box_name(alloc, checked, elaborated, boxed[*number as usize])?)?;
    }
    Ok(names)
}
