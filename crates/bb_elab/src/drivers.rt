//! How often each bit of a design is driven.
//!
//! One pass over all constructs counts at the number of each bit that is driven there. Only none, one and more than one
//! are distinguished, so a byte a bit is enough and no count overflows.

ghost use Rattle.std.specs.Prelude.{◌≡◌, ◌+◌, ◌<◌, ◌++◌, ◌∷◌, [], ℕ, List, All, Some, length, slice_get, IfNone, IfOk};
ghost use Rattle.std.specs.Prelude.{IfSome};
ghost use Rattle.std.specs.List.{flat_map};
ghost use Rattle.bb_blast.specs.declared.template.ModuleTemplate.{ModuleTemplate};
ghost use Rattle.bb_blast.specs.declared.placed.Placed.{Placed};
ghost use Rattle.bb_elab.specs.Inside.DrivenNumbers.{top_numbers, part_numbers, scope_numbers, driven_numbers};
ghost use Rattle.bb_elab.specs.Inside.DrivenNumbers.{IsInside, MayCountInputs, MayBeCounted, IsTally, IsFirstAt};
ghost use Rattle.bb_elab.specs.Inside.DrivenNumbers.{AreCounts};
ghost use Rattle.bb_bits.specs.Inside.Places.{numbers_from};
ghost use Rattle.bb_design.specs.Hierarchy.{Design};
ghost use Rattle.bb_design.specs.Inside.Allowed.{IsBounded};
ghost use Rattle.bb_design.specs.NetBits.{net_order};
ghost use Rattle.bb_blast.specs.Inside.Placements.{ArePlaced, AreTemplated};
ghost use Rattle.bb_design.specs.Refusals.{AreDrivenOnce, IsDrivenTwice};

use bb_bits::NoMemory;
use bb_blast::{ModuleTemplate, Part, Placed};
use bb_design::laws::laws_of_designs;
use bb_expr::laws::{made_has_value, net_names_differ, values_have_width};
use std::alloc::Global;

fn count(counts: &mut [u8], bit: usize)
    requires there { bit < length counts.old }
    ensures tally { (numbers : List ℕ) → IsTally numbers counts.old → IsTally (numbers ++ bit ∷ []) counts.new }
{
    if counts[bit] < 2 {
        counts[bit] += 1;
    }
}

fn count_bits(counts: &mut [u8], first: u32, bits: &[u32])
    requires there { All (λ k. k < length counts.old) (numbers_from first bits.now) }
    ensures tally { (numbers : List ℕ) → IsTally numbers counts.old
        → IsTally (numbers ++ numbers_from first bits.now) counts.new }
{
    for bit in bits {
        count(counts, first as usize + *bit as usize);
    }
}

// A connection to an input port drives the port's bits, in the scope of the instance.
fn count_part(counts: &mut [u8], placed: &[Placed], scope: &Placed, part: &Part)
    requires inside { IsInside placed.now scope.now part.now }
    requires there { All (λ k. k < length counts.old) (part_numbers placed.now scope.now part.now) }
    ensures tally { (numbers : List ℕ) → IsTally numbers counts.old
        → IsTally (numbers ++ part_numbers placed.now scope.now part.now) counts.new }
{
    match part {
        Part::Assignment { left, .. } => count_bits(counts, scope.first, left),
        Part::Gate { outs, .. } => count_bits(counts, scope.first, outs),
        Part::Register { left, .. } => count_bits(counts, scope.first, left),
        Part::Supply { bits, .. } => count_bits(counts, scope.first, bits),
        Part::Input { instance, pin, .. } => {
            let child = scope.children[*instance as usize];
            count_bits(counts, placed[child as usize].first, pin)
        }
        Part::Output { left, .. } => count_bits(counts, scope.first, left),
    }
}

fn count_parts(counts: &mut [u8], placed: &[Placed], scope: &Placed, parts: &[Part])
    requires inside { All (IsInside placed.now scope.now) parts.now }
    requires there { All (λ k. k < length counts.old) (flat_map (part_numbers placed.now scope.now) parts.now) }
    ensures tally { (numbers : List ℕ) → IsTally numbers counts.old
        → IsTally (numbers ++ flat_map (part_numbers placed.now scope.now) parts.now) counts.new }
{
    for part in parts {
        count_part(counts, placed, scope, part);
    }
}

// What is inside a box is open, so its outputs count as driven.
fn count_scope(counts: &mut [u8], placed: &[Placed], templates: &[ModuleTemplate], scope: &Placed)
    requires counted { MayBeCounted placed.now templates.now (length counts.old) scope.now }
    ensures tally { (numbers : List ℕ) → IsTally numbers counts.old
        → IsTally (numbers ++ scope_numbers placed.now templates.now scope.now) counts.new }
{
    let template = &templates[scope.module];
    if scope.boxed {
        count_bits(counts, scope.first, &template.outputs);
    } else {
        count_parts(counts, placed, scope, &template.parts);
    }
}

fn count_scopes(counts: &mut [u8], placed: &[Placed], templates: &[ModuleTemplate])
    requires counted { All (MayBeCounted placed.now templates.now (length counts.old)) placed.now }
    ensures tally { (numbers : List ℕ) → IsTally numbers counts.old
        → IsTally (numbers ++ flat_map (scope_numbers placed.now templates.now) placed.now) counts.new }
{
    for scope in placed {
        count_scope(counts, placed, templates, scope);
    }
}

// Inputs of the top are driven from outside.
fn count_inputs(counts: &mut [u8], placed: &[Placed], templates: &[ModuleTemplate])
    requires counted { (p : Placed) → slice_get placed.now 0 ≡ Some p
        → MayCountInputs templates.now (length counts.old) p }
    ensures tally { (numbers : List ℕ) → IsTally numbers counts.old
        → IsTally (numbers ++ top_numbers placed.now templates.now) counts.new }
{
    if let [top, ..] = placed {
        count_bits(counts, top.first, &templates[top.module].inputs);
    }
}

fn count_drivers(counts: &mut [u8], placed: &[Placed], templates: &[ModuleTemplate])
    requires inputs { (p : Placed) → slice_get placed.now 0 ≡ Some p
        → MayCountInputs templates.now (length counts.old) p }
    requires scopes { All (MayBeCounted placed.now templates.now (length counts.old)) placed.now }
    ensures tally { IsTally [] counts.old → IsTally (driven_numbers placed.now templates.now) counts.new }
{
    count_inputs(counts, placed, templates);
    count_scopes(counts, placed, templates);
}

// Scopes come in the order of their bits, so the last one gives the number of all.
fn bits_through(scope: &Placed, templates: &[ModuleTemplate]) -> usize
    requires templated { scope.now.module < length templates.now }
    ensures bits { (o : ModuleTemplate) → slice_get templates.now scope.now.module ≡ Some o
        → result ≡ scope.now.first + o.bits }
{
    scope.first as usize + templates[scope.module].bits as usize
}

pub(crate) fn bit_count(placed: &[Placed], templates: &[ModuleTemplate]) -> usize
    requires design { (d : Design) × ArePlaced d placed.now × AreTemplated d placed.now templates.now }
    ensures bits { (d : Design) → ArePlaced d placed.now → AreTemplated d placed.now templates.now
        → result ≡ length (net_order d) }
{
    laws_of_designs();
    bits_through(&placed[placed.len() - 1], templates)
}

/// In net order, where 2 means two or more.
pub(crate) fn driver_counts(
    alloc: Global,
    placed: &[Placed],
    templates: &[ModuleTemplate],
) -> Result<Vec<u8>, NoMemory>
    requires design { (d : Design) × ArePlaced d placed.now × AreTemplated d placed.now templates.now × IsBounded d }
    ensures counts { IfOk result (λ counts. (d : Design) → ArePlaced d placed.now
        → AreTemplated d placed.now templates.now → IsBounded d → AreCounts d counts.items) }
{
    laws_of_designs();
    values_have_width();
    made_has_value();
    net_names_differ();
    let mut counts = vec![in alloc; 0u8; bit_count(placed, templates)]?;
    count_drivers(&mut counts, placed, templates);
    Ok(counts)
}

/// The first in net order, so the report does not depend on the order of the constructs.
pub(crate) fn first_driven_twice(counts: &[u8]) -> Option<usize>
    ensures some { IfSome result (λ k. (d : Design) → AreCounts d counts.now → IsFirstAt d (IsDrivenTwice d) k) }
    ensures none { IfNone result ((d : Design) → IsBounded d → AreCounts d counts.now → AreDrivenOnce d) }
{
    laws_of_designs();
    for k in 0..counts.len() {
        if counts[k] >= 2 {
            return Some(k);
        }
    }
    None
}
