//! Black boxes: a cell for each output pin, and the places of their pins.
//!
//! Here boxes come in elaboration order; `bb_net::order` numbers them anew by dependence.

ghost use Rattle.std.specs.Prelude.{◌<◌, All, ◌≡◌, ◌+◌, ◌^◌, ◌++◌, length, map, Some, IfOk, OnOk};
ghost use Rattle.std.specs.List.{fold, range_with_len};
ghost use Rattle.bb_net.specs.declared.loose.LooseCell.TheVariants as cell;
ghost use Rattle.bb_blast.specs.Inside.Counting.{capped, after};
ghost use Rattle.bb_blast.specs.Inside.Listing.{boxed_view, with_pins, with_box};

use crate::part_cells::template_of;
use crate::placed::Placed;
use crate::sources::{Layout, after, count_of, give_in_row, next_place};
use crate::template::ModuleTemplate;
use bb_bits::NoMemory;
use bb_net::{BoxPins, LooseCell};
use std::alloc::Global;

/// `sources` has the place that drives each bit, by its number in net order.
#[derive(Debug, Drop)]
pub(crate) struct BoxedLists {
    pub cells: Vec<LooseCell>,
    pub sources: Vec<Option<u32>>,
    pub boxes: Vec<BoxPins>,
}

#[tactic(auto, using(crate::proofs::ListingLoops::rows_grow))]
fn row(alloc: Global, base: u32, count: u32) -> Result<Vec<u32>, NoMemory>
    ensures row { IfOk result (λ row. row.items ≡ map (after base) (range_with_len 0 count)) }
{
    let mut row = Vec::with_capacity(alloc, count as usize)?;
    for k in 0..count {
        row.push(after(base, k))?;
    }
    Ok(row)
}

/// Sums saturate at 2^32 - 1.
pub(crate) fn add_moved(base: u32, numbers: &[u32], places: &mut Vec<u32>) -> Result<(), NoMemory>
    ensures added { OnOk result (places.new.items ≡ places.old.items ++ map (after base) numbers.now) }
{
    for number in numbers {
        places.push(after(base, *number))?;
    }
    Ok(())
}

/// Adds `base` to each number; sums saturate at 2^32 - 1.
pub fn moved(alloc: Global, base: u32, numbers: &[u32]) -> Result<Vec<u32>, NoMemory>
    ensures moved { IfOk result (λ places. places.items ≡ map (after base) numbers.now) }
    ensures small { All (λ i. base + i < 2 ^ 32) numbers.now → IfOk result (λ places. places.items
        ≡ map (λ i. base + i) numbers.now) }
{
    let mut places = Vec::with_capacity(alloc, numbers.len())?;
    add_moved(base, numbers, &mut places)?;
    Ok(places)
}

#[tactic(auto, using(crate::proofs::ListingLoops::rows_grow))]
fn add_outputs(b: u32, count: u32, cells: &mut Vec<LooseCell>) -> Result<(), NoMemory>
    ensures added { OnOk result (cells.new.items ≡ cells.old.items ++ map (cell.BoxOut b) (range_with_len 0 count)) }
{
    for pin in 0..count {
        cells.push(LooseCell::BoxOut(b, pin))?;
    }
    Ok(())
}

// Input pins read the buffers of the port's bits; output pins are consecutive places from `base` on.
fn pins_of(
    alloc: Global,
    bits: u32,
    base: u32,
    template: &ModuleTemplate,
) -> Result<BoxPins, NoMemory>
    ensures pins { IfOk result (λ pins. pins
        ≡ record {
          ins = map (after bits) template.now.inputs.items;
          outs = map (after base) (range_with_len 0 (capped (length template.now.outputs.items)));
        }) }
{
    let ins = moved(alloc, bits, &template.inputs)?;
    let outs = row(alloc, base, count_of(&template.outputs))?;
    Ok(BoxPins::of(ins, outs))
}

fn add_pins(
    alloc: Global,
    layout: Layout,
    first: u32,
    template: &ModuleTemplate,
    boxed: &mut BoxedLists,
) -> Result<(), NoMemory>
    ensures added { OnOk result (boxed_view boxed.new
        ≡ with_pins layout.nets layout.others first (boxed_view boxed.old) (Some template.now)) }
{
    let base = next_place(layout.others, &boxed.cells);
    let b = count_of(&boxed.boxes);
    let pins = pins_of(alloc, after(layout.nets, first), base, template)?;
    add_outputs(b, count_of(&template.outputs), &mut boxed.cells)?;
    give_in_row(&mut boxed.sources, first, &template.outputs, base);
    boxed.boxes.push(pins)?;
    Ok(())
}

fn add_box(
    alloc: Global,
    layout: Layout,
    templates: &[ModuleTemplate],
    scope: &Placed,
    boxed: &mut BoxedLists,
) -> Result<(), NoMemory>
    requires there { scope.now.module < length templates.now }
    ensures added { OnOk result (boxed_view boxed.new
        ≡ with_box layout.nets layout.others templates.now (boxed_view boxed.old) scope.now) }
{
    if !scope.boxed {
        return Ok(());
    }
    let template = template_of(templates, scope);
    add_pins(alloc, layout, scope.first, template, boxed)
}

pub(crate) fn add_boxes(
    alloc: Global,
    layout: Layout,
    placed: &[Placed],
    templates: &[ModuleTemplate],
    boxed: &mut BoxedLists,
) -> Result<(), NoMemory>
    requires there { All (λ p. p.module < length templates.now) placed.now }
    ensures added { OnOk result (boxed_view boxed.new
        ≡ fold (with_box layout.nets layout.others templates.now) (boxed_view boxed.old) placed.now) }
{
    for scope in placed {
        add_box(alloc, layout, templates, scope, boxed)?;
    }
    Ok(())
}
