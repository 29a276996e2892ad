//! The unordered list of all cells of a design.
//!
//! Constants and inputs come first, then a buffer for each bit of a net, then the pins of boxes, and then what the
//! constructs make, scope by scope. The places of the first three groups follow from counts, so a construct may read a
//! bit before its driver is met: what drives each bit is noted while the later cells are made, and the buffers are made
//! last.

ghost use Rattle.std.specs.Prelude.{All, ◌≡◌, ◌<◌, None, length, replicate, IfOk};
ghost use Rattle.bb_blast.specs.Inside.Counting.{capped};
ghost use Rattle.bb_blast.specs.Inside.Listing.{IsScopeAmong, cell_list_view, boxed_view, first_sources, input_numbers};
ghost use Rattle.bb_blast.specs.Inside.Listing.{bit_count, boxed_in, cells_before, outs_of, finished, listed};
ghost use Rattle.bb_design.specs.Hierarchy.{Design};
ghost use Rattle.bb_design.specs.Inside.Allowed.{IsBounded};
ghost use Rattle.bb_blast.specs.Inside.Placements.{ArePlaced, AreTemplated, AreStored};
ghost use Rattle.bb_implements.specs.Places.{Lowering, IsLowering, IsListOf};
ghost use Rattle.bb_design.specs.Refusals.{AreDrivenOnce};

use crate::box_cells::{BoxedLists, add_boxes, moved};
use crate::cell_list::CellListLists;
use crate::part_cells::{add_scopes, template_of};
use crate::placed::Placed;
use crate::sources::{Layout, after, count_of, give_in_row, place_or_zero};
use crate::stored::Stored;
use crate::template::ModuleTemplate;
use bb_bits::NoMemory;
use bb_design::laws::laws_of_designs;
use bb_expr::laws::net_names_differ;
use bb_implements::list_laws::places_are_few;
use bb_net::{BoxPins, Loose, LooseCell};
use std::alloc::Global;

fn bit_count(placed: &[Placed], templates: &[ModuleTemplate]) -> u32
    requires there { All (λ p. p.module < length templates.now) placed.now }
    ensures count { result ≡ capped (bit_count placed.now templates.now) }
{
    let mut count = 0;
    for scope in placed {
        count = after(count, template_of(templates, scope).bits);
    }
    count
}

// The input ports of the top, and then the present states of the registers.
fn input_numbers(
    alloc: Global,
    top: &ModuleTemplate,
    stored: &[Stored],
) -> Result<Vec<u32>, NoMemory>
    ensures numbers { IfOk result (λ numbers. numbers.items ≡ input_numbers top.now stored.now) }
{
    let mut numbers = Vec::with_capacity(alloc, top.inputs.len())?;
    numbers.extend_from_slice(&top.inputs)?;
    for register in stored {
        numbers.push(register.bit)?;
    }
    Ok(numbers)
}

// The inputs come right after the two constants.
fn first_sources(alloc: Global, bits: u32, inputs: &[u32]) -> Result<Vec<Option<u32>>, NoMemory>
    ensures sources { IfOk result (λ sources. sources.items ≡ first_sources bits inputs.now) }
{
    let mut sources = vec![in alloc; None; bits as usize]?;
    give_in_row(&mut sources, 0, inputs, 2);
    Ok(sources)
}

// A bit without a driver buffers the constant 0.
#[tactic(auto, using(crate::proofs::ListingLoops::rows_grow))]
fn cells_before(
    alloc: Global,
    inputs: u32,
    sources: &[Option<u32>],
) -> Result<Vec<LooseCell>, NoMemory>
    ensures cells { IfOk result (λ cells. cells.items ≡ cells_before inputs sources.now) }
{
    let mut cells = Vec::with_capacity(alloc, sources.len())?;
    cells.push(LooseCell::Const(false))?;
    cells.push(LooseCell::Const(true))?;
    for input in 0..inputs {
        cells.push(LooseCell::Input(input))?;
    }
    for source in sources {
        cells.push(LooseCell::Copy(source.unwrap_or(0)))?;
    }
    Ok(cells)
}

// The output ports of the top, and then the next states, in the order in which the present states are inputs.
fn outs_of(
    alloc: Global,
    nets: u32,
    top: &ModuleTemplate,
    stored: &[Stored],
    next: &[Option<u32>],
) -> Result<Vec<u32>, NoMemory>
    ensures outs { IfOk result (λ outs. outs.items ≡ outs_of nets top.now stored.now next.now) }
{
    let mut outs = moved(alloc, nets, &top.outputs)?;
    for register in stored {
        outs.push(place_or_zero(next, register.bit))?;
    }
    Ok(outs)
}

fn boxed_in(
    alloc: Global,
    layout: Layout,
    sources: Vec<Option<u32>>,
    placed: &[Placed],
    templates: &[ModuleTemplate],
) -> Result<BoxedLists, NoMemory>
    requires there { All (λ p. p.module < length templates.now) placed.now }
    ensures boxed { IfOk result (λ boxed.
        boxed_view boxed ≡ boxed_in layout.nets layout.others placed.now templates.now sources.items) }
{
    let mut boxed = BoxedLists {
        cells: Vec::new(alloc),
        sources,
        boxes: Vec::new(alloc),
    };
    add_boxes(alloc, layout, placed, templates, &mut boxed)?;
    Ok(boxed)
}

fn begun(
    alloc: Global,
    bits: u32,
    cells: Vec<LooseCell>,
    sources: Vec<Option<u32>>,
) -> Result<CellListLists, NoMemory>
    ensures cell_list { IfOk result (λ cell_list. cell_list_view cell_list
        ≡ record { cells = cells.items; sources = sources.items; next = replicate bits None }) }
{
    let next = vec![in alloc; None; bits as usize]?;
    Ok(CellListLists {
        cells,
        sources,
        next,
        places: Vec::new(alloc),
    })
}

fn finished(
    alloc: Global,
    inputs: u32,
    boxes: Vec<BoxPins>,
    cell_list: &CellListLists,
    outs: Vec<u32>,
) -> Result<Loose, NoMemory>
    ensures list { IfOk result (λ l. l ≡ finished inputs boxes.items (cell_list_view cell_list.now) outs.items) }
{
    let mut cells = cells_before(alloc, inputs, &cell_list.sources)?;
    cells.extend_from_slice(&cell_list.cells)?;
    Ok(Loose::of(inputs, cells, boxes, outs))
}

fn listed(
    alloc: Global,
    placed: &[Placed],
    templates: &[ModuleTemplate],
    stored: &[Stored],
    top: &ModuleTemplate,
) -> Result<Loose, NoMemory>
    requires there { All (λ p. p.module < length templates.now) placed.now }
    requires scopes { All (IsScopeAmong placed.now templates.now) placed.now }
    ensures list { IfOk result (λ l. l ≡ listed placed.now templates.now stored.now top.now) }
{
    let inputs = input_numbers(alloc, top, stored)?;
    let count = count_of(&inputs);
    let bits = bit_count(placed, templates);
    let nets = after(2, count);
    let layout = Layout {
        nets,
        others: after(nets, bits),
    };
    let sources = first_sources(alloc, bits, &inputs)?;
    let BoxedLists {
        cells,
        sources,
        boxes,
    } = boxed_in(alloc, layout, sources, placed, templates)?;
    let mut cell_list = begun(alloc, bits, cells, sources)?;
    add_scopes(layout, placed, templates, &mut cell_list)?;
    let outs = outs_of(alloc, nets, top, stored, &cell_list.next)?;
    finished(alloc, count, boxes, &cell_list, outs)
}

/// Loops and bits without a driver are still in the list; both are looked for in it afterwards, as it has every
/// dependence.
pub fn list_cells(
    alloc: Global,
    placed: &[Placed],
    templates: &[ModuleTemplate],
    stored: &[Stored],
) -> Result<Loose, NoMemory>
    requires design { (d : Design) × ArePlaced d placed.now × AreTemplated d placed.now templates.now
        × AreStored d stored.now × IsBounded d × AreDrivenOnce d }
    ensures list { IfOk result (λ l. (d : Design) → ArePlaced d placed.now → AreTemplated d placed.now templates.now
        → AreStored d stored.now → IsBounded d → AreDrivenOnce d
        → (lowering : Lowering) × IsLowering d lowering × IsListOf d lowering l) }
{
    laws_of_designs();
    net_names_differ();
    places_are_few();
    let top = template_of(templates, &placed[0]);
    let list = listed(alloc, placed, templates, stored, top)?;
    Ok(list)
}
