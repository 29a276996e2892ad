//! Instantiates templates: the constructs of each scope append their cells and note what they drive.
//!
//! The cells of a construct come after those of the constructs before it, so the place of each cell follows from counts
//! alone.

ghost use Rattle.std.specs.Prelude.{◌≡◌, ◌<◌, All, length, Some, slice_get, OnOk};
ghost use Rattle.std.specs.List.{fold};
ghost use Rattle.bb_blast.specs.Inside.Listing.{IsPartAmong, IsScopeAmong, cell_list_view, with_part, inner_first};
ghost use Rattle.bb_blast.specs.Inside.Listing.{with_parts, with_scope};

use crate::cell_list::{CellListLists, put_assignment, put_gate, put_output, put_register};
use crate::logic_cells::{Spot, constant_place};
use crate::placed::Placed;
use crate::sources::{Layout, after, give_all};
use crate::template::{ModuleTemplate, Part};
use bb_bits::NoMemory;

fn inner_first(placed: &[Placed], scope: &Placed, instance: u32) -> u32
    requires instance { instance < length scope.now.children.items }
    requires children { All (λ c. c < length placed.now) scope.now.children.items }
    ensures first { result ≡ inner_first placed.now scope.now instance }
{
    placed[scope.children[instance as usize] as usize].first
}

/// All scopes of a module share its template.
pub fn template_of<'a>(templates: &'a [ModuleTemplate], scope: &Placed) -> &'a ModuleTemplate
    requires there { scope.now.module < length templates.now }
    ensures template { slice_get templates.now scope.now.module ≡ Some result.now }
{
    &templates[scope.module]
}

fn add_part(
    layout: Layout,
    placed: &[Placed],
    scope: &Placed,
    starts: &[u32],
    part: &Part,
    cell_list: &mut CellListLists,
) -> Result<(), NoMemory>
    requires part { IsPartAmong (length starts.now) (length scope.now.children.items) part.now }
    requires children { All (λ c. c < length placed.now) scope.now.children.items }
    ensures added { OnOk result (cell_list_view cell_list.new
        ≡ with_part layout.nets layout.others
        (record { first = scope.now.first; starts = starts.now; inner = inner_first placed.now scope.now })
        (cell_list_view cell_list.old) part.now) }
{
    let first = scope.first;
    let spot = Spot {
        others: layout.others,
        bits: after(layout.nets, first),
        starts,
    };
    match part {
        Part::Assignment { left, right } => put_assignment(spot, first, left, right, cell_list),
        Part::Gate { gate, outs, ins } => put_gate(spot, first, gate, outs, ins, cell_list),
        Part::Register { left, right, .. } => put_register(spot, first, left, right, cell_list),
        Part::Supply { high, bits } => {
            give_all(&mut cell_list.sources, first, bits, constant_place(*high));
            Ok(())
        }
        Part::Input {
            instance,
            pin,
            value,
        } => {
            let inner = inner_first(placed, scope, *instance);
            put_assignment(spot, inner, pin, value, cell_list)
        }
        Part::Output {
            instance,
            pin,
            left,
        } => {
            let inner = after(layout.nets, inner_first(placed, scope, *instance));
            put_output(inner, first, pin, left, cell_list)
        }
    }
}

fn add_parts(
    layout: Layout,
    placed: &[Placed],
    scope: &Placed,
    template: &ModuleTemplate,
    cell_list: &mut CellListLists,
) -> Result<(), NoMemory>
    requires parts { All (IsPartAmong (length template.now.starts.items) (length scope.now.children.items))
        template.now.parts.items }
    requires children { All (λ c. c < length placed.now) scope.now.children.items }
    ensures added { OnOk result (cell_list_view cell_list.new
        ≡ with_parts layout.nets layout.others placed.now scope.now (cell_list_view cell_list.old)
        (Some template.now)) }
{
    for part in &template.parts {
        add_part(layout, placed, scope, &template.starts, part, cell_list)?;
    }
    Ok(())
}

// A box has no constructs; its pins are listed before (`box_cells`).
fn add_scope(
    layout: Layout,
    placed: &[Placed],
    templates: &[ModuleTemplate],
    scope: &Placed,
    cell_list: &mut CellListLists,
) -> Result<(), NoMemory>
    requires scope { IsScopeAmong placed.now templates.now scope.now }
    ensures added { OnOk result (cell_list_view cell_list.new
        ≡ with_scope layout.nets layout.others placed.now templates.now (cell_list_view cell_list.old) scope.now) }
{
    if scope.boxed {
        return Ok(());
    }
    let template = template_of(templates, scope);
    add_parts(layout, placed, scope, template, cell_list)
}

/// In elaboration order.
pub(crate) fn add_scopes(
    layout: Layout,
    placed: &[Placed],
    templates: &[ModuleTemplate],
    cell_list: &mut CellListLists,
) -> Result<(), NoMemory>
    requires scopes { All (IsScopeAmong placed.now templates.now) placed.now }
    ensures added { OnOk result (cell_list_view cell_list.new
        ≡ fold (with_scope layout.nets layout.others placed.now templates.now) (cell_list_view cell_list.old)
        placed.now) }
{
    for scope in placed {
        add_scope(layout, placed, templates, scope, cell_list)?;
    }
    Ok(())
}
