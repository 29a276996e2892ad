//! How many bits of a module are registers.
//!
//! A bit may be stored to at several places, which is a fault found later, and counts once. So bits are marked, net by
//! net; a net to which nothing stores takes no room.

ghost use Rattle.std.specs.Prelude.{◌≡◌, ◌⊎◌, ◌+◌, ◌<◌, ◌≤◌, ◌&&◌, ◌||◌, ◌++◌, [], false, true, ℕ, Bool, List, map};
ghost use Rattle.std.specs.Prelude.{length, filter, replicate, nat_le, nat_lt, sum_by, IfOk, OnOk, slice_index_or};
ghost use Rattle.std.specs.List.{flat_map};
ghost use Rattle.std.specs.Map.{lookup};
ghost use Rattle.bb_bits.specs.Names.{same_name};
ghost use Rattle.bb_ast.specs.Inside.Views.{expression, body_view, item_view};
ghost use Rattle.bb_names.specs.Inside.Checked.{module_facts, syntax, HasNets};
ghost use Rattle.bb_names.specs.Ranges.{range_width, place_of};
ghost use Rattle.bb_expr.specs.Inside.Shares.{capped};
ghost use Rattle.bb_design.specs.NetBits.{Bit, written_bits};
ghost use Rattle.bb_hier.specs.Inside.Weights.{any_scope, is_among, named_bits, stored_by, register_count, AreMarks};

use bb_ast::{Body, Expr, Item, Range};
use bb_bits::{Name, NoMemory};
use bb_expr::laws::net_names_differ;
use bb_names::CheckedModule;
use std::alloc::Global;

/// 1 without a range.
pub(crate) fn width_of(range: Option<Range>) -> usize
    ensures width { result ≡ range_width range }
{
    match range {
        Some(range) => range.left.abs_diff(range.right) as usize + 1,
        None => 1,
    }
}

// Counted from the leftmost bit, in ranges of either direction.
fn first_place(range: Option<Range>, index: u32) -> usize
    ensures place { result ≡ place_of range index }
{
    match range {
        Some(range) => range.left.abs_diff(index) as usize,
        None => 0,
    }
}

// Only at the first mark of the net.
fn make_room(alloc: Global, marks: &mut Vec<bool>, width: usize) -> Result<(), NoMemory>
    requires whole { (length marks.old.items ≡ 0) ⊎ (length marks.old.items ≡ width) }
    ensures whole { OnOk result (length marks.new.items ≡ width) }
    ensures same { OnOk result ((p : ℕ)
        → slice_index_or marks.new.items p false ≡ slice_index_or marks.old.items p false) }
{
    if marks.is_empty() {
        *marks = vec![in alloc; false; width]?;
    }
    Ok(())
}

fn mark_from(marks: &mut [bool], first: usize, end: usize)
    requires end { end ≤ length marks.old }
    ensures long { length marks.new ≡ length marks.old }
    ensures marked { (p : ℕ)
        → slice_index_or marks.new p false ≡ (slice_index_or marks.old p false || (nat_le first p && nat_lt p end)) }
{
    for p in first..end {
        marks[p] = true;
    }
}

// `part` has the indices of a select, left one first; None means all bits.
fn mark_net(
    alloc: Global,
    marks: &mut Vec<bool>,
    range: Option<Range>,
    part: Option<(u32, u32)>,
) -> Result<(), NoMemory>
    requires whole { (length marks.old.items ≡ 0) ⊎ (length marks.old.items ≡ range_width range) }
    ensures whole { OnOk result (length marks.new.items ≡ range_width range) }
    ensures marked { OnOk result ((p : ℕ) → p < range_width range → slice_index_or marks.new.items p false
        ≡ (slice_index_or marks.old.items p false || is_among range part p)) }
{
    let width = width_of(range);
    make_room(alloc, marks, width)?;
    match part {
        Some((left, right)) => {
            let first = first_place(range, left);
            let end = first + left.abs_diff(right) as usize + 1;
            mark_from(marks, first, end.min(width));
        }
        None => mark_from(marks, 0, width),
    }
    Ok(())
}

fn place_of(scope: &CheckedModule, name: &Name) -> Option<u32>
    ensures place { result ≡ lookup (same_name name.now) scope.now.index.entries }
{
    scope.index.get(name).copied()
}

fn mark_named(
    alloc: Global,
    scope: &CheckedModule,
    marks: &mut [Vec<bool>],
    name: &Name,
    part: Option<(u32, u32)>,
) -> Result<(), NoMemory>
    requires nets { HasNets (module_facts scope.now) }
    requires marks { (bits : List Bit) × AreMarks scope.now.nets.items (map (λ row. row.items) marks.old) bits }
    ensures marks { (bits : List Bit) → AreMarks scope.now.nets.items (map (λ row. row.items) marks.old) bits
        → OnOk result (AreMarks scope.now.nets.items (map (λ row. row.items) marks.new) (bits
        ++ named_bits (syntax (module_facts scope.now)) name.now part)) }
{
    net_names_differ();
    let Some(place) = place_of(scope, name) else {
        return Ok(());
    };
    let place = place as usize;
    mark_net(alloc, &mut marks[place], scope.nets[place].range, part)?;
    Ok(())
}

/// Recursion goes as deep as concatenations nest.
#[cycle(marking)]
fn mark_written(
    alloc: Global,
    scope: &CheckedModule,
    marks: &mut [Vec<bool>],
    expr: &Expr,
) -> Result<(), NoMemory>
    requires nets { HasNets (module_facts scope.now) }
    requires marks { (bits : List Bit) × AreMarks scope.now.nets.items (map (λ row. row.items) marks.old) bits }
    ensures marks { (bits : List Bit) → AreMarks scope.now.nets.items (map (λ row. row.items) marks.old) bits
        → OnOk result (AreMarks scope.now.nets.items (map (λ row. row.items) marks.new) (bits
        ++ written_bits (any_scope (syntax (module_facts scope.now))) (expression expr.now))) }
{
    match expr {
        Expr::Net(name) => mark_named(alloc, scope, marks, name, None),
        Expr::Bit(name, index) => mark_named(alloc, scope, marks, name, Some((*index, *index))),
        Expr::Part(name, left, right) => {
            mark_named(alloc, scope, marks, name, Some((*left, *right)))
        }
        Expr::Concat(all) => mark_all(alloc, scope, marks, all),
        _ => Ok(()),
    }
}

#[cycle(marking)]
fn mark_all(
    alloc: Global,
    scope: &CheckedModule,
    marks: &mut [Vec<bool>],
    all: &[Expr],
) -> Result<(), NoMemory>
    requires nets { HasNets (module_facts scope.now) }
    requires marks { (bits : List Bit) × AreMarks scope.now.nets.items (map (λ row. row.items) marks.old) bits }
    ensures marks { (bits : List Bit) → AreMarks scope.now.nets.items (map (λ row. row.items) marks.old) bits
        → OnOk result (AreMarks scope.now.nets.items (map (λ row. row.items) marks.new) (bits
        ++ flat_map (written_bits (any_scope (syntax (module_facts scope.now)))) (map expression all.now))) }
{
    for part in all {
        mark_written(alloc, scope, marks, part)?;
    }
    Ok(())
}

fn mark_item(
    alloc: Global,
    scope: &CheckedModule,
    marks: &mut [Vec<bool>],
    body: &Body,
) -> Result<(), NoMemory>
    requires nets { HasNets (module_facts scope.now) }
    requires marks { (bits : List Bit) × AreMarks scope.now.nets.items (map (λ row. row.items) marks.old) bits }
    ensures marks { (bits : List Bit) → AreMarks scope.now.nets.items (map (λ row. row.items) marks.old) bits
        → OnOk result (AreMarks scope.now.nets.items (map (λ row. row.items) marks.new) (bits
        ++ stored_by (any_scope (syntax (module_facts scope.now))) (body_view body.now))) }
{
    match body {
        Body::Always(register) => mark_written(alloc, scope, marks, &register.left),
        _ => Ok(()),
    }
}

fn mark_items(
    alloc: Global,
    scope: &CheckedModule,
    marks: &mut [Vec<bool>],
    items: &[Item],
) -> Result<(), NoMemory>
    requires nets { HasNets (module_facts scope.now) }
    requires marks { (bits : List Bit) × AreMarks scope.now.nets.items (map (λ row. row.items) marks.old) bits }
    ensures marks { (bits : List Bit) → AreMarks scope.now.nets.items (map (λ row. row.items) marks.old) bits
        → OnOk result (AreMarks scope.now.nets.items (map (λ row. row.items) marks.new) (bits
        ++ flat_map (λ item. stored_by (any_scope (syntax (module_facts scope.now))) item.body)
        (map item_view items.now))) }
{
    for item in items {
        mark_item(alloc, scope, marks, &item.body)?;
    }
    Ok(())
}

fn count_marked(marks: &[bool]) -> u64
    ensures count { result ≡ length (filter (λ mark. mark) marks.now) }
{
    marks.iter().filter(|mark| **mark).count() as u64
}

fn count_all(marks: &[Vec<bool>]) -> u64
    ensures count { result
        ≡ capped (sum_by (λ row. length (filter (λ mark. mark) row)) (map (λ row. row.items) marks.now)) }
{
    let mut total = 0u64;
    for row in marks {
        total = total.saturating_add(count_marked(row));
    }
    total
}

// Empty marks take no memory until a net is stored to.
fn no_marks(alloc: Global, count: usize) -> Result<Vec<Vec<bool>>, NoMemory>
    ensures none { IfOk result (λ marks. map (λ row. row.items) marks.items ≡ replicate count []) }
{
    let mut marks = Vec::with_capacity(alloc, count)?;
    for _net in 0..count {
        marks.push(Vec::new(alloc))?;
    }
    Ok(marks)
}

/// Saturates at 2^64 - 1.
pub(crate) fn registers_in(alloc: Global, scope: &CheckedModule) -> Result<u64, NoMemory>
    requires nets { HasNets (module_facts scope.now) }
    ensures count { IfOk result (λ count. count ≡ capped (register_count (syntax (module_facts scope.now)))) }
{
    let mut marks = no_marks(alloc, scope.nets.len())?;
    mark_items(alloc, scope, &mut marks, &scope.module.items)?;
    Ok(count_all(&marks))
}
