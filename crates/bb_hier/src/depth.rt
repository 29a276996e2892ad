//! Instances that are too deep.
//!
//! Heights of modules are found in rounds over the lists of callees: after 64 rounds a height of 64 means 64 levels or
//! more. So the time goes by the text and not by the scopes, of which a text can have exponentially many. Then one walk
//! down, by the first instance that is tall enough at each level, leads to the first instance in elaboration order that
//! is too deep.

ghost use Rattle.std.specs.Prelude.{◌≡◌, ◌+◌, ◌<◌, ◌≤◌, ◌++◌, ◌==◌, [], false, true, ℕ, All, Some, codes, length, map};
ghost use Rattle.std.specs.Prelude.{nat_le, slice_get, if◌then◌else◌, IfOk, IfSome, IfNone, OnOk};
ghost use Rattle.std.specs.List.{flat_map, list_any, slice_index_or};
ghost use Rattle.bb_ast.specs.Syntax.{PlainModule};
ghost use Rattle.bb_ast.specs.Inside.Views.{body_view, item_view};
ghost use Rattle.bb_names.specs.Inside.Checked.{syntax};
ghost use Rattle.bb_design.specs.Inside.Callees.{callees};
ghost use Rattle.bb_hier.specs.Inside.Depths.{height_over, is_tall};
ghost use Rattle.bb_design.specs.Hierarchy.{instances_in};
ghost use Rattle.bb_design.specs.Refusals.{IsReportedOfDesign, IsAbsentInDesign, Depth, design_on};

use bb_ast::{Body, Call, Item};
use bb_bits::{Name, NoMemory};
use bb_design::laws::laws_of_designs;
use bb_names::Checked;
use std::alloc::Global;

// 0 of a module without instances.
fn height_over(called: &[usize], heights: &[u8]) -> u8
    requires there { All (λ k. k < length heights.now) called.now }
    requires low { All (λ h. h < 64) heights.now }
    ensures height { result ≡ height_over (λ k. slice_index_or heights.now k 0) called.now }
{
    let mut height = 0u8;
    for k in called {
        height = height.max(heights[*k] + 1);
    }
    height
}

fn next_heights(alloc: Global, callees: &[Vec<usize>], heights: &[u8]) -> Result<Vec<u8>, NoMemory>
    requires there { All (All (λ k. k < length heights.now)) (map (λ list. list.items) callees.now) }
    requires low { All (λ h. h < 64) heights.now }
    ensures next { IfOk result (λ next.
        next.items ≡ map (height_over (λ k. slice_index_or heights.now k 0)) (map (λ list. list.items) callees.now)) }
{
    let mut next = Vec::with_capacity(alloc, callees.len())?;
    for called in callees {
        next.push(height_over(called, heights))?;
    }
    Ok(next)
}

// 64 means 64 or more; a height below it is exact.
fn heights_of(alloc: Global, callees: &[Vec<usize>]) -> Result<Vec<u8>, NoMemory>
    requires there { All (All (λ k. k < length callees.now)) (map (λ list. list.items) callees.now) }
    ensures long { IfOk result (λ heights. length heights.items ≡ length callees.now) }
    ensures tall { IfOk result (λ heights. (k n : ℕ) → n ≤ 64
        → nat_le n (slice_index_or heights.items k 0) ≡ is_tall (map (λ list. list.items) callees.now) n k) }
{
    let mut heights = vec![in alloc; 0u8; callees.len()]?;
    for _round in 0..64u8 {
        heights = next_heights(alloc, callees, &heights)?;
    }
    Ok(heights)
}

// Requires that one is tall enough, so the last needs no look.
fn first_tall(called: &[usize], heights: &[u8], least: u8) -> usize
    requires there { All (λ k. k < length heights.now) called.now }
    requires some { list_any (λ k. nat_le least (slice_index_or heights.now k 0)) called.now ≡ true }
    ensures within { result < length called.now }
    ensures tall { nat_le least (slice_index_or heights.now (slice_index_or called.now result 0) 0) ≡ true }
    ensures first { (j : ℕ) → j < result
        → nat_le least (slice_index_or heights.now (slice_index_or called.now j 0) 0) ≡ false }
{
    let mut k = 0;
    while k + 1 < called.len() && heights[called[k]] < least {
        k += 1;
    }
    k
}

/// Empty for an item that has no instances.
pub(crate) fn calls_in(item: &Item) -> &[Call]
    ensures names { map (λ i. i.name) (instances_in (body_view item.now.body)) ≡ map (λ call. call.name) result.now }
{
    match &item.body {
        Body::Calls(_, calls) => calls,
        _ => &[],
    }
}

// `place` counts the instances through all items.
fn add_name(path: &mut Vec<u8>, items: &[Item], place: usize) -> Result<(), NoMemory>
    ensures ok { OnOk result (IfSome
        (slice_get (flat_map (λ item. instances_in item.body) (map item_view items.now)) place)
        (λ i. path.new.items ≡ path.old.items ++ i.name)) }
{
    let mut left = place;
    for item in items {
        let calls = calls_in(item);
        if left < calls.len() {
            path.extend_from_slice(calls[left].name.bytes())?;
            return Ok(());
        }
        left -= calls.len();
    }
    Ok(())
}

fn add_dot(path: &mut Vec<u8>, level: u8) -> Result<(), NoMemory>
    ensures ok { OnOk result (path.new.items ≡ path.old.items ++ (if level == 0 then [] else codes ".")) }
{
    if level > 0 {
        path.push(b'.')?;
    }
    Ok(())
}

// Some instance 64 levels down exists; at each level the first instance with enough height below it is taken.
fn first_low(
    alloc: Global,
    checked: &Checked,
    called: &[Vec<usize>],
    heights: &[u8],
    top: usize,
) -> Result<Name, NoMemory>
    requires called { map (λ list. list.items) called.now
        ≡ map (callees (map syntax checked.now)) (map syntax checked.now) }
    requires long { length heights.now ≡ length called.now }
    requires tall { (k n : ℕ) → n ≤ 64
        → nat_le n (slice_index_or heights.now k 0) ≡ is_tall (map (λ list. list.items) called.now) n k }
    requires top { top < length checked.now }
    requires low { nat_le 64 (slice_index_or heights.now top 0) ≡ true }
    ensures reported { IfOk result (λ n. (t : PlainModule) → slice_get (map syntax checked.now) top ≡ Some t
        → IsReportedOfDesign (design_on (map syntax checked.now) t) Depth n) }
{
    laws_of_designs();
    let modules = checked.modules();
    let mut path = Vec::new(alloc);
    let mut place = top;
    for level in 0..64u8 {
        let next = first_tall(&called[place], heights, 63 - level);
        add_dot(&mut path, level)?;
        add_name(&mut path, &modules[place].module.items, next)?;
        place = called[place][next];
    }
    Name::of(alloc, &path)
}

/// The path of the first in elaboration order, if there is one.
pub(crate) fn low_instance(
    alloc: Global,
    checked: &Checked,
    called: &[Vec<usize>],
    top: usize,
) -> Result<Option<Name>, NoMemory>
    requires called { map (λ list. list.items) called.now
        ≡ map (callees (map syntax checked.now)) (map syntax checked.now) }
    requires top { top < length checked.now }
    ensures some { IfOk result (λ found. IfSome found (λ n. (t : PlainModule)
        → slice_get (map syntax checked.now) top ≡ Some t
        → IsReportedOfDesign (design_on (map syntax checked.now) t) Depth n)) }
    ensures none { IfOk result (λ found. IfNone found ((t : PlainModule)
        → slice_get (map syntax checked.now) top ≡ Some t
        → IsAbsentInDesign (design_on (map syntax checked.now) t) Depth)) }
{
    laws_of_designs();
    // Gives the proof that checked modules have no faults.
    let _modules = checked.modules();
    let heights = heights_of(alloc, called)?;
    if heights[top] < 64 {
        return Ok(None);
    }
    Ok(Some(first_low(alloc, checked, called, &heights, top)?))
}
