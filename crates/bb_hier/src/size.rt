//! Whether a design is too large, found without building a scope.
//!
//! What one scope adds is counted once a module. Rounds over the lists of callees then sum up what all instances below
//! a module add, so the time goes by the text even where the scopes are exponentially many. Sums saturate at 2^64 - 1.

ghost use Rattle.std.specs.Prelude.{◌≡◌, ◌+◌, ◌<◌, ◌≤◌, [], false, true, ℕ, All, Some, filter, if◌then◌else◌, length};
ghost use Rattle.std.specs.Prelude.{map, nat_lt, slice_get, slice_index_or, sum_by, IfOk};
ghost use Rattle.bb_ast.specs.Syntax.{PlainModule};
ghost use Rattle.bb_names.specs.Inside.Checked.{syntax};
ghost use Rattle.bb_expr.specs.Inside.Shares.{capped};
ghost use Rattle.bb_design.specs.Inside.Callees.{callees};
ghost use Rattle.bb_design.specs.Refusals.{IsReportedOfDesign, IsAbsentInDesign, Size, design_on, most_bits};
ghost use Rattle.bb_design.specs.Refusals.{most_cells};
ghost use Rattle.bb_design.specs.Sizes.{cells_in, bits_and_instances};
ghost use Rattle.bb_hier.specs.Inside.Weights.{bit_count, construct_cells, instance_cells, is_input_net, is_output_net};
ghost use Rattle.bb_hier.specs.Inside.Weights.{net_width, total_below};

use crate::cells::items_cells;
use crate::register_bits::{registers_in, width_of};
use bb_ast::Dir;
use bb_bits::NoMemory;
use bb_design::laws::laws_of_designs;
use bb_expr::laws::{
    assignable_is_nets, cells_are_counted, made_has_value, net_names_differ, values_have_width,
};
use bb_names::{Checked, NetInfo};
use std::alloc::Global;

// The most bits of nets and instances together.
const MOST_BITS: u64 = 1_000_000;

const MOST_CELLS: u64 = 2_000_000;

fn net_bits(nets: &[NetInfo]) -> u64
    ensures bits { result ≡ capped (sum_by net_width nets.now) }
{
    let mut total = 0u64;
    for net in nets {
        total = total.saturating_add(width_of(net.range) as u64);
    }
    total
}

fn port_width(net: &NetInfo, inputs: bool) -> u64
    ensures width { result
        ≡ (if (if inputs then is_input_net net.now else is_output_net net.now) then net_width net.now else 0) }
{
    match net.port {
        Some(Dir::Input) if inputs => width_of(net.range) as u64,
        Some(Dir::Output) if !inputs => width_of(net.range) as u64,
        _ => 0,
    }
}

fn port_bits(nets: &[NetInfo], inputs: bool) -> u64
    ensures bits { result
        ≡ capped
        (sum_by net_width (filter (λ net. if inputs then is_input_net net else is_output_net net) nets.now)) }
{
    let mut total = 0u64;
    for net in nets {
        total = total.saturating_add(port_width(net, inputs));
    }
    total
}

// An instance counts as one bit, so that scopes without nets are bounded too.
fn bit_weights(alloc: Global, checked: &Checked) -> Result<Vec<u64>, NoMemory>
    ensures weights { IfOk result (λ weights.
        weights.items ≡ map (λ m. capped (bit_count m + 1)) (map syntax checked.now)) }
{
    let modules = checked.modules();
    let mut weights = Vec::with_capacity(alloc, modules.len())?;
    for scope in modules {
        weights.push(net_bits(&scope.nets).saturating_add(1))?;
    }
    Ok(weights)
}

fn construct_cells(alloc: Global, checked: &Checked, place: usize) -> Result<u64, NoMemory>
    requires place { place < length checked.now }
    ensures cells { IfOk result (λ cells.
        (m : PlainModule) → slice_get (map syntax checked.now) place ≡ Some m → cells ≡ capped (construct_cells m)) }
{
    laws_of_designs();
    net_names_differ();
    let scope = &checked.modules()[place];
    let operators = items_cells(checked, place as u32, &scope.module.items);
    Ok(operators.saturating_add(registers_in(alloc, scope)?))
}

// Modules with more bits than a design may have are passed over: no instance of them is left when these weights are
// used, and their widths need not be bounded.
fn construct_weights(alloc: Global, checked: &Checked, bits: &[u64]) -> Result<Vec<u64>, NoMemory>
    requires long { length bits.now ≡ length checked.now }
    ensures long { IfOk result (λ weights. length weights.items ≡ length checked.now) }
    ensures each { IfOk result (λ weights. (k : ℕ) (m : PlainModule) → slice_get (map syntax checked.now) k ≡ Some m
        → slice_index_or bits.now k 0 ≤ 1000001 → slice_index_or weights.items k 0 ≡ capped (construct_cells m)) }
{
    let mut weights = Vec::with_capacity(alloc, bits.len())?;
    for place in 0..bits.len() {
        let cells = if bits[place] > MOST_BITS + 1 {
            0
        } else {
            construct_cells(alloc, checked, place)?
        };
        weights.push(cells)?;
    }
    Ok(weights)
}

// A box has a cell for each bit of its output ports, and no constructs.
fn instance_cells(checked: &Checked, place: usize, constructs: u64) -> u64
    requires place { place < length checked.now }
    ensures cells { (m : PlainModule) → slice_get (map syntax checked.now) place ≡ Some m
        → constructs ≡ capped (construct_cells m) → result ≡ capped (instance_cells m) }
{
    let scope = &checked.modules()[place];
    if scope.empty {
        return port_bits(&scope.nets, false);
    }
    constructs
}

fn instance_weights(
    alloc: Global,
    checked: &Checked,
    constructs: &[u64],
) -> Result<Vec<u64>, NoMemory>
    requires long { length constructs.now ≡ length checked.now }
    ensures long { IfOk result (λ weights. length weights.items ≡ length checked.now) }
    ensures each { IfOk result (λ weights. (k : ℕ) (m : PlainModule) → slice_get (map syntax checked.now) k ≡ Some m
        → slice_index_or constructs.now k 0 ≡ capped (construct_cells m)
        → slice_index_or weights.items k 0 ≡ capped (instance_cells m)) }
{
    let mut weights = Vec::with_capacity(alloc, constructs.len())?;
    for place in 0..constructs.len() {
        weights.push(instance_cells(checked, place, constructs[place]))?;
    }
    Ok(weights)
}

fn total_of(called: &[usize], own: &[u64], totals: &[u64]) -> u64
    requires own { All (λ k. k < length own.now) called.now }
    requires totals { All (λ k. k < length totals.now) called.now }
    ensures total { result
        ≡ capped (sum_by (λ k. slice_index_or own.now k 0 + slice_index_or totals.now k 0) called.now) }
{
    let mut total = 0u64;
    for k in called {
        total = total.saturating_add(own[*k].saturating_add(totals[*k]));
    }
    total
}

fn next_totals(
    alloc: Global,
    callees: &[Vec<usize>],
    own: &[u64],
    totals: &[u64],
) -> Result<Vec<u64>, NoMemory>
    requires own { All (All (λ k. k < length own.now)) (map (λ list. list.items) callees.now) }
    requires totals { All (All (λ k. k < length totals.now)) (map (λ list. list.items) callees.now) }
    ensures next { IfOk result (λ next. next.items
        ≡ map (λ called. capped (sum_by (λ k. slice_index_or own.now k 0 + slice_index_or totals.now k 0) called))
        (map (λ list. list.items) callees.now)) }
{
    let mut next = Vec::with_capacity(alloc, callees.len())?;
    for called in callees {
        next.push(total_of(called, own, totals))?;
    }
    Ok(next)
}

// After `n` rounds `n` levels are counted; 64 reach every instance, as deeper designs are refused before.
fn totals(alloc: Global, callees: &[Vec<usize>], own: &[u64]) -> Result<Vec<u64>, NoMemory>
    requires long { length own.now ≡ length callees.now }
    requires there { All (All (λ k. k < length callees.now)) (map (λ list. list.items) callees.now) }
    ensures long { IfOk result (λ totals. length totals.items ≡ length callees.now) }
    ensures totals { IfOk result (λ totals. (k : ℕ)
        → slice_index_or totals.items k 0
        ≡ capped (total_below (map (λ list. list.items) callees.now) (λ j. slice_index_or own.now j 0) 64 k)) }
{
    let mut totals = vec![in alloc; 0u64; callees.len()]?;
    for _round in 0..64u8 {
        totals = next_totals(alloc, callees, own, &totals)?;
    }
    Ok(totals)
}

// The top counts itself as an instance, which the bound allows for.
fn has_many_bits(
    alloc: Global,
    checked: &Checked,
    called: &[Vec<usize>],
    bits: &[u64],
    top: usize,
) -> Result<bool, NoMemory>
    requires called { map (λ list. list.items) called.now
        ≡ map (callees (map syntax checked.now)) (map syntax checked.now) }
    requires bits { bits.now ≡ map (λ m. capped (bit_count m + 1)) (map syntax checked.now) }
    requires top { top < length checked.now }
    ensures many { IfOk result (λ many. (t : PlainModule) → slice_get (map syntax checked.now) top ≡ Some t
        → many ≡ nat_lt most_bits (bits_and_instances (design_on (map syntax checked.now) t))) }
{
    laws_of_designs();
    let _modules = checked.modules();
    let below = totals(alloc, called, bits)?;
    Ok(bits[top].saturating_add(below[top]) > MOST_BITS + 1)
}

// Inputs of the top, and the two constants, are cells too.
fn has_many_cells(
    alloc: Global,
    checked: &Checked,
    called: &[Vec<usize>],
    bits: &[u64],
    top: usize,
) -> Result<bool, NoMemory>
    requires called { map (λ list. list.items) called.now
        ≡ map (callees (map syntax checked.now)) (map syntax checked.now) }
    requires bits { bits.now ≡ map (λ m. capped (bit_count m + 1)) (map syntax checked.now) }
    requires top { top < length checked.now }
    ensures many { IfOk result (λ many. (t : PlainModule) → slice_get (map syntax checked.now) top ≡ Some t
        → bits_and_instances (design_on (map syntax checked.now) t) ≤ most_bits
        → many ≡ nat_lt most_cells (cells_in (design_on (map syntax checked.now) t))) }
{
    laws_of_designs();
    values_have_width();
    made_has_value();
    cells_are_counted();
    assignable_is_nets();
    let modules = checked.modules();
    let constructs = construct_weights(alloc, checked, bits)?;
    let instances = instance_weights(alloc, checked, &constructs)?;
    let below = totals(alloc, called, &instances)?;
    let inputs = port_bits(&modules[top].nets, true);
    let own = constructs[top].saturating_add(inputs).saturating_add(2);
    Ok(own.saturating_add(below[top]) > MOST_CELLS)
}

/// Bits are looked at first: the count of cells presupposes that they are few.
pub(crate) fn is_too_large(
    alloc: Global,
    checked: &Checked,
    called: &[Vec<usize>],
    top: usize,
) -> Result<bool, NoMemory>
    requires called { map (λ list. list.items) called.now
        ≡ map (callees (map syntax checked.now)) (map syntax checked.now) }
    requires top { top < length checked.now }
    ensures large { IfOk result (λ large. large ≡ true → (t : PlainModule)
        → slice_get (map syntax checked.now) top ≡ Some t
        → IsReportedOfDesign (design_on (map syntax checked.now) t) Size []) }
    ensures small { IfOk result (λ large. large ≡ false → (t : PlainModule)
        → slice_get (map syntax checked.now) top ≡ Some t
        → IsAbsentInDesign (design_on (map syntax checked.now) t) Size) }
{
    let bits = bit_weights(alloc, checked)?;
    if has_many_bits(alloc, checked, called, &bits, top)? {
        return Ok(true);
    }
    let many = has_many_cells(alloc, checked, called, &bits, top)?;
    Ok(many)
}
