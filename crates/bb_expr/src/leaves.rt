//! Nets, their parts and numbers as steps. All operands are unsigned, so a wider context adds zeros. Plain numbers are
//! unsigned too, with exactly 32 bits: the standard makes them signed (IEEE 1364-2005, 3.5.1), which shows only where
//! all operands are, as in a comparison of two plain numbers.

ghost use Rattle.std.specs.Prelude.{◌≡◌, ◌≤◌, ◌+◌, ◌^◌, true, false, List, length, map, IfOk};
ghost use Rattle.bb_ast.specs.Syntax.{Net, Part};
ghost use Rattle.bb_bits.specs.Numbers.{bits_of};
ghost use Rattle.bb_names.specs.declared.net.NetInfo.{NetInfo};
ghost use Rattle.bb_names.specs.Inside.Checked.{module_facts};
ghost use Rattle.bb_names.specs.Ranges.{has_bits, distance, range_width, place_of};
ghost use Rattle.bb_expr.specs.Cells.{without_cells, made};
ghost use Rattle.bb_expr.specs.Inside.Fit.{HasNet, ranges_in};
ghost use Rattle.bb_expr.specs.Inside.Growing.{Adds};
ghost use Rattle.bb_expr.specs.Lists.{extended};
ghost use Rattle.bb_expr.specs.Terms.{Const};

use crate::rows::{constants, extended, net_bits, number_bits};
use crate::scope::{place_of, range_of};
use crate::step::BitStep;
use crate::width::range_width;
use bb_ast::Range;
use bb_bits::{Name, NoMemory};
use bb_names::CheckedModule;
use std::alloc::Global;

/// Counted from the leftmost bit, the most significant; by distance, so that rising and falling ranges are one case.
fn first_place(range: Option<Range>, index: u32) -> u32
    ensures { result ≡ place_of range index }
{
    match range {
        Some(range) => range.left.abs_diff(index),
        None => 0,
    }
}

pub(crate) fn net(
    alloc: Global,
    scope: &CheckedModule,
    steps: &mut Vec<BitStep>,
    name: &Name,
    width: u32,
) -> Result<Vec<u32>, NoMemory>
    requires has { HasNet (module_facts scope.now) name.now }
    requires own { range_width (ranges_in (module_facts scope.now) name.now) ≤ width }
    requires width { width ≤ 65536 }
    requires room { length steps.old.items + width ≤ 2 ^ 32 }
    ensures { IfOk result (λ bits. Adds scope.now.nets.items
        (made (ranges_in (module_facts scope.now)) (Net name.now) width) steps.old.items steps.new.items bits.items) }
{
    let count = range_width(range_of(scope, name));
    let bits = net_bits(alloc, steps, place_of(scope, name), 0, count)?;
    extended(alloc, steps, &bits, width)
}

pub(crate) fn part(
    alloc: Global,
    scope: &CheckedModule,
    steps: &mut Vec<BitStep>,
    name: &Name,
    left: u32,
    right: u32,
    width: u32,
) -> Result<Vec<u32>, NoMemory>
    requires has { HasNet (module_facts scope.now) name.now }
    requires bits { has_bits (ranges_in (module_facts scope.now) name.now) left right ≡ true }
    requires own { distance left right + 1 ≤ width }
    requires width { width ≤ 65536 }
    requires room { length steps.old.items + width ≤ 2 ^ 32 }
    ensures { IfOk result (λ bits. Adds scope.now.nets.items
        (made (ranges_in (module_facts scope.now)) (Part name.now left right) width) steps.old.items steps.new.items
        bits.items) }
{
    let from = first_place(range_of(scope, name), left);
    let count = left.abs_diff(right) + 1;
    let bits = net_bits(alloc, steps, place_of(scope, name), from, count)?;
    extended(alloc, steps, &bits, width)
}

pub(crate) fn number(
    alloc: Global,
    steps: &mut Vec<BitStep>,
    bits: &[bool],
    width: u32,
) -> Result<Vec<u32>, NoMemory>
    requires own { length bits.now ≤ width }
    requires room { length steps.old.items + width ≤ 2 ^ 32 }
    ensures { (nets : List NetInfo)
        → IfOk result (λ places. Adds nets (without_cells (extended (Const false) width (map Const bits.now)))
        steps.old.items steps.new.items places.items) }
{
    let places = constants(alloc, steps, bits)?;
    extended(alloc, steps, &places, width)
}

pub(crate) fn plain_number(
    alloc: Global,
    steps: &mut Vec<BitStep>,
    value: u32,
    width: u32,
) -> Result<Vec<u32>, NoMemory>
    requires own { 32 ≤ width }
    requires room { length steps.old.items + width ≤ 2 ^ 32 }
    ensures { (nets : List NetInfo)
        → IfOk result (λ places. Adds nets
        (without_cells (extended (Const false) width (map Const (bits_of 32 value)))) steps.old.items
        steps.new.items places.items) }
{
    let bits = number_bits(alloc, value)?;
    number(alloc, steps, &bits, width)
}
