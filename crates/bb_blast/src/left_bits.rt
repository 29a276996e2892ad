//! The bit numbers of a left side, most significant first.
//!
//! The checks have made sure that it is a net, a select in range, or a concatenation of these: so its bits are looked
//! up, and no cell is made.

ghost use Rattle.std.specs.Prelude.{◌≡◌, ◌≤◌, ◌+◌, ◌++◌, List, All, Some, true, map, IfOk, OnOk};
ghost use Rattle.std.specs.List.{flat_map};
ghost use Rattle.std.specs.Map.{lookup};
ghost use Rattle.bb_bits.specs.Names.{same_name};
ghost use Rattle.bb_ast.specs.Inside.Views.{expression};
ghost use Rattle.bb_names.specs.Inside.Checked.{module_facts, syntax, HasNets};
ghost use Rattle.bb_names.specs.Ranges.{range_width, place_of, has_bits, distance};
ghost use Rattle.bb_expr.specs.Inside.Fit.{HasNet, AreFit, ranges_in};
ghost use Rattle.bb_design.specs.Hierarchy.{Scope};
ghost use Rattle.bb_design.specs.NetBits.{Bit, bits_from, bits_named, written_bits};
ghost use Rattle.bb_blast.specs.Inside.ModuleTemplates.{AreBitsIn};
ghost use Rattle.bb_blast.specs.Inside.BitBlasting.{AreStarts};

use crate::net_starts::{add_run, range_width};
use bb_ast::{Expr, Range};
use bb_bits::{Name, NoMemory};
use bb_names::CheckedModule;
use std::alloc::Global;

pub(crate) fn net_place(scope: &CheckedModule, name: &Name) -> u32
    requires has { HasNet (module_facts scope.now) name.now }
    ensures place { lookup (same_name name.now) scope.now.index.entries ≡ Some result }
{
    scope.index.get(name).copied().unwrap()
}

fn net_range(scope: &CheckedModule, name: &Name) -> Option<Range>
    requires has { HasNet (module_facts scope.now) name.now }
    ensures range { result ≡ ranges_in (module_facts scope.now) name.now }
{
    scope.nets[net_place(scope, name) as usize].range
}

// Counted from the leftmost bit, for ranges in either direction; a net without a range has one bit.
fn place_of(range: Option<Range>, index: u32) -> u32
    ensures place { result ≡ place_of range index }
{
    match range {
        Some(range) => range.left.abs_diff(index),
        None => 0,
    }
}

fn add_bits(
    scope: &CheckedModule,
    starts: &[u32],
    name: &Name,
    place: u32,
    count: u32,
    numbers: &mut Vec<u32>,
) -> Result<(), NoMemory>
    requires nets { HasNets (module_facts scope.now) }
    requires starts { AreStarts scope.now.nets.items starts.now }
    requires has { HasNet (module_facts scope.now) name.now }
    requires within { place + count ≤ range_width (ranges_in (module_facts scope.now) name.now) }
    ensures bits { (before : Scope → List Bit)
        → AreBitsIn (syntax (module_facts scope.now)) numbers.old.items before
        → OnOk result (AreBitsIn (syntax (module_facts scope.now)) numbers.new.items (λ s.
        before s ++ bits_from s.path name.now place count)) }
{
    let net = net_place(scope, name);
    add_run(numbers, starts[net as usize] + place, count)
}

fn add_net(
    scope: &CheckedModule,
    starts: &[u32],
    name: &Name,
    numbers: &mut Vec<u32>,
) -> Result<(), NoMemory>
    requires nets { HasNets (module_facts scope.now) }
    requires starts { AreStarts scope.now.nets.items starts.now }
    requires has { HasNet (module_facts scope.now) name.now }
    ensures bits { (before : Scope → List Bit)
        → AreBitsIn (syntax (module_facts scope.now)) numbers.old.items before
        → OnOk result (AreBitsIn (syntax (module_facts scope.now)) numbers.new.items (λ s.
        before s ++ bits_named s name.now)) }
{
    let count = range_width(net_range(scope, name));
    add_bits(scope, starts, name, 0, count, numbers)
}

fn add_selected(
    scope: &CheckedModule,
    starts: &[u32],
    name: &Name,
    left: u32,
    right: u32,
    numbers: &mut Vec<u32>,
) -> Result<(), NoMemory>
    requires nets { HasNets (module_facts scope.now) }
    requires starts { AreStarts scope.now.nets.items starts.now }
    requires has { HasNet (module_facts scope.now) name.now }
    requires selects { has_bits (ranges_in (module_facts scope.now) name.now) left right ≡ true }
    requires bounded { distance left right + 1 ≤ 65536 }
    ensures bits { (before : Scope → List Bit)
        → AreBitsIn (syntax (module_facts scope.now)) numbers.old.items before
        → OnOk result (AreBitsIn (syntax (module_facts scope.now)) numbers.new.items (λ s. before s
        ++ bits_from s.path name.now (place_of (ranges_in (module_facts scope.now) name.now) left)
        (distance left right + 1))) }
{
    let place = place_of(net_range(scope, name), left);
    let count = left.abs_diff(right) + 1;
    add_bits(scope, starts, name, place, count, numbers)
}

// Recursion goes as deep as the expression nests.
#[cycle(left)]
fn add_left(
    scope: &CheckedModule,
    starts: &[u32],
    expr: &Expr,
    numbers: &mut Vec<u32>,
) -> Result<(), NoMemory>
    requires nets { HasNets (module_facts scope.now) }
    requires starts { AreStarts scope.now.nets.items starts.now }
    requires fit { AreFit (module_facts scope.now) (expression expr.now) }
    ensures { (before : Scope → List Bit) → AreBitsIn (syntax (module_facts scope.now)) numbers.old.items before
        → OnOk result (AreBitsIn (syntax (module_facts scope.now)) numbers.new.items (λ s.
        before s ++ written_bits s (expression expr.now))) }
{
    match expr {
        Expr::Net(name) => add_net(scope, starts, name, numbers),
        Expr::Bit(name, index) => add_selected(scope, starts, name, *index, *index, numbers),
        Expr::Part(name, left, right) => add_selected(scope, starts, name, *left, *right, numbers),
        Expr::Concat(all) => add_lefts(scope, starts, all, numbers),
        // No other expression is a left side.
        _ => Ok(()),
    }
}

#[cycle(left)]
fn add_lefts(
    scope: &CheckedModule,
    starts: &[u32],
    all: &[Expr],
    numbers: &mut Vec<u32>,
) -> Result<(), NoMemory>
    requires nets { HasNets (module_facts scope.now) }
    requires starts { AreStarts scope.now.nets.items starts.now }
    requires fit { All (AreFit (module_facts scope.now)) (map expression all.now) }
    ensures { (before : Scope → List Bit) → AreBitsIn (syntax (module_facts scope.now)) numbers.old.items before
        → OnOk result (AreBitsIn (syntax (module_facts scope.now)) numbers.new.items (λ s.
        before s ++ flat_map (written_bits s) (map expression all.now))) }
{
    for part in all {
        add_left(scope, starts, part, numbers)?;
    }
    Ok(())
}

/// From the leftmost bit on, which is the most significant.
pub(crate) fn net_bits(
    alloc: Global,
    scope: &CheckedModule,
    starts: &[u32],
    name: &Name,
) -> Result<Vec<u32>, NoMemory>
    requires nets { HasNets (module_facts scope.now) }
    requires starts { AreStarts scope.now.nets.items starts.now }
    requires has { HasNet (module_facts scope.now) name.now }
    ensures bits { IfOk result (λ numbers.
        AreBitsIn (syntax (module_facts scope.now)) numbers.items (λ s. bits_named s name.now)) }
{
    let mut numbers = Vec::new(alloc);
    add_net(scope, starts, name, &mut numbers)?;
    Ok(numbers)
}

/// In the order of the left sides; for the outputs of a gate.
pub(crate) fn lefts_bits(
    alloc: Global,
    scope: &CheckedModule,
    starts: &[u32],
    all: &[Expr],
) -> Result<Vec<u32>, NoMemory>
    requires nets { HasNets (module_facts scope.now) }
    requires starts { AreStarts scope.now.nets.items starts.now }
    requires fit { All (AreFit (module_facts scope.now)) (map expression all.now) }
    ensures bits { IfOk result (λ numbers. AreBitsIn (syntax (module_facts scope.now)) numbers.items
        (λ s. flat_map (written_bits s) (map expression all.now))) }
{
    let mut numbers = Vec::new(alloc);
    add_lefts(scope, starts, all, &mut numbers)?;
    Ok(numbers)
}

/// Most significant first.
pub(crate) fn left_bits(
    alloc: Global,
    scope: &CheckedModule,
    starts: &[u32],
    expr: &Expr,
) -> Result<Vec<u32>, NoMemory>
    requires nets { HasNets (module_facts scope.now) }
    requires starts { AreStarts scope.now.nets.items starts.now }
    requires fit { AreFit (module_facts scope.now) (expression expr.now) }
    ensures bits { IfOk result (λ numbers.
        AreBitsIn (syntax (module_facts scope.now)) numbers.items (λ s. written_bits s (expression expr.now))) }
{
    let mut numbers = Vec::new(alloc);
    add_left(scope, starts, expr, &mut numbers)?;
    Ok(numbers)
}
