//! The scopes of a design, numbered in elaboration order: each before those below it, and its bits after those of the
//! scopes before it.
//!
//! Widths, instance names and whether it is a box are found once a module (`ModuleSummary`), so a scope costs no more
//! than the instances that are in it.

ghost use Rattle.std.specs.Prelude.{◌≡◌, ◌+◌, ◌^◌, ◌<◌, ◌++◌, ◌∷◌, [], List, Some, length, map, slice_get, slice_set};
ghost use Rattle.std.specs.Prelude.{IfOk, OnOk};
ghost use Rattle.bb_ast.specs.Syntax.{PlainModule};
ghost use Rattle.bb_names.specs.Inside.Checked.{syntax};
ghost use Rattle.bb_blast.specs.declared.placed.Placed.{Placed};
ghost use Rattle.bb_design.specs.Inside.Callees.{callees};
ghost use Rattle.bb_design.specs.Hierarchy.{Design, Scope};
ghost use Rattle.bb_blast.specs.Inside.Placements.{ArePlaced};
ghost use Rattle.bb_design.specs.Refusals.{IsShallow, IsSmallDesign, design_on};
ghost use Rattle.bb_elab.specs.Inside.Placings.{IsAdded, IsNext, IsPlacedNext, with_children};

use bb_bits::NoMemory;
use bb_blast::{Instance, Placed};
use bb_design::laws::laws_of_designs;
use bb_hier::{ModuleSummary, module_summaries};
use bb_names::Checked;
use std::alloc::Global;

#[derive(Debug, Drop)]
pub(crate) struct Placing {
    pub scopes: Vec<Placed>,
    pub bits: u32,
}

// The top is no box, even without constructs. `children` is set once the scopes below are numbered.
fn new_scope(
    alloc: Global,
    summary: &ModuleSummary,
    bits: u32,
    place: usize,
    instance: Option<Instance>,
) -> Placed
    ensures added { IsAdded summary.now bits place instance result }
    ensures inside { result.children.items ≡ [] }
{
    let boxed = instance.is_some() && summary.empty;
    Placed {
        module: place,
        instance,
        boxed,
        first: bits,
        children: Vec::new(alloc),
    }
}

fn add_scope(
    alloc: Global,
    summary: &ModuleSummary,
    placing: &mut Placing,
    place: usize,
    instance: Option<Instance>,
) -> Result<u32, NoMemory>
    requires few { length placing.old.scopes.items < 2 ^ 32 }
    requires fit { placing.old.bits + summary.now.bits < 2 ^ 32 }
    ensures number { IfOk result (λ number. number ≡ length placing.old.scopes.items) }
    ensures bits { OnOk result (placing.new.bits ≡ placing.old.bits + summary.now.bits) }
    ensures scopes { OnOk result ((p : Placed) × (placing.new.scopes.items ≡ placing.old.scopes.items ++ p ∷ [])
        × IsAdded summary.now placing.old.bits place instance p) }
{
    let number = placing.scopes.len() as u32;
    let scope = new_scope(alloc, summary, placing.bits, place, instance);
    placing.scopes.push(scope)?;
    placing.bits += summary.bits as u32;
    Ok(number)
}

fn set_children(placing: &mut Placing, number: usize, children: Vec<u32>)
    requires there { number < length placing.old.scopes.items }
    ensures set { (p : Placed) → slice_get placing.old.scopes.items number ≡ Some p
        → placing.new.scopes.items ≡ slice_set placing.old.scopes.items number (with_children children p) }
    ensures bits { placing.new.bits ≡ placing.old.bits }
{
    placing.scopes[number].children = children;
}

// Recursion follows the hierarchy; `levels` bounds it and falls at each step, which shows that it ends.
fn place_scope(
    alloc: Global,
    called: &[Vec<usize>],
    module_summaries: &[ModuleSummary],
    placing: &mut Placing,
    place: usize,
    instance: Option<Instance>,
    levels: u8,
) -> Result<u32, NoMemory>
    requires next { (d : Design) × (s : Scope) × (rest : List Scope)
        × IsNext d (map (λ list. list.items) called.now) module_summaries.now placing.old place instance levels s
        rest }
    ensures placed { IfOk result (λ number. (d : Design) (s : Scope) (rest : List Scope)
        → IsNext d (map (λ list. list.items) called.now) module_summaries.now placing.old place instance levels s
        rest
        → IsPlacedNext d placing.old placing.new number rest) }
{
    laws_of_designs();
    let summary = &module_summaries[place];
    let targets = &called[place];
    let number = add_scope(alloc, summary, placing, place, instance)?;
    let mut children = Vec::with_capacity(alloc, targets.len())?;
    for k in 0..targets.len() {
        let inside = Instance {
            scope: number,
            name: summary.names[k].clone()?,
        };
        let child = place_scope(
            alloc,
            called,
            module_summaries,
            placing,
            targets[k],
            Some(inside),
            levels - 1,
        )?;
        children.push(child)?;
    }
    set_children(placing, number as usize, children);
    Ok(number)
}

/// In elaboration order. That there are at most 64 levels, and not too many bits, was found before.
pub(crate) fn place_scopes(
    alloc: Global,
    checked: &Checked,
    called: &[Vec<usize>],
    top: usize,
) -> Result<Vec<Placed>, NoMemory>
    requires called { map (λ list. list.items) called.now
        ≡ map (callees (map syntax checked.now)) (map syntax checked.now) }
    requires top { top < length checked.now }
    requires bounded { (t : PlainModule) → slice_get (map syntax checked.now) top ≡ Some t
        → IsShallow (design_on (map syntax checked.now) t) × IsSmallDesign (design_on (map syntax checked.now) t) }
    ensures placed { IfOk result (λ all. (t : PlainModule) → slice_get (map syntax checked.now) top ≡ Some t
        → ArePlaced (design_on (map syntax checked.now) t) all.items) }
{
    let module_summaries = module_summaries(alloc, checked.modules())?;
    let mut placing = Placing {
        scopes: Vec::new(alloc),
        bits: 0,
    };
    place_scope(
        alloc,
        called,
        &module_summaries,
        &mut placing,
        top,
        None,
        64,
    )?;
    Ok(placing.scopes)
}
