//! The template parts of gates: terminals are parted into outputs and inputs (IEEE 1364-2005, 7.2 and 7.3).

ghost use Rattle.std.specs.Prelude.{◌≡◌, ◌≤◌, ◌<◌, ◌++◌, List, All, length, map, min, IfOk, OnOk};
ghost use Rattle.std.specs.List.{AllZip};
ghost use Rattle.bb_ast.specs.Gates.{output_count};
ghost use Rattle.bb_ast.specs.Inside.Views.{expression, gate_view};
ghost use Rattle.bb_names.specs.Nets.{nets_of};
ghost use Rattle.bb_expr.specs.Inside.Occurrences.{OccursAt};
ghost use Rattle.bb_design.specs.Contexts.{width_of, made_in};
ghost use Rattle.bb_design.specs.Constructs.{Construct, gate_construct};
ghost use Rattle.bb_blast.specs.Inside.ModuleTemplates.{IsWholeIn};
ghost use Rattle.bb_blast.specs.Inside.BitBlasting.{AreStarts, IsPartAt, module_in, scope_of, ArePartsIn, IsMakeableIn};

use crate::expression_steps::{logic_alone, scope_at};
use crate::left_bits::lefts_bits;
use crate::logic::Logic;
use crate::module_context::ModuleContext;
use crate::template::Part;
use bb_ast::{Expr, Gate, GateCall};
use bb_bits::NoMemory;
use std::alloc::Global;

// `buf` and `not` have one input, which is last; the other gates have one output, which is first.
fn output_count(gate: Gate, count: usize) -> usize
    ensures outputs { result ≡ min (output_count gate count) count }
    ensures within { result ≤ count }
{
    match gate {
        Gate::Buf | Gate::Not => count.saturating_sub(1),
        _ => count.min(1),
    }
}

fn gate_inputs(
    alloc: Global,
    context: ModuleContext<'_>,
    terms: &[Expr],
) -> Result<Vec<Logic>, NoMemory>
    requires occurs { All (OccursAt context.checked.now context.«module») (map expression terms.now) }
    requires few { All
        (λ e. length (made_in (scope_of (module_in context.checked.now context.«module»)) e (width_of
        (scope_of (module_in context.checked.now context.«module»)) e)).cells
        ≤ 2000000)
        (map expression terms.now) }
    ensures made { IfOk result (λ ins. AllZip
        (IsWholeIn (module_in context.entry.checked.now context.entry.«module»)) ins.items
        (map expression terms.now)) }
{
    let mut ins = Vec::with_capacity(alloc, terms.len())?;
    for term in terms {
        ins.push(logic_alone(alloc, context, term)?)?;
    }
    Ok(ins)
}

fn gate_part(
    alloc: Global,
    context: ModuleContext<'_>,
    gate: Gate,
    terms: &[Expr],
) -> Result<Part, NoMemory>
    requires starts { AreStarts (nets_of (module_in context.checked.now context.«module»)) context.starts.now }
    requires there { context.«module» < length context.checked.now }
    requires makeable { IsMakeableIn context (gate_construct gate
        (map expression terms.now)) }
    ensures part { IfOk result (λ part. IsPartAt context.entry.checked.now context.entry.«module» part
        (gate_construct gate (map expression terms.now))) }
{
    let (outs, ins) = terms.split_at(output_count(gate, terms.len()));
    let scope = scope_at(context.checked, context.module);
    let outs = lefts_bits(alloc, scope, context.starts, outs)?;
    let ins = gate_inputs(alloc, context, ins)?;
    Ok(Part::Gate { gate, outs, ins })
}

pub(crate) fn add_gates(
    alloc: Global,
    context: ModuleContext<'_>,
    gate: Gate,
    all: &[GateCall],
    parts: &mut Vec<Part>,
) -> Result<(), NoMemory>
    requires starts { AreStarts (nets_of (module_in context.checked.now context.«module»)) context.starts.now }
    requires there { context.«module» < length context.checked.now }
    requires makeable { All (λ x. IsMakeableIn context (gate_construct gate x.1))
        (map gate_view all.now) }
    ensures parts { (before : List Construct)
        → ArePartsIn context.entry parts.old.items before
        → OnOk result (ArePartsIn context.entry parts.new.items
        (before ++ map (λ x. gate_construct gate x.1) (map gate_view all.now))) }
{
    for call in all {
        parts.push(gate_part(alloc, context, gate, call.terms.as_slice())?)?;
    }
    Ok(())
}
