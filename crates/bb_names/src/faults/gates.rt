//! Faults of gates (IEEE 1364-2005, 7.2 and 7.3): a terminal that is not one bit, and an output that cannot be driven.
ghost use Rattle.std.specs.Prelude.{◌≡◌, map, min};
ghost use Rattle.std.specs.List.{flat_map};
ghost use Rattle.bb_ast.specs.Gates.{output_count};
ghost use Rattle.bb_ast.specs.Inside.Views.{expression, gate_view, module_view};
ghost use Rattle.bb_names.specs.Inside.Firsts.{noted, terminal_sites, Notes};
ghost use Rattle.bb_names.specs.Sites.{Read, Driven, gate_sites};

use crate::faults::expressions::look_at_width;
use crate::faults::found::{Found, note_word};
use crate::faults::roles::{Role, may_be_written};
use crate::faults::widths::gate_word;
use crate::indexed::IndexedModule;
use bb_ast::{Expr, Gate, GateCall};
use bb_bits::NoMemory;
use std::alloc::Global;

/// `buf` and `not` have their input last and outputs before it; every other gate has one output first.
fn outputs_of(gate: Gate, count: usize) -> usize
    ensures { result ≡ min (output_count gate count) count }
{
    if count == 0 {
        return 0;
    }
    match gate {
        Gate::Buf | Gate::Not => count - 1,
        _ => 1,
    }
}

fn look_at_terminal(
    alloc: Global,
    of: &IndexedModule,
    gate: Gate,
    output: bool,
    terminal: &Expr,
    found: &mut Found,
) -> Result<(), NoMemory>
    ensures noted { Notes result (module_view of.now) found.old found.new (terminal_sites gate output
        (expression terminal.now)) }
{
    let word = gate_word(gate);
    if output {
        let wrong = !may_be_written(terminal);
        note_word(alloc, &mut found.role, wrong, word)?;
        look_at_width(alloc, of, Role::Driven, terminal, 1, word, found)
    } else {
        look_at_width(alloc, of, Role::Read, terminal, 1, word, found)
    }
}

fn look_at_terminals(
    alloc: Global,
    of: &IndexedModule,
    gate: Gate,
    output: bool,
    terminals: &[Expr],
    found: &mut Found,
) -> Result<(), NoMemory>
    ensures noted { Notes result (module_view of.now) found.old found.new (flat_map (terminal_sites gate output)
        (map expression terminals.now)) }
{
    for terminal in terminals {
        look_at_terminal(alloc, of, gate, output, terminal, found)?;
    }
    Ok(())
}

fn look_at_gate(
    alloc: Global,
    of: &IndexedModule,
    gate: Gate,
    terminals: &[Expr],
    found: &mut Found,
) -> Result<(), NoMemory>
    ensures noted { Notes result (module_view of.now) found.old found.new (gate_sites gate
        (map expression terminals.now)) }
{
    let (outputs, inputs) = terminals.split_at(outputs_of(gate, terminals.len()));
    look_at_terminals(alloc, of, gate, true, outputs, found)?;
    look_at_terminals(alloc, of, gate, false, inputs, found)
}

pub(crate) fn look_at_gates(
    alloc: Global,
    of: &IndexedModule,
    gate: Gate,
    calls: &[GateCall],
    found: &mut Found,
) -> Result<(), NoMemory>
    ensures noted { Notes result (module_view of.now) found.old found.new (flat_map (λ x. gate_sites gate x.1)
        (map gate_view calls.now)) }
{
    for call in calls {
        look_at_gate(alloc, of, gate, call.terms.as_slice(), found)?;
    }
    Ok(())
}
