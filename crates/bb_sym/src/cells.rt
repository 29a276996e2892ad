//! Cells of both nets as BDDs, bottom up in cell order. The order of variables is a parameter (`first`, `starts`),
//! since checks order inputs and pins differently. One loop serves both nets: a specification has no box, so variables
//! of pins do not change it, by the law that without boxes every value is known.

ghost use Rattle.std.specs.Prelude.{if◌then◌else◌, ◌≡◌, ◌+◌, ◌<◌, ◌≤◌, ℕ, [], length, IfOk, OnOk, IsErrOf};
ghost use Rattle.std.specs.Prelude.{slice_index_or};
ghost use Rattle.bb_bits.specs.Truth.{variable};
ghost use Rattle.bb_uniq.specs.Inside.Nodes.{IsRef};
ghost use Rattle.bb_uniq.specs.Inside.Meaning.{Adds, Keeps, IsTooMany};
ghost use Rattle.bb_net.specs.declared.cell.Cell.TheVariants as cells;
ghost use Rattle.bb_net.specs.Netlists.{ReadsBefore};
ghost use Rattle.bb_sym.specs.Plain.{Reading, AreVariables, cell_bit, table, variables, plain_functions_at};
ghost use Rattle.bb_sym.specs.Inside.Made.{Makes, AreTooMany, RepresentAll, RepresentFirst, ForEachReading, AreRefs};
ghost use Rattle.bb_sym.specs.Inside.Made.{AreCells, HaveCells};
ghost use Rattle.bb_sym.specs.Inside.Made.{bits_tables, cell_table, tables_at};

use crate::RungFault;
use bb_dd::{DdFault, Diagrams, Ref};
use bb_net::{Cell, Net, value_exists};
use bb_uniq::laws;
use std::alloc::Global;

/// BDDs by variable, and by cell place.
#[derive(Drop)]
pub struct PlainCells {
    pub variables: Vec<Ref>,
    pub spec: Vec<Ref>,
    pub imp: Vec<Ref>,
}

/// Makes the variables and the cells of a specification without boxes and an implementation with the same inputs.
///
/// Input `i` has variable `first + i`; pin `p` of box `b` has `starts[b] + p`. All `vars` variables are made, also
/// unused ones, so the set of functions does not depend on the netlists' reads.
///
/// # Errors
///
/// `Nodes` exactly where the beads held and those of these functions are more than the limit.
pub fn plain_cells(
    alloc: Global,
    d: &mut Diagrams,
    spec: &Net,
    imp: &Net,
    vars: u32,
    first: u32,
    starts: &[u32],
) -> Result<PlainCells, RungFault>
    requires vars { vars ≡ d.old.store.vars }
    requires inputs { spec.now.inputs ≡ imp.now.inputs }
    requires no_box { spec.now.boxes ≡ [] }
    requires variables { AreVariables d.old.store.vars first starts.now imp.now }
    ensures kept { Keeps d.old.store d.new.store }
    ensures variables { IfOk result (λ made.
        RepresentFirst d.new.store (variable d.old.store.vars) d.old.store.vars made.variables.items) }
    ensures refs { IfOk result (λ made. AreCells d.new.store spec.now imp.now made.spec.items made.imp.items) }
    ensures cells { ForEachReading d.old.store.vars first starts.now imp.now
        (λ r. IfOk result (λ made. HaveCells d.new.store r spec.now imp.now made.spec.items made.imp.items)) }
    ensures makes { ForEachReading d.old.store.vars first starts.now imp.now
        (λ r. OnOk result (Makes d.old.store d.new.store (plain_functions_at d.old.store.vars r spec.now imp.now))) }
    ensures nodes { ForEachReading d.old.store.vars first starts.now imp.now (λ r. IsErrOf result RungFault.Nodes
        → AreTooMany d.old.store (plain_functions_at d.old.store.vars r spec.now imp.now)) }
{
    let variables = make_variables(alloc, d, vars)?;
    let spec = net_cells(alloc, d, spec, first, starts)?;
    let imp = net_cells(alloc, d, imp, first, starts)?;
    Ok(PlainCells {
        variables,
        spec,
        imp,
    })
}

pub(crate) fn make_variables(
    alloc: Global,
    d: &mut Diagrams,
    count: u32,
) -> Result<Vec<Ref>, RungFault>
    requires { count ≡ d.old.store.vars }
    ensures kept { Keeps d.old.store d.new.store }
    ensures refs { IfOk result (λ made.
        RepresentFirst d.new.store (variable d.old.store.vars) d.old.store.vars made.items) }
    ensures makes { OnOk result (Makes d.old.store d.new.store (variables d.old.store.vars)) }
    ensures nodes { IsErrOf result RungFault.Nodes → AreTooMany d.old.store (variables d.old.store.vars) }
{
    let mut made = Vec::with_capacity(alloc, count as usize)?;
    for v in 0..count {
        let r = d.var(v)?;
        made.push(r)?;
    }
    Ok(made)
}

/// `d` may have more variables than the net reads.
pub(crate) fn net_cells(
    alloc: Global,
    d: &mut Diagrams,
    net: &Net,
    first: u32,
    starts: &[u32],
) -> Result<Vec<Ref>, RungFault>
    requires { AreVariables d.old.store.vars first starts.now net.now }
    ensures kept { Keeps d.old.store d.new.store }
    ensures count { IfOk result (λ made. length made.items ≡ length net.now.cells) }
    ensures refs { IfOk result (λ made. AreRefs d.new.store made.items) }
    ensures cells { ForEachReading d.old.store.vars first starts.now net.now (λ r. IfOk result (λ made.
        RepresentAll d.new.store (λ place. table d.old.store.vars (cell_bit r net.now place)) made.items)) }
    ensures makes { ForEachReading d.old.store.vars first starts.now net.now
        (λ r. OnOk result (Makes d.old.store d.new.store (bits_tables d.old.store.vars r net.now))) }
    ensures nodes { ForEachReading d.old.store.vars first starts.now net.now
        (λ r. IsErrOf result RungFault.Nodes → AreTooMany d.old.store (bits_tables d.old.store.vars r net.now)) }
{
    value_exists();
    let cells = net.cells();
    let mut made = Vec::with_capacity(alloc, cells.len())?;
    for cell in cells {
        let r = cell_diagram(d, *cell, first, starts, &made)?;
        made.push(r)?;
    }
    Ok(made)
}

/// `made` has the BDDs of all earlier cells, and a cell reads no others.
fn cell_diagram(
    d: &mut Diagrams,
    cell: Cell,
    first: u32,
    starts: &[u32],
    made: &[Ref],
) -> Result<Ref, DdFault>
    requires reads { ReadsBefore d.old.store.vars [] (length made.now) cell }
    requires input { (i : ℕ) → cell ≡ cells.Input i → first + i < d.old.store.vars }
    requires pin { (b p : ℕ) → cell ≡ cells.BoxOut b p
        → (b < length starts.now) × (slice_index_or starts.now b 0 + p < d.old.store.vars) }
    requires few { d.old.store.vars ≤ 2048 }
    requires made { AreRefs d.old.store made.now }
    ensures ok { IfOk result (λ r. Adds d.old.store d.new.store
        (cell_table d.old.store.vars first starts.now (tables_at d.old.store made.now) cell) r.0) }
    ensures full { IsErrOf result DdFault.Full
        → IsTooMany d.old.store (cell_table d.old.store.vars first starts.now (tables_at d.old.store made.now) cell) }
    ensures kept { Keeps d.old.store d.new.store }
{
    laws::stores();
    laws::growth();
    d.is_canonical();
    match cell {
        Cell::Const(bit) => Ok(leaf(bit)),
        Cell::Input(i) => d.var(first + i),
        Cell::Not(a) => d.not(made[a as usize]),
        Cell::And(a, b) => d.and(made[a as usize], made[b as usize]),
        Cell::Or(a, b) => d.or(made[a as usize], made[b as usize]),
        Cell::Xor(a, b) => d.xor(made[a as usize], made[b as usize]),
        Cell::Mux(c, t, e) => d.ite(made[c as usize], made[t as usize], made[e as usize]),
        Cell::BoxOut(b, p) => d.var(starts[b as usize] + p),
    }
}

/// Ref 0 is the leaf false and Ref 1 the leaf true.
pub(crate) fn leaf(bit: bool) -> Ref
    ensures { result.0 ≡ (if bit then 1 else 0) }
{
    if bit { Ref(1) } else { Ref(0) }
}
