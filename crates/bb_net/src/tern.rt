//! Three-valued simulation with every box output unknown (IEEE 1364-2005, 7.2 and 5.1.13).
//!
//! A known value is the cell's value whatever the boxes hold, so one vector with a known and wrong output refutes all
//! contents at once. The price is that correlations of unknowns are lost: the exclusive or of an unknown bit with
//! itself is unknown. Checks by BDD see these.

ghost use Rattle.std.specs.Prelude.{◌≡◌, ◌+◌, ◌<◌, ◌≤◌, ℕ, Bool, List, [], length, map, Option, Some};
ghost use Rattle.bb_net.specs.Netlists.{Netlist, IsNetlist, IsOrdered, ReadsBefore, cell_at};
ghost use Rattle.bb_net.specs.Values.{bit_of, value_of, flat};
ghost use Rattle.bb_net.specs.Ternary.{not3, and3, or3, xor3, mux3, same3, tern_of, gate3, tern, IsTern};

use crate::{Cell, Net};

impl Net {
    /// Every box output is `None`. What `out` holds before is not read.
    pub fn tern(&self, x: &[bool], out: &mut [Option<bool>])
        requires inputs { length x.now ≡ self.now.inputs }
        requires room { length out.old ≡ length self.now.cells }
        ensures values { out.new ≡ tern self.now x.now }
    {
        write_known(&self.cells, x, out);
    }
}

fn write_known(cells: &[Cell], x: &[bool], out: &mut [Option<bool>])
    requires room { length out.old ≡ length cells.now }
    requires ordered { (place : ℕ) → place < length cells.now
        → ReadsBefore (length x.now) [] place (cell_at cells.now place) }
    ensures each { (place : ℕ) → place < length cells.now
        → tern_of out.new place ≡ gate3 x.now (tern_of out.new) (cell_at cells.now place) }
{
    for (place, cell) in cells.iter().enumerate() {
        out[place] = cell_known(*cell, x, out);
    }
}

fn cell_known(cell: Cell, x: &[bool], out: &[Option<bool>]) -> Option<bool>
    requires { ReadsBefore (length x.now) [] (length out.now) cell }
    ensures { result ≡ gate3 x.now (tern_of out.now) cell }
{
    match cell {
        Cell::Const(bit) => Some(bit),
        Cell::Input(i) => Some(x[i as usize]),
        Cell::Not(a) => out[a as usize].map(|bit| !bit),
        Cell::And(a, b) => and_known(out[a as usize], out[b as usize]),
        Cell::Or(a, b) => or_known(out[a as usize], out[b as usize]),
        Cell::Xor(a, b) => xor_known(out[a as usize], out[b as usize]),
        Cell::Mux(c, t, e) => mux_known(out[c as usize], out[t as usize], out[e as usize]),
        Cell::BoxOut(_, _) => None,
    }
}

fn and_known(a: Option<bool>, b: Option<bool>) -> Option<bool>
    ensures { result ≡ and3 a b }
{
    match (a, b) {
        (Some(false), _) | (_, Some(false)) => Some(false),
        (Some(true), Some(true)) => Some(true),
        _ => None,
    }
}

fn or_known(a: Option<bool>, b: Option<bool>) -> Option<bool>
    ensures { result ≡ or3 a b }
{
    match (a, b) {
        (Some(true), _) | (_, Some(true)) => Some(true),
        (Some(false), Some(false)) => Some(false),
        _ => None,
    }
}

fn xor_known(a: Option<bool>, b: Option<bool>) -> Option<bool>
    ensures { result ≡ xor3 a b }
{
    match (a, b) {
        (Some(a), Some(b)) => Some(a != b),
        _ => None,
    }
}

fn mux_known(c: Option<bool>, t: Option<bool>, e: Option<bool>) -> Option<bool>
    ensures { result ≡ mux3 c t e }
{
    match c {
        Some(true) => t,
        Some(false) => e,
        None => same_known(t, e),
    }
}

// IEEE 1364-2005, 5.1.13: where the condition is unknown, equal data pass.
fn same_known(t: Option<bool>, e: Option<bool>) -> Option<bool>
    ensures { result ≡ same3 t e }
{
    match (t, e) {
        (Some(t), Some(e)) if t == e => Some(t),
        _ => None,
    }
}

/// The equations of three values have a solution, defined cell by cell: a cell reads only earlier ones.
pub fn tern_exists()
    ensures { (net : Netlist) (x : List Bool) → IsOrdered net → IsTern net x (tern net x) }
{}

/// They have no other: two solutions agree from the front on, cell by cell.
pub fn tern_is_unique()
    ensures { (net : Netlist) (x : List Bool) (values : List (Option Bool)) → IsOrdered net → IsTern net x values
        → values ≡ tern net x }
{}

/// Soundness of three-valued simulation: a known value holds for all contents of the boxes.
pub fn known_is_value()
    ensures { (net : Netlist) (x : List Bool) (box : ℕ → ℕ → List Bool → Bool) (place : ℕ) (bit : Bool)
        → tern_of (tern net x) place ≡ Some bit → bit_of (value_of net x box) place ≡ bit }
{}

/// Without boxes every value is known, so a specification goes through the same code as an implementation.
pub fn known_without_boxes()
    ensures { (net : Netlist) (x z : List Bool) → IsNetlist net → net.boxes ≡ []
        → tern net x ≡ map Some (flat net x z) }
{}
