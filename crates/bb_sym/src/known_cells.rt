//! 0-1-X simulation of an implementation over all vectors at once, in dual-rail encoding; a box output is X everywhere.
//! Each gate is a fixed sequence of joins of its operands' tables, which the definitions repeat, so what the store
//! makes is what they list. Only the inputs are variables: no pin has one.

ghost use Rattle.std.specs.Prelude.{◌≡◌, [], length, IfOk, OnOk, IsErrOf};
ghost use Rattle.std.specs.List.{flat_map};
ghost use Rattle.bb_net.specs.Netlists.{ReadsBefore};
ghost use Rattle.bb_sym.specs.Functions.{known_tables};
ghost use Rattle.bb_sym.specs.Plain.{cell_numbers};
ghost use Rattle.bb_sym.specs.Inside.Made.{Makes, AreTooMany};
ghost use Rattle.bb_sym.specs.Inside.Rails.{AreAllRails, HaveRails, HaveAllRails, rails_at, cell_rails, tables_made};
ghost use Rattle.bb_sym.specs.Inside.Rails.{known_rails};

use crate::RungFault;
use crate::cells::leaf;
use crate::known_gates::{DualRail, known_and, known_input, known_mux, known_or, known_xor};
use bb_dd::Diagrams;
use bb_net::{Cell, Net, tern_exists};
use bb_uniq::laws;
use std::alloc::Global;

pub(crate) fn known_cells(
    alloc: Global,
    d: &mut Diagrams,
    net: &Net,
) -> Result<Vec<DualRail>, RungFault>
    requires vars { net.now.inputs ≡ d.old.store.vars }
    ensures count { IfOk result (λ made. length made.items ≡ length net.now.cells) }
    ensures rails { IfOk result (λ made. HaveAllRails d.new.store (known_rails net.now) made.items) }
    ensures makes { OnOk result (Makes d.old.store d.new.store (flat_map (known_tables net.now)
        (cell_numbers net.now))) }
    ensures nodes { IsErrOf result RungFault.Nodes
        → AreTooMany d.old.store (flat_map (known_tables net.now) (cell_numbers net.now)) }
{
    tern_exists();
    let cells = net.cells();
    let mut made = Vec::with_capacity(alloc, cells.len())?;
    for cell in cells {
        let known = known_cell(d, *cell, &made)?;
        made.push(known)?;
    }
    Ok(made)
}

fn known_cell(d: &mut Diagrams, cell: Cell, made: &[DualRail]) -> Result<DualRail, RungFault>
    requires reads { ReadsBefore d.old.store.vars [] (length made.now) cell }
    requires made { AreAllRails d.old.store made.now }
    ensures rails { IfOk result (HaveRails d.new.store (cell_rails d.old.store.vars (rails_at d.old.store made.now)
        cell)) }
    ensures makes { OnOk result (Makes d.old.store d.new.store (tables_made d.old.store.vars
        (rails_at d.old.store made.now) cell)) }
    ensures nodes { IsErrOf result RungFault.Nodes
        → AreTooMany d.old.store (tables_made d.old.store.vars (rails_at d.old.store made.now) cell) }
{
    laws::stores();
    laws::growth();
    d.is_canonical();
    match cell {
        Cell::Const(bit) => Ok(DualRail {
            one: leaf(bit),
            zero: leaf(!bit),
        }),
        Cell::Input(i) => known_input(d, i),
        Cell::BoxOut(_, _) => Ok(DualRail {
            one: leaf(false),
            zero: leaf(false),
        }),
        Cell::Not(a) => Ok(DualRail {
            one: made[a as usize].zero,
            zero: made[a as usize].one,
        }),
        Cell::And(a, b) => known_and(d, made[a as usize], made[b as usize]),
        Cell::Or(a, b) => known_or(d, made[a as usize], made[b as usize]),
        Cell::Xor(a, b) => known_xor(d, made[a as usize], made[b as usize]),
        Cell::Mux(c, t, e) => known_mux(d, made[c as usize], made[t as usize], made[e as usize]),
    }
}
