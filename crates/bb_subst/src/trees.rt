//! Multiplexer trees over the columns of tables (Shannon expansion by the input pins), without reduction: equal halves
//! keep their multiplexer, so the size depends on the number of pins alone.

ghost use Rattle.std.specs.Prelude.{◌≡◌, ◌+◌, ◌-◌, ◌^◌, ◌<◌, ◌≤◌, ℕ, false, true, All, length, IfOk, OnOk};
ghost use Rattle.bb_net.specs.declared.cell.Cell.TheVariants.{Const};
ghost use Rattle.bb_net.specs.Netlists.{Netlist, cell_at};
ghost use Rattle.bb_bits.specs.Tables.{column};
ghost use Rattle.bb_subst.specs.Inside.Filling.{GrowsBy, HasConstants};
ghost use Rattle.bb_subst.specs.Trees.{IsTree, IsInTree};

use bb_bits::{NoMemory, Table, tables_have_few_inputs};
use bb_net::{Cell, Net};
use std::alloc::Global;

/// Row 0 first.
pub(crate) fn column(alloc: Global, table: &Table, pin: u32) -> Result<Vec<bool>, NoMemory>
    requires pin { pin < table.now.outputs }
    ensures column { IfOk result (λ bits. bits.items ≡ column table.now pin) }
{
    tables_have_few_inputs();
    let inputs = table.inputs();
    let mut bits = Vec::new(alloc);
    for row in 0..1 << inputs {
        bits.push(table.bit(row, pin))?;
    }
    Ok(bits)
}

/// A column has a bit for each row. The first pin chooses between its halves, so it is the most significant. A tree
/// over n pins has 2^n - 1 multiplexers; its leaves are the constant cells.
pub(crate) fn add_tree(net: &mut Net, column: &[bool], pins: &[u32]) -> Result<u32, NoMemory>
    requires column { length column.now ≡ 2 ^ length pins.now }
    requires there { All (λ k. k < length net.old.cells) pins.now }
    requires constants { HasConstants net.old.cells }
    requires room { length net.old.cells + 2 ^ length pins.now < 2 ^ 32 }
    ensures grows { OnOk result (GrowsBy net.old net.new (2 ^ length pins.now - 1)) }
    ensures tree { IfOk result (IsTree net.new.cells pins.now column.now) }
    ensures only { IfOk result (λ root. (place : ℕ) → length net.old.cells ≤ place → place < length net.new.cells
        → IsInTree net.new.cells pins.now root place) }
{
    let Some((choice, rest)) = pins.split_first() else {
        return Ok(if column[0] { 1 } else { 0 });
    };
    let (lower, upper) = column.split_at(column.len() / 2);
    let low = add_tree(net, lower, rest)?;
    let high = add_tree(net, upper, rest)?;
    net.push(Cell::Mux(*choice, high, low))
}
