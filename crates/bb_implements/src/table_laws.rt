//! Contents of boxes as tables: contents go by path, tables by the order of a netlist. Each function has a law as its
//! contract and does nothing.

ghost use Rattle.bb_implements.specs.Laws.ContentTables.{TablesGiveValues, ContentsHaveTables, TablesHaveContents};
ghost use Rattle.bb_implements.specs.Laws.ContentTables.{TablesGiveOutputs};

use crate::list_laws::implementing_nets_give_outputs;
use bb_bits::{rows_are_chosen, rows_are_tables, rows_have_shape};
use bb_net::value_goes_by_boxes;

/// A netlist has the same value by tables as by the contents whose tables they are, since only rows at the bits of
/// input pins are looked up.
pub fn tables_give_values()
    ensures { TablesGiveValues }
{
    value_goes_by_boxes();
    rows_are_chosen();
}

/// Contents that fit a design have tables in a netlist that implements it: checks may range over tables where verdicts
/// range over contents.
pub fn contents_have_tables()
    ensures { ContentsHaveTables }
{
    rows_are_tables();
}

/// Tables that fit the boxes are those of contents that fit the design; for this no two boxes may have one path.
pub fn tables_have_contents()
    ensures { TablesHaveContents }
{
    rows_have_shape();
}

/// In each world of a vector the cut outputs have the bits that the netlist gives by tables, so simulation of tables
/// speaks of the design.
pub fn tables_give_outputs()
    ensures { TablesGiveOutputs }
{
    implementing_nets_give_outputs();
    tables_give_values();
}
