//! Bits, names and tables, with the definitions of truth tables and of contents of boxes. Nothing here knows of
//! circuits, so a reader can believe these definitions before any netlist is defined.
#![tactic(auto)]

mod name;
mod number;
mod table;
pub mod truth;

pub use name::{Name, same_name_is_equality};
pub use number::{number_doubles, number_is_below, number_spelled, number_spelled_once};
pub use std::alloc::AllocError as NoMemory;
pub use table::{
    Table, rows_are_chosen, rows_are_tables, rows_have_shape, tables_have_all_bits,
    tables_have_few_inputs,
};
