//! Bit-blasting: each module of a design once, shared by all its instances, and the cells of all scopes as one
//! unordered netlist.
//!
//! Templates of modules and the list of cells are one crate because they share how bits are numbered.
#![tactic(auto)]

mod assigning;
mod bit_blasting;
mod box_cells;
mod calling;
mod cell_list;
mod connecting;
mod expression_steps;
mod gate_cells;
mod gating;
pub mod laws;
mod left_bits;
mod listing;
mod logic;
mod logic_cells;
mod module_context;
mod module_parts;
mod net_starts;
mod part_cells;
mod placed;
mod sources;
mod stored;
mod template;

pub use bit_blasting::module_templates;
pub use box_cells::moved;
pub use listing::list_cells;
pub use logic::{Logic, Operand, Operator};
pub use part_cells::template_of;
pub use placed::{Instance, Placed};
pub use stored::Stored;
pub use template::{ModuleTemplate, Part};
