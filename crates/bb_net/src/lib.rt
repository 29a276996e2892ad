//! Netlists with black boxes: numbered cells in topological order, their values, and the names of inputs, outputs,
//! registers and boxes.
//!
//! The types that carry names (`Flat`, `Reg`, `Pair`) are here and not beside elaboration, so that pairing and every
//! check rest on netlists alone: how a design becomes a netlist is nothing to them, and pairing is proved beside the
//! readers, without loading what elaboration promises.
#![tactic(auto)]

mod build;
mod cell;
mod conditions;
mod flat;
mod kinds;
mod loose;
mod net;
mod ordering;
mod pair;
mod parts;
mod rearranging;
mod sharing;
mod tables;
mod tern;
mod value;

pub use cell::Cell;
pub use conditions::{
    choices_are_tables, conditions_hold_or_not, conditions_weaken, hit_or_none, vectors_hold_or_not,
};
pub use flat::{Flat, FlatParts, Reg};
pub use kinds::{
    keys_are_shown, keys_have_kinds, kinds_are_counted, kinds_are_shown, kinds_may_differ,
    own_kinds, shared_tables_make_equivalent, tables_are_spread,
};
pub use loose::{Loose, LooseCell};
pub use net::{BoxPins, Net};
pub use ordering::{
    NetFault, Ordered, dependences, order, order_exists, order_has_no_walk, order_keeps_values,
};
pub use pair::{BoxName, OutName, Pair};
pub use rearranging::{rearranged_keeps_values, rearranged_nets_exist};
pub use tern::{known_is_value, known_without_boxes, tern_exists, tern_is_unique};
pub use value::{value_exists, value_goes_by_boxes, value_is_unique};
