//! The syntax of a text: modules, headers, declarations, gates, instances, registers and expressions. Types and no
//! reader: names, designs and everything above rest on this crate, so they are proved without the parser, and another
//! reader of the same syntax, or syntax that is made, changes none of them.
#![tactic(auto)]

mod expr;
pub mod laws;
mod module;
mod operators;

pub use expr::{Expr, Op};
pub use module::{
    Always, Body, Call, Conns, Dir, Gate, GateCall, Head, Item, Module, Port, PortKind, Range,
    Source,
};
pub use operators::{FoldOp, WordOp};
