//! The grammar of the language, a profile of IEEE 1364-2005, Annex A: recursive descent from a list of tokens to the
//! source that it means, or to its first fault. Each function computes one rule of `specs/Inside`, and laws tie these
//! rules to the grammar in `specs/`, which is written as definite clauses and mentions no order of reading.
#![tactic(auto)]

mod cursor;
mod decl;
mod expr;
mod fault;
mod gates;
mod header;
mod instances;
mod items;
pub mod laws;
mod list;
mod lval;
mod made;
mod names;
mod operators;
mod reader;
mod select;
mod statement;
mod stop;

pub use fault::ParseFault;
pub use reader::source;
