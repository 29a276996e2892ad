//! The rules that a source may break. The faults of a source are one list in the order of report: statement by
//! statement, then kind by kind, then from the left, a larger construct before its parts. A source is sound where the
//! list is empty, and its first fault is the head, so that "first", "none earlier" and "only one" need no definitions
//! of their own. The place of a fault is the first token of what is at fault (a terminal, a connection, a select, a
//! number, an expression), and not that of the name that is reported.

mod expressions;
mod found;
mod gates;
mod instances;
mod items;
mod names;
mod pins;
mod registers;
mod roles;
mod selects;
mod statements;
mod widths;

pub(crate) use statements::check_module;
