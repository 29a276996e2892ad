//! Names, nets and faults: the modules of a source with their nets, or the first rule on names, ranges and widths that
//! it breaks (IEEE 1364-2005, clauses 4 to 7 and 12, in a profile). Values and cells of expressions are a crate of
//! their own above: the two share definitions and no lemma, and a new operator changes this one by its width alone.
#![tactic(auto)]

mod checked;
mod checking;
mod declaring;
mod fault;
mod faults;
mod implicit;
mod indexed;
pub mod laws;
mod net;
mod nets;
mod places;
mod sources;
mod summary;

pub use checked::{Checked, CheckedModule};
pub use checking::check;
pub use fault::NameFault;
pub use net::{NetInfo, NetKind};
