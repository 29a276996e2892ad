//! Structural hashing of netlists without boxes (AIG-like, with xor and mux kept), the miter of two netlists, and
//! windows for SAT sweeping. Only equality of bits is proved: that no gate occurs twice is not, since no answer depends
//! on it.
#![tactic(auto)]

mod bit_laws;
mod choices;
mod copying;
mod cutting;
mod gates;
mod hashed;
mod inverters;
mod joining;
mod key;
mod parts;
mod places;
mod sweeping;

pub use bit_laws::bits;
pub use copying::{Merger, Unmerged, copy};
pub use cutting::{Window, window_of};
pub use hashed::Hashed;
pub use joining::miter;
pub use sweeping::swept;
