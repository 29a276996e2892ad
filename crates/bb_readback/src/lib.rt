//! The filled module as a design: a module of one-bit nets, with no box and no instance. Laws only, in a crate of their
//! own, since they rest on the meaning of designs (`bb_design`), and the printer should not wait for that; the top call
//! alone needs both.
#![tactic(auto)]

mod laws;

pub use laws::{
    filled_designs_are_counted, filled_designs_are_named_the_same, filled_designs_are_sound,
    filled_designs_have_bits, filled_modules_are_sound, filled_modules_are_tops,
    filled_texts_are_read,
};
