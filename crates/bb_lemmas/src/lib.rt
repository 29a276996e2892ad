//! Lemmas of lists, numbers and bits that the proofs of several crates cite; there is no code. They are the only lemmas
//! that may be cited across crates: they have no word of circuits, so nothing about the code of a crate becomes known
//! above it by them. Any other lemma that two crates need is a law of the lower one.
#![tactic(auto)]
