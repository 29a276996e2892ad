//! A law of patterns, as the contract of an empty function: crates above call it and cite no proof of this one.

ghost use Rattle.bb_tern.specs.Patterns.{PatternsAreVectors};

/// Each pattern has one bit an input, so it is a vector of the pair.
pub fn patterns_are_vectors()
    ensures { PatternsAreVectors }
{}
