//! The law of the made pair: the contract of an empty function.

ghost use Rattle.bb_make.specs.Laws.{MadePairsAreOneWordApart};

/// The implementation is the specification with one word of one line exchanged, and one module after it. So that the
/// full adder fills the box can be seen from the texts alone.
pub fn made_pairs_are_one_word_apart()
    ensures { MadePairsAreOneWordApart }
{}
