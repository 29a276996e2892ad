//! Laws of the definitions, as contracts of empty functions: who needs a law calls its function and cites no proof of
//! this crate.

ghost use Rattle.bb_cdcl.specs.Laws.Numbers.{StepsMove};

/// Why steps may keep their numbers: moved, they derive the same clauses when more given ones come.
#[tactic(auto, using(crate::proofs::Moved::steps_move))]
pub fn steps_move()
    ensures { StepsMove }
{}
