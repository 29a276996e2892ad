//! Laws of propagation and of additions. Each function has laws as its contract and does nothing, so that crates above
//! take a law by a call and cite no proof of this crate.

ghost use Rattle.bb_rup.specs.Laws.{PropagationLaws, AdditionsLaws};

/// A clause follows or not, whatever the order of propagation; what follows stays so with more clauses and more
/// literals.
#[tactic(auto, using(crate::proofs::Propagations::propagation_laws))]
pub fn propagation()
    ensures { PropagationLaws }
{}

/// After additions that succeed no assignment satisfies the clauses; and there is exactly one answer.
#[tactic(auto, using(crate::proofs::Successes::additions_laws))]
pub fn additions()
    ensures { AdditionsLaws }
{}
