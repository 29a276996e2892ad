//! Laws of the definitions. Each function has laws as its contract and does nothing, so that crates above take a law by
//! a call and cite no proof of this crate.

ghost use Rattle.bb_cnf.specs.Laws.{ChainLaws, SoundnessLaws, RefutationsExist, LinesFixProofs, ModelLaws};

/// Chains and lists of steps can be split and joined, and stay what they are when further clauses come after the
/// earlier ones: a loop over steps is proved by this.
#[tactic(auto, using(crate::proofs::ChainLaws::chain_laws))]
pub fn chains()
    ensures { ChainLaws }
{}

/// Soundness: an assignment that satisfies the given clauses satisfies each derived one, so a refutation leaves none.
#[tactic(auto, using(crate::proofs::Soundness::soundness_laws))]
pub fn refutations()
    ensures { SoundnessLaws }
{}

/// Completeness (Robinson, 1965): clauses that no assignment satisfies have a refutation.
pub fn refutations_exist()
    ensures { RefutationsExist }
{}

/// The printed proof determines its clauses and the numbers of its steps, where these have at most 64 digits.
pub fn lines_fix_proofs()
    ensures { LinesFixProofs }
{}

/// Satisfaction under more or fewer clauses, and models as finite lists of bits.
#[tactic(auto, using(crate::proofs::ModelLaws::model_laws))]
pub fn models()
    ensures { ModelLaws }
{}
