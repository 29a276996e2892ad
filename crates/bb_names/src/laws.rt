//! Laws of faults: the contract of each empty function. They follow from one definition: the faults of a source are a
//! list, and the first is its head.

ghost use Rattle.bb_names.specs.Laws.{SoundOrFault, NotSoundAndFault, FirstFaultsAreOne};

/// The list of faults is empty, or it has a head.
#[tactic(auto, using(crate::proofs::FaultLaws::sound_or_fault))]
pub fn sound_or_fault()
    ensures { SoundOrFault }
{}

/// An empty list has no head.
#[tactic(auto, using(crate::proofs::FaultLaws::not_sound_and_fault))]
pub fn not_sound_and_fault()
    ensures { NotSoundAndFault }
{}

/// So a refusal names one fault, for every checker of the same rules.
#[tactic(auto, using(crate::proofs::FaultLaws::first_faults_are_one))]
pub fn first_faults_are_one()
    ensures { FirstFaultsAreOne }
{}
