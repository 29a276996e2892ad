//! Laws of these definitions, which a reader may expect of them. Each function has a law as its contract and does
//! nothing.

ghost use Rattle.bb_design.specs.Inside.Allowed.{SoundTextsAreAllowed};
ghost use Rattle.bb_design.specs.Laws.BitLaws.{PinTextsGoByModules};
ghost use Rattle.bb_design.specs.Laws.DesignLaws.{DesignLaws};
ghost use Rattle.bb_design.specs.Laws.DrivenWorlds.{ConstructsHoldBitByBit, WorldsAgreeWhereRead, VectorsHaveWorlds};
ghost use Rattle.bb_design.specs.Laws.DrivenWorlds.{WorldsAreDriven, SoundConstructsAreLegal};
ghost use Rattle.bb_design.specs.Laws.HierarchyLaws.{CalleesAreInstantiated, SoundTextsHaveModulesApart};
ghost use Rattle.bb_design.specs.Laws.HierarchyLaws.{SoundTextsHaveTargets, WalksAreByPlaces};
ghost use Rattle.bb_design.specs.Laws.{NotSoundAndRefused, FirstRefusalsAreOne, TopsAreMeant, PathsAreCalledApart};
ghost use Rattle.bb_design.specs.Laws.{WrittenBitsAreValue, SoundBitsAreThere, SoundOrRefused, ReadNeedsRead};
ghost use Rattle.bb_design.specs.Laws.{PathsLeadToScopes, SoundTextsHaveNamesApart};

use bb_bits::number_is_below;
use bb_expr::laws::{made_has_value, net_names_differ, values_have_width};

/// No text is sound and refused; with `sound_or_refused`, sound texts are exactly those that are not refused.
pub fn not_sound_and_refused()
    ensures { NotSoundAndRefused }
{}

/// A text has one first refusal at most, so what is reported of it is a function of the text.
pub fn first_refusals_are_one()
    ensures { FirstRefusalsAreOne }
{}

/// The top is the module of the given name, or else the one module that none instantiates: the definition means what it
/// is meant to.
pub fn tops_are_meant()
    ensures { TopsAreMeant }
{}

/// Paths of equal texts are equal unless the name of an instance is empty or has a dot, as an escaped one may: hence
/// the faults of repeated texts.
pub fn paths_are_called_apart()
    ensures { PathsAreCalledApart }
{}

/// The bits of a left side are those to which its value is written, in one order.
pub fn written_bits_are_value()
    ensures { WrittenBitsAreValue }
{
    values_have_width();
}

/// A construct holds in a world where each bit that it drives is what its source gives: the step from the definition of
/// worlds, by constructs, to proofs bit by bit.
pub fn constructs_hold_bit_by_bit()
    ensures { ConstructsHoldBitByBit }
{
    values_have_width();
    made_has_value();
    written_bits_are_value();
    number_is_below();
}

/// Driven and read bits are bits of the design. A design that is too deep is excluded: ports of instances on the first
/// level that is too deep are driven by scopes that are not listed.
pub fn sound_bits_are_there()
    ensures { SoundBitsAreThere }
{}

/// A text without faults is sound or has a first refusal, so elaboration refuses none without a cause.
pub fn sound_or_refused()
    ensures { SoundOrRefused }
{
    tops_are_meant();
    sound_bits_are_there();
}

/// What a read bit depends on is read, so bits that nothing reads cannot matter.
pub fn read_needs_read()
    ensures { ReadNeedsRead }
{}

/// Two worlds of one vector have the same bits wherever a bit is read, so outputs are functions of the vector and the
/// contents.
pub fn worlds_agree_where_read()
    ensures { WorldsAgreeWhereRead }
{
    read_needs_read();
}

/// Each vector and all contents have a world, so no statement about all worlds is vacuous.
pub fn vectors_have_worlds()
    ensures { VectorsHaveWorlds }
{}

/// A path leads to each scope, and each end of a path is a scope: scopes may be found by path as well as in the list.
pub fn paths_lead_to_scopes()
    ensures { PathsLeadToScopes }
{}

/// A world is one in which every driven bit is what its source gives: both ways to define it are the same.
pub fn worlds_are_driven()
    ensures { WorldsAreDriven }
{
    constructs_hold_bit_by_bit();
}

/// In a text without faults terminals and ports have the widths that worlds presuppose; this is what its checks are
/// for.
pub fn sound_constructs_are_legal()
    ensures { SoundConstructsAreLegal }
{}

/// In a text without faults instances of one module have different names, so a path leads to one scope.
pub fn sound_texts_have_names_apart()
    ensures { SoundTextsHaveNamesApart }
{}

/// In a text without faults modules have different names, so they may be found by place as well as by name.
#[tactic(auto, using(crate::proofs::SoundModules::sound_texts_have_modules_apart))]
pub fn sound_texts_have_modules_apart()
    ensures { SoundTextsHaveModulesApart }
{}

/// Scopes of one module have ports of the same texts, so shared contents need no check of names of pins.
pub fn pin_texts_go_by_modules()
    ensures { PinTextsGoByModules }
{}

/// In a text without faults what is instantiated is a module of the text; a black box is an empty module and no missing
/// one.
#[tactic(auto, using(crate::proofs::SoundModules::sound_texts_have_targets))]
pub fn sound_texts_have_targets()
    ensures { SoundTextsHaveTargets }
{}

/// A module instantiates the modules at the places of its callees: code walks by places, definitions by names.
pub fn callees_are_instantiated()
    ensures { CalleesAreInstantiated }
{}

/// The same for walks of several steps, as recursion, depth and size need.
pub fn walks_are_by_places()
    ensures { WalksAreByPlaces }
{}

/// A sound, well-formed text without faults has a design that is allowed, which other laws presuppose.
pub fn sound_texts_are_allowed()
    ensures { SoundTextsAreAllowed }
{}

/// One record, which a lemma takes as one argument instead of each law by itself.
pub fn laws_of_designs()
    ensures { DesignLaws }
{
    made_has_value();
    net_names_differ();
    worlds_are_driven();
    worlds_agree_where_read();
}
