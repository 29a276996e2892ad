//! Laws of designs whose boxes are finished by modules. Each function has a law as its contract and does nothing.

ghost use Rattle.bb_replace.specs.Laws.{ReplacedWorldsAreWorlds, ReplacedStayEquivalent, ReplacedTextsAreSound};
ghost use Rattle.bb_replace.specs.Laws.{ReplacedKeepInterface, ReplacedAreAllowed, ModulesFinish, ReplacedTopsStay};

use bb_design::laws::laws_of_designs;

/// With modules in place of its boxes a design has no other worlds than with boxes, under the contents that the modules
/// compute, and each has the same vector and the same outputs.
pub fn replaced_worlds_are_worlds()
    ensures { ReplacedWorldsAreWorlds }
{
    laws_of_designs();
}

/// So it stays equivalent to a specification to which such contents make it equivalent.
pub fn replaced_stay_equivalent()
    ensures { ReplacedStayEquivalent }
{
    replaced_worlds_are_worlds();
}

/// A text without faults has none with modules in place of empty ones that stand alone: a statement asks of other
/// modules for their ports alone.
pub fn replaced_texts_are_sound()
    ensures { ReplacedTextsAreSound }
{}

/// A design with modules is compared like the design with boxes: it has the same ports and registers.
pub fn replaced_keep_interface()
    ensures { ReplacedKeepInterface }
{
    laws_of_designs();
}

/// With modules that stand alone a design is refused for its size alone: they bring no fault, no second driver, no bit
/// without a driver, no loop and no recursion. So it has worlds, and what is said of all of them is not vacuous.
pub fn replaced_are_allowed()
    ensures { ReplacedAreAllowed }
{
    laws_of_designs();
}

/// Modules for all boxes that compute contents which make the designs equivalent finish the design: what is claimed of
/// the design of a filled text holds of it. No text occurs here.
pub fn modules_finish()
    ensures { ModulesFinish }
{
    laws_of_designs();
    replaced_worlds_are_worlds();
    replaced_stay_equivalent();
    replaced_keep_interface();
    replaced_are_allowed();
}

/// Modules change no top, whether it is named or found, since they instantiate nothing.
pub fn replaced_tops_stay()
    ensures { ReplacedTopsStay }
{}
