//! Laws of modules by numbers. The function has the laws as its contract and does nothing.

ghost use Rattle.bb_blast.specs.Laws.ModuleLaws.{ModuleLaws};

/// One record, which a lemma takes as one argument instead of each law by itself.
pub fn laws_of_modules()
    ensures { ModuleLaws }
{}
