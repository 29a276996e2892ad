//! Laws of the definitions that clauses on files and sinks cite. Each function has a law as its contract and does
//! nothing.

ghost use Rattle.bb_outside.specs.Counts.{RoseIsGrowth};
ghost use Rattle.bb_outside.specs.Inside.MemFiles.{FirstOfTheNameCounts};

/// Counts saturate, so "it rose" also holds of a count at its last value: a premise that no failure was counted is then
/// never met.
pub fn rose_is_growth()
    ensures { RoseIsGrowth }
{}

/// Of two files of one name the first counts.
pub fn first_of_the_name_counts()
    ensures { FirstOfTheNameCounts }
{}
