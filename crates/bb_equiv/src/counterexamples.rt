//! Laws that vectors at which two designs differ are counterexamples, so that a verdict may be believed by simulating
//! them. Each function has a law as its contract and does nothing.

ghost use Rattle.bb_equiv.specs.Laws.Mistakes.{CounterexamplesExist, CounterexamplesRefute, MistakesAmongRefute};
ghost use Rattle.bb_equiv.specs.Laws.Mistakes.{MistakesRefute};
ghost use Rattle.bb_equiv.specs.Laws.Runs.{EventsShowCounterexamples};

/// Where no contents make two comparable designs equivalent, each contents has a counterexample: vectors are finitely
/// many, and at each of them the designs have the same bits or differ.
pub fn counterexamples_exist()
    ensures { CounterexamplesExist }
{}

/// Where each contents has a counterexample, none makes the designs equivalent.
pub fn counterexamples_refute()
    ensures { CounterexamplesRefute }
{}

/// Where one vector shows a mistake with all contents, none makes the designs equivalent.
pub fn mistakes_refute()
    ensures { MistakesRefute }
{}

/// Where each contents fails at one of several vectors, none makes the designs equivalent: an expansion refutes in this
/// way.
pub fn mistakes_among_refute()
    ensures { MistakesAmongRefute }
{}

/// A counterexample is observed over one clock event, from states with the bits of its vector. Whether a run reaches
/// these states is left open.
pub fn events_show_counterexamples()
    ensures { EventsShowCounterexamples }
{}
