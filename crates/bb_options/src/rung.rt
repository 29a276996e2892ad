//! The checks of the ladder: simulation, then BDDs, then SAT. Later checks find all that earlier ones find, but the
//! report of an earlier one says more about an error: an output and a vector, then only a vector, then neither.

ghost use Rattle.std.specs.Prelude.{◌≡◌};
ghost use Rattle.bb_options.specs.Rungs.{rank, rung_name};

/// In the order of the ladder. Each check finds every error that the one before it finds, and more.
#[derive(Clone, Copy, Debug, PartialEq, Eq)]
pub enum Rung {
    /// Simulation of patterns in three values (0, 1, unknown), with unknown box outputs.
    Ternary,
    /// The same at all vectors, by BDDs.
    Symbolic,
    /// Each output alone: is it wrong at some vector, whatever the boxes give?
    Local,
    /// All outputs together: at some vector no box outputs make all of them right.
    Output,
    /// All outputs and all vectors, where each box sees its own inputs and those of the boxes before it. Exact with one
    /// box, and with nested boxes.
    Input,
    /// By SAT, over tables for the boxes and the vectors that are needed. Exact.
    Expand,
}

impl Rung {
    /// From 0 on, in the order of the ladder.
    pub fn rank(self) -> u8
        ensures rank { result ≡ rank self }
    {
        match self {
            Rung::Ternary => 0,
            Rung::Symbolic => 1,
            Rung::Local => 2,
            Rung::Output => 3,
            Rung::Input => 4,
            Rung::Expand => 5,
        }
    }

    /// As it is written in options and in reports.
    pub fn name(self) -> &'static str
        ensures name { result.now ≡ rung_name self }
    {
        match self {
            Rung::Ternary => "ternary",
            Rung::Symbolic => "symbolic",
            Rung::Local => "local",
            Rung::Output => "output",
            Rung::Input => "input",
            Rung::Expand => "expand",
        }
    }
}
