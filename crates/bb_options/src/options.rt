//! The options of a run. Bounds are on what a check holds (patterns, nodes, clauses) and not on time, so that a report
//! is the same on every machine.

use crate::rung::Rung;

/// All bounds are checked when the words are read; `AreBounds` has them as a definition.
#[derive(Clone, Copy, Debug)]
pub struct Options {
    pub from: Rung,
    /// The last check, never before `from`, so that a report always has the line of a check.
    pub to: Rung,
    /// Whether the checks go on after one that finds an error.
    pub all: bool,
    /// Patterns drawn at random, in addition to those that are always tried; at most 4,096.
    pub patterns: u32,
    /// The seed of the generator, at least 1.
    pub seed: u64,
    /// The node limit of a check by BDDs, at most 50,000,000.
    pub nodes: u32,
    /// The entries of the BDD operation cache, 1 to 1,048,576.
    pub cache: u32,
    /// The clause limit of an expansion, at most 8,000,000.
    pub clauses: u32,
    /// Whether an error that the expansion finds is reported with its proof.
    pub proof: bool,
    /// Whether all instances of one black-box module share one content, which is reported under the module's name;
    /// otherwise each has its own.
    pub shared: bool,
}
