//! The options of a comparison: all that is requested of two texts but the texts themselves. Bounds of checks are a
//! value of their own, which the checks take without knowing of texts.

use bb_bits::Name;
use bb_checks::Options;

/// Names of tops, the care output, and what to run and print.
#[derive(Debug, Drop)]
pub struct TextComparison {
    /// None: the module that no module instantiates.
    pub spec_top: Option<Name>,
    /// None: the module that no module instantiates.
    pub imp_top: Option<Name>,
    /// The care output: a bit of an output port of the specification, which is not compared itself. Other outputs and
    /// next states have to be equal where it is 1; without one, everywhere.
    pub care: Option<Name>,
    /// Whether the care output is meant as an invariant: then the checks run only if each clock event keeps it.
    pub invariant: bool,
    /// Whether the filled implementation follows the verdict `repairable`.
    pub fill: bool,
    /// Which checks run, and their bounds.
    pub options: Options,
}
