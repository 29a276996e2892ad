//! What a check finds: a witness, so that a reader can simulate it and need not believe the BDDs.

/// A vector at which the implementation is wrong, and the first output for which there is one; `output` is none from
/// the check of all outputs together.
#[derive(Debug, Drop)]
pub struct Found {
    pub output: Option<u32>,
    /// A bit for each input, the first input first.
    pub input: Vec<bool>,
}
