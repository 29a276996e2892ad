//! Steps on bits. A step reads earlier steps alone, so a list of steps is acyclic by its order. Nets are steps too, by
//! number, so that lowering needs to know nothing of where a net's bits come from.

/// Constants and bits of nets are steps beside the operators, so that every operand is the number of a step; only
/// operators are cells.
#[derive(Clone, Copy, Debug, PartialEq, Eq)]
pub enum BitStep {
    Const(bool),
    /// The place of the net among the nets of its module, and the place of the bit, counted from the leftmost, the most
    /// significant.
    Net(u32, u32),
    Not(u32),
    And(u32, u32),
    Or(u32, u32),
    Xor(u32, u32),
    /// The second operand if the first is 1, else the third.
    Mux(u32, u32, u32),
}

/// `bits` has for each bit of the value, the most significant first, the step that gives it; several bits may share one
/// step.
#[derive(Debug, Drop)]
pub struct Lowered {
    pub steps: Vec<BitStep>,
    pub bits: Vec<u32>,
}
