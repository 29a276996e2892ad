//! Refutations as lists of resolution chains. A step names its clauses by number and each variable on which it
//! resolves, so checking it needs no search.

/// The chain begins with the clause `first`; each pair is the number of a clause and the variable on which the clause
/// so far is resolved with it. The step makes the next clause, numbered after all given and earlier ones.
#[derive(Debug, Drop)]
pub struct Step {
    pub first: u64,
    pub rest: Vec<(u64, u32)>,
}

/// The first step's clause has the number of given clauses as its number.
#[derive(Debug, Drop)]
pub struct Refutation {
    pub steps: Vec<Step>,
}
