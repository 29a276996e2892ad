//! The scopes of a design by numbers. Paths are not kept but read off upwards from a scope: a deep hierarchy then costs
//! one name a scope, and a path is joined only where it is reported.

use bb_bits::Name;

/// `scope` is the number of the scope that contains the instance, `name` its name there.
#[derive(Debug, Drop)]
pub struct Instance {
    pub scope: u32,
    pub name: Name,
}

/// Scopes are numbered in elaboration order, each before those below it. Bits are numbered scope by scope, in each in
/// net order.
#[derive(Debug, Drop)]
pub struct Placed {
    /// The index of its module among those of the text.
    pub module: usize,
    /// None for the top.
    pub instance: Option<Instance>,
    /// Whether it is a black box: an instance of a module without constructs.
    pub boxed: bool,
    /// The number of its first bit among those of the design.
    pub first: u32,
    /// The numbers of the scopes of its instances, in text order.
    pub children: Vec<u32>,
}
