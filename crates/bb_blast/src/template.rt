//! Module templates: a module is bit-blasted once, however many instances it has.
//!
//! All scopes of a module have the same bits in the same order, net by net and in a net from the leftmost on. So a
//! template numbers bits relative to a scope, and to instantiate it takes one addition a bit and no second lowering of
//! expressions.

use crate::logic::Logic;
use bb_ast::Gate;

/// A construct of a module. Bits are numbers among the bits of a scope of the module, and `pin` has numbers among those
/// of the instance's scope, most significant first. Instances are numbered in text order.
#[derive(Debug, Drop)]
pub enum Part {
    /// The assignment of a declared wire too.
    Assignment {
        left: Vec<u32>,
        right: Logic,
    },
    /// Each input has one bit; only `buf` and `not` have more than one output.
    Gate {
        gate: Gate,
        outs: Vec<u32>,
        ins: Vec<Logic>,
    },
    /// `right` is the next state, taken at an edge of the bit `clock`.
    Register {
        left: Vec<u32>,
        right: Logic,
        clock: u32,
        falling: bool,
    },
    /// A `supply0` or `supply1` net.
    Supply {
        high: bool,
        bits: Vec<u32>,
    },
    /// `value` drives the bits `pin` of the instance.
    Input {
        instance: u32,
        pin: Vec<u32>,
        value: Logic,
    },
    /// The bits `pin` of the instance drive `left`.
    Output {
        instance: u32,
        pin: Vec<u32>,
        left: Vec<u32>,
    },
}

/// The number of a scope's first bit turns each number in it into one of the design.
#[derive(Debug, Drop)]
pub struct ModuleTemplate {
    /// The number of the first bit of each net.
    pub starts: Vec<u32>,
    /// Bits of one scope, without those of the instances in it.
    pub bits: u32,
    /// Port by port, each from the leftmost bit on.
    pub inputs: Vec<u32>,
    /// Port by port, each from the leftmost bit on.
    pub outputs: Vec<u32>,
    /// In text order.
    pub parts: Vec<Part>,
}
