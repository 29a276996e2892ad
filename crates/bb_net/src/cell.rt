//! The cells to which gates and operators are lowered: enough that each operator on bits is one cell.

/// A constant, an input, a gate over earlier cells, or an output pin of a box.
///
/// Operands are places in the list of cells, counted from 0, as inputs, boxes and pins are. `Mux(c, t, e)` is `t` where
/// `c` is 1 and `e` where it is 0. `BoxOut(b, p)` is output pin `p` of box `b`.
#[derive(Clone, Copy, Debug, PartialEq, Eq)]
pub enum Cell {
    Const(bool),
    Input(u32),
    Not(u32),
    And(u32, u32),
    Or(u32, u32),
    Xor(u32, u32),
    Mux(u32, u32, u32),
    BoxOut(u32, u32),
}
