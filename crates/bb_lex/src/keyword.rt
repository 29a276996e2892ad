//! Reserved words as the grammar sees them. A word that no rule of the grammar names needs no variant of its own, only
//! to be no name.

/// The reserved words (IEEE 1364-2005, annex B) that the grammar uses, and `Other` for all the rest: a text that uses
/// `begin` is refused as a statement, and never has a net of that name.
#[derive(Clone, Copy, Debug, PartialEq, Eq)]
pub enum Keyword {
    Module,
    Endmodule,
    Input,
    Output,
    Wire,
    Reg,
    Supply0,
    Supply1,
    Assign,
    Always,
    Posedge,
    Negedge,
    And,
    Nand,
    Or,
    Nor,
    Xor,
    Xnor,
    Buf,
    Not,
    Other,
}
