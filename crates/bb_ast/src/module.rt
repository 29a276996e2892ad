//! Modules and their items (IEEE 1364-2005, A.1 to A.4 and A.6, in a profile), as they are written: nothing is resolved
//! here, so that faults of names can be reported at the statement that has them.

use crate::expr::Expr;
use bb_bits::Name;
use smallvec::SmallVec;

/// Modules are in text order, which decides whose fault is reported first.
#[derive(Debug, Drop)]
pub struct Source {
    pub modules: Vec<Module>,
}

/// `line` is that of the header's first token; `heads` and `items` are in text order, since the first declaration of a
/// name counts and a second one is a fault.
#[derive(Debug, Drop)]
pub struct Module {
    pub name: Name,
    pub line: u32,
    pub heads: Vec<Head>,
    pub items: Vec<Item>,
}

/// `decl` is none where the header only names its ports; a direction has to come from an item then.
#[derive(Debug, Drop)]
pub struct Head {
    pub name: Name,
    pub decl: Option<Port>,
}

/// `kind` is none where no `wire` or `reg` is written, so that a later declaration can give one.
#[derive(Clone, Copy, Debug, PartialEq, Eq)]
pub struct Port {
    pub dir: Dir,
    pub kind: Option<PortKind>,
    pub range: Option<Range>,
}

/// Without `inout`: a bit has one driver here.
#[derive(Clone, Copy, Debug, PartialEq, Eq)]
pub enum Dir {
    Input,
    Output,
}

/// No supply is among these: a port that is a supply net is a fault.
#[derive(Clone, Copy, Debug, PartialEq, Eq)]
pub enum PortKind {
    Wire,
    Reg,
}

/// As written: `left` is the index of the most significant bit, and may be the smaller one.
#[derive(Clone, Copy, Debug, PartialEq, Eq)]
pub struct Range {
    pub left: u32,
    pub right: u32,
}

/// `line` is that of the item's first token, at which its faults are reported.
#[derive(Debug, Drop)]
pub struct Item {
    pub line: u32,
    pub body: Body,
}

/// The first word of an item decides which it is; an item without one is a list of instances.
#[derive(Debug, Drop)]
pub enum Body {
    /// `input` or `output`, for each of the names.
    Ports(Port, Vec<Name>),
    /// `wire`; each name may have an assignment.
    Nets(Option<Range>, Vec<(Name, Option<Expr>)>),
    Regs(Option<Range>, Vec<Name>),
    /// `supply0` is false, `supply1` is true.
    Supply(bool, Option<Range>, Vec<Name>),
    /// `assign`: pairs of a left and a right side.
    Assign(Vec<(Expr, Expr)>),
    /// Gates of one function, in text order.
    Gates(Gate, Vec<GateCall>),
    /// The module's name, which may come later in the text, and its instances.
    Calls(Name, Vec<Call>),
    Always(Always),
}

/// Gates with two values (IEEE 1364-2005, 7.2 and 7.3); tri-state gates and switches are no part of the language.
#[derive(Clone, Copy, Debug, PartialEq, Eq)]
pub enum Gate {
    And,
    Nand,
    Or,
    Nor,
    Xor,
    Xnor,
    Buf,
    Not,
}

/// Terminals are in text order, outputs first. The name is kept, but nothing is asked of it: two gates may share one.
/// Four terminals are kept without an allocation, which is most gates of a netlist.
#[derive(Debug, Drop)]
pub struct GateCall {
    pub name: Option<Name>,
    pub terms: SmallVec<Expr, 4>,
}

/// Unlike a gate, an instance needs a name: boxes are called by the path of their instances.
#[derive(Debug, Drop)]
pub struct Call {
    pub name: Name,
    pub conns: Conns,
}

/// By order, where none is an open connection, or by the names of ports.
#[derive(Debug, Drop)]
pub enum Conns {
    Order(Vec<Option<Expr>>),
    Named(Vec<(Name, Option<Expr>)>),
}

/// `left` takes the value of `right` at the edge of `clock`: the falling one if `falling`, else the rising one.
#[derive(Debug, Drop)]
pub struct Always {
    pub falling: bool,
    pub clock: Expr,
    pub left: Expr,
    pub right: Expr,
}
