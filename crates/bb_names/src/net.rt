//! The nets of a module as later stages see them. Range, kind and direction are those of all declarations of a name
//! together, so that no later stage reads declarations again.

use bb_ast::{Dir, Range};
use bb_bits::Name;

/// `Zero` and `One` are the supply nets, which nothing else may drive.
#[derive(Clone, Copy, Debug, PartialEq, Eq)]
pub enum NetKind {
    Wire,
    Reg,
    Zero,
    One,
}

/// `range` is as written, most significant index first; none is one bit. `port` is none for a net that is no port.
#[derive(Debug, Drop)]
pub struct NetInfo {
    pub name: Name,
    pub range: Option<Range>,
    pub kind: NetKind,
    pub port: Option<Dir>,
}
