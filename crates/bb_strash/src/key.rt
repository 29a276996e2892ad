//! Keys of hashed gates: only the normal forms have one, since all others are turned into these before they are looked
//! up.

use bb_net::Cell;
use indexmap::IndexMap;

/// Or has no key, as it becomes an and of inverters.
#[derive(Clone, Copy, Debug, PartialEq, Eq, Hash)]
pub(crate) enum Key {
    Not(u32),
    And(u32, u32),
    Xor(u32, u32),
    Mux(u32, u32, u32),
    Other,
}

/// A hint: a place from here is compared with the cell there before it is used.
pub(crate) type Index = IndexMap<Key, u32>;

impl Key {
    pub(crate) fn of(cell: Cell) -> Key {
        match cell {
            Cell::Not(a) => Key::Not(a),
            Cell::And(a, b) => Key::And(a, b),
            Cell::Xor(a, b) => Key::Xor(a, b),
            Cell::Mux(c, t, e) => Key::Mux(c, t, e),
            Cell::Const(_) | Cell::Input(_) | Cell::Or(_, _) | Cell::BoxOut(_, _) => Key::Other,
        }
    }
}
