//! Keys of cached results. One enum serves operations and quantifiers, so both share one cache and its capacity.

ghost use Rattle.std.specs.Prelude.{◌≡◌, ◌<◌, ◌*◌, ◌+◌, ◌^◌, true};
ghost use Rattle.std.specs.Hash as fed;
ghost use Rattle.std.specs.Cmp.Rules.{hashing};
ghost use Rattle.std.proofs.Common.{rules};
ghost use Rattle.bb_dd.specs.Inside.Keys.{kind_of, four_fields, number_of_key};

use bb_uniq::Ref;
use std::hash::{Hash, Hasher};

/// An operation on up to three bits. `Ite` takes the second where the first is 1, else the third.
#[derive(Clone, Copy, Debug, PartialEq, Eq)]
pub enum Operation {
    Not,
    And,
    Or,
    Xor,
    Ite,
}

/// An operation on three diagrams, or a variable quantified in one, by "for all" or "exists". Operations of fewer
/// operands repeat the first one.
#[derive(Clone, Copy, Debug, PartialEq, Eq)]
pub enum Key {
    Apply {
        operation: Operation,
        f: Ref,
        g: Ref,
        h: Ref,
    },
    Quantify {
        all: bool,
        f: Ref,
        v: u32,
    },
}

fn kind(operation: Operation) -> u32
    ensures { result ≡ kind_of operation }
{
    match operation {
        Operation::Not => 0,
        Operation::And => 1,
        Operation::Or => 2,
        Operation::Xor => 3,
        Operation::Ite => 4,
    }
}

fn joined_fields(a: u32, b: u32, c: u32, d: u32) -> u128
    ensures { result ≡ four_fields a b c d }
{
    let above = (a as u128 * 4294967296 + b as u128) * 4294967296;
    (above + c as u128) * 4294967296 + d as u128
}

// One write instead of five: every step of an operation hashes a key.
impl Hash for Key {
    ghost hash_input = { λ k. fed.u128 (number_of_key k) };

    ghost respects_eq = { Prim.search (hashing, rules) };

    fn hash<H: Hasher>(&self, state: &mut H) {
        let fields = match *self {
            Key::Apply { operation, f, g, h } => joined_fields(kind(operation), f.0, g.0, h.0),
            Key::Quantify { all, f, v } => joined_fields(if all { 5 } else { 6 }, 0, f.0, v),
        };
        fields.hash(state);
    }
}

/// A cached result is used only for the key that it was made for: equal keys have equal fields.
pub fn same_keys()
    ensures same { (a b : Key) → ⟦<Key as PartialEq>⟧.eq a b ≡ true → a ≡ b }
    ensures equal { (a : Key) → ⟦<Key as PartialEq>⟧.eq a a ≡ true }
{}
