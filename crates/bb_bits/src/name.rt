//! Names as lists of bytes. A name copies its bytes, so that it outlives the text that it was read from; it compares,
//! orders and hashes by its bytes, so that maps by names are maps by lists of bytes, which is what the definitions
//! speak of.

ghost use Rattle.std.specs.Prelude.{◌≡◌, ℕ, List, IfOk, IsTrue, ◌↔◌};
ghost use Rattle.std.proofs.Common.{rules};
ghost use Rattle.std.specs.Cmp.{partial_order_from_own_ties};
ghost use Rattle.std.specs.Cmp.Rules.{comparing, hashing};
ghost use Rattle.std.specs.Ordering.{as_partial_cmp, nat_cmp};
ghost use Rattle.std.specs.Cmp.Lexicographic.{slice_cmp};
ghost use Rattle.std.specs.Hash as fed;
ghost use Rattle.bb_bits.specs.Names.{same_name};

use crate::NoMemory;
use std::alloc::Global;
use std::cmp::Ordering;
use std::hash::{Hash, Hasher};
use std::marker::Model;

/// Ordered as in a dictionary, byte by byte; a prefix comes first.
#[derive(Debug, Drop)]
pub struct Name {
    bytes: Vec<u8>,
}

impl Model for Name {
    ghost Value = { List ℕ };

    ghost view = { λ n. n.bytes.items };
}

impl Name {
    /// The bytes are copied; any bytes make a name, printable or not.
    pub fn of(alloc: Global, bytes: &[u8]) -> Result<Name, NoMemory>
        ensures ok { IfOk result (λ name. name ≡ bytes.now) }
    {
        let bytes = Vec::from_slice(alloc, bytes)?;
        Ok(Name { bytes })
    }

    /// Without a backslash, also where the name was an escaped identifier.
    pub fn bytes(&self) -> &[u8]
        ensures bytes { result.now ≡ self.now }
    {
        &self.bytes
    }
}

impl Clone for Name {
    ghost is_clone = { λ name copy. copy ≡ name };

    fn clone(&self) -> Result<Name, NoMemory> {
        let bytes = Vec::from_slice(*self.bytes.allocator(), &self.bytes)?;
        Ok(Name { bytes })
    }
}

impl PartialEq for Name {
    ghost eq = { same_name };

    ghost laws = { Prim.search (comparing, rules) };

    fn eq(&self, other: &Name) -> bool {
        self.bytes == other.bytes
    }
}

impl Eq for Name {
    ghost laws = { Prim.search (comparing, rules) };
}

impl Ord for Name {
    ghost cmp = { slice_cmp nat_cmp };

    ghost total = { Prim.search (comparing, rules) };

    ghost matches_partial_cmp = { Prim.search (comparing, rules) };

    ghost matches_eq = { Prim.search (comparing, rules) };

    fn cmp(&self, other: &Name) -> Ordering {
        self.bytes.cmp(&other.bytes)
    }
}

impl PartialOrd for Name {
    ghost partial_cmp = { as_partial_cmp (slice_cmp nat_cmp) };

    ghost laws = { partial_order_from_own_ties (Prim.search (comparing, rules))
        (Prim.search (comparing, rules)) };

    fn partial_cmp(&self, other: &Name) -> Option<Ordering> {
        Some(self.cmp(other))
    }
}

impl Hash for Name {
    ghost hash_input = { fed.slice fed.u8 };

    ghost respects_eq = { Prim.search (hashing, rules) };

    fn hash<H: Hasher>(&self, state: &mut H) {
        self.bytes.hash(state);
    }
}

/// Lets a proof replace the test by equality of lists.
pub fn same_name_is_equality()
    ensures { (a b : List ℕ) → IsTrue (same_name a b) ↔ (a ≡ b) }
{}
