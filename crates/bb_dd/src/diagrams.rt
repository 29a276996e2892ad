//! Store and cache together. A diagram's meaning is its truth table over all variables, so the contracts of operations
//! are equations of tables, and canonicity makes equivalence a comparison of numbers.

ghost use Rattle.std.specs.Prelude.{◌≡◌, ◌<◌, ◌≤◌, ℕ, [], ◌&&◌, ◌||◌, Some, length, IfOk, OnOk, OnErr, IsErrOf, IfSome};
ghost use Rattle.std.specs.Prelude.{IfNone, Contains};
ghost use Rattle.std.specs.Map.{lookup};
ghost use Rattle.lru.specs.LruCache.{lru_cache, promoted, put_entries};
ghost use Rattle.bb_bits.specs.Truth.{variable, complement_of_table, joined_tables, chosen, quantified, truth_at};
ghost use Rattle.bb_bits.specs.TruthSets.{HasSize};
ghost use Rattle.bb_uniq.specs.Inside.Nodes.{IsRef, IsBelow, IsNew, Gives, view_of};
ghost use Rattle.bb_uniq.specs.Inside.Meaning.{truth_of, branch, Adds, Keeps, IsTooMany, IsHeld, ViewMeans};
ghost use Rattle.bb_bits.specs.Bits.{xor};
ghost use Rattle.bb_dd.specs.Inside.Results.{quantifier, KeepsEntries};
ghost use Rattle.bb_dd.specs.Inside.State.{DiagramState, IsSound};

use crate::apply::{bit_at, make_node, operate};
use crate::cache::{look_up, put};
use crate::fault::DdFault;
use crate::key::{Key, Operation, same_keys};
use bb_bits::{NoMemory, truth};
use bb_uniq::{Ref, Store, View, laws};
use lru::LruCache;
use std::alloc::Global;
use std::marker::Model;
use std::num::NonZeroUsize;

/// BDDs over one store, with a cache of results. A diagram means its truth table over all variables, the first variable
/// most significant.
#[derive(Drop)]
pub struct Diagrams {
    store: Store,
    cache: LruCache<Key, Ref>,
}

impl Model for Diagrams {
    ghost use Rattle.bb_dd.specs.Inside.State.{DiagramState, IsSound};

    ghost Value = { DiagramState };

    ghost view = { λ d. record { store = d.store; entries = d.cache.entries; capacity = d.cache.cap } };

    ghost invariant = { λ d. IsSound (record { store = d.store; entries = d.cache.entries; capacity = d.cache.cap }) };
}

impl Diagrams {
    /// At most `limit` inner nodes and `cache` cached results. The room of the limit is taken here, so `Full` later
    /// never means want of memory.
    pub fn start(alloc: Global, vars: u32, limit: u32, cache: u32) -> Result<Diagrams, NoMemory>
        requires vars { vars ≤ 2048 }
        requires limit { limit ≤ 50000000 }
        requires cache_least { 1 ≤ cache }
        requires cache_most { cache ≤ 1048576 }
        ensures ok { IfOk result (λ d.
            d ≡ record { store = record { vars = vars; limit = limit; nodes = [] }; entries = []; capacity = cache }) }
    {
        let store = Store::start(alloc, vars, limit)?;
        match NonZeroUsize::new(cache as usize) {
            Some(capacity) => Ok(Diagrams {
                store,
                cache: LruCache::sparse(alloc, capacity)?,
            }),
            None => unreachable!(),
        }
    }

    /// Inner nodes, without the two leaves; the number of beads.
    pub fn len(&self) -> u32
        ensures nodes { result ≡ length self.now.store.nodes }
        ensures beads { HasSize (IsHeld self.now.store) result }
    {
        self.store.len()
    }

    /// A leaf, or a node with its children.
    pub fn view(&self, r: Ref) -> View
        requires { IsRef self.now.store r.0 }
        ensures view { result ≡ view_of self.now.store r.0 }
        ensures table { ViewMeans self.now.store r.0 result }
    {
        self.store.view(r)
    }

    /// For proofs: the store is reduced and ordered, each cached result is what its key defines, and Refs with one
    /// truth table are the same Ref.
    pub fn is_canonical(&self)
        ensures sound { IsSound self.now }
        ensures refs { (r q : ℕ) → IsRef self.now.store r → IsRef self.now.store q
            → truth_of self.now.store r ≡ truth_of self.now.store q → r ≡ q }
    {
        self.store.is_canonical();
    }

    /// `point` has a bit for each variable, the first first.
    pub fn at(&self, f: Ref, point: &[bool]) -> bool
        requires f { IsRef self.now.store f.0 }
        requires point { length point.now ≡ self.now.store.vars }
        ensures { result ≡ truth_at (truth_of self.now.store f.0) point.now }
    {
        bit_at(&self.store, f, point)
    }

    /// The node "`hi` where `var` is 1, else `lo`", reduced: equal children give that child, and a node that exists is
    /// shared. Children have to begin later than `var`.
    ///
    /// # Errors
    ///
    /// `Full` where the node is new and the store holds as many as it may. Store and cache are then as before.
    pub fn make(&mut self, var: u32, lo: Ref, hi: Ref) -> Result<Ref, DdFault>
        requires var { var < self.old.store.vars }
        requires lo { IsBelow self.old.store var lo.0 }
        requires hi { IsBelow self.old.store var hi.0 }
        ensures ok { IfOk result (λ r. Gives self.old.store self.new.store var lo.0 hi.0 r.0) }
        ensures adds { IfOk result (λ r. Adds self.old.store self.new.store (branch self.old.store var lo.0 hi.0) r.0) }
        ensures full { IsErrOf result DdFault.Full
            → IsNew self.old.store var lo.0 hi.0 × (length self.old.store.nodes ≡ self.old.store.limit) }
        ensures too_many { IsErrOf result DdFault.Full
            → IsTooMany self.old.store (branch self.old.store var lo.0 hi.0) }
        ensures err { OnErr result (self.new.store ≡ self.old.store) }
        ensures entries { self.new.entries ≡ self.old.entries }
        ensures capacity { self.new.capacity ≡ self.old.capacity }
    {
        make_node(&mut self.store, var, lo, hi)
    }

    /// A node is added at the first call for `v` only.
    pub fn var(&mut self, v: u32) -> Result<Ref, DdFault>
        requires { v < self.old.store.vars }
        ensures ok { IfOk result (λ r. Adds self.old.store self.new.store (variable self.old.store.vars v) r.0) }
        ensures full { IsErrOf result DdFault.Full → IsTooMany self.old.store (variable self.old.store.vars v) }
        ensures kept { Keeps self.old.store self.new.store }
        ensures entries { self.new.entries ≡ self.old.entries }
        ensures capacity { self.new.capacity ≡ self.old.capacity }
    {
        truth::tables();
        laws::stores();
        laws::growth();
        laws::steps();
        make_node(&mut self.store, v, Ref(0), Ref(1))
    }

    /// Has as many nodes as `f`: there are no complement edges.
    pub fn not(&mut self, f: Ref) -> Result<Ref, DdFault>
        requires { IsRef self.old.store f.0 }
        ensures ok { IfOk result (λ r.
            Adds self.old.store self.new.store (complement_of_table (truth_of self.old.store f.0)) r.0) }
        ensures full { IsErrOf result DdFault.Full
            → IsTooMany self.old.store (complement_of_table (truth_of self.old.store f.0)) }
        ensures kept { Keeps self.old.store self.new.store }
        ensures entries { KeepsEntries self.old.entries self.new.entries }
        ensures capacity { self.new.capacity ≡ self.old.capacity }
    {
        operate(&mut self.store, &mut self.cache, Operation::Not, f, f, f)
    }

    /// 1 where both are 1.
    pub fn and(&mut self, f: Ref, g: Ref) -> Result<Ref, DdFault>
        requires f { IsRef self.old.store f.0 }
        requires g { IsRef self.old.store g.0 }
        ensures ok { IfOk result (λ r. Adds self.old.store self.new.store
            (joined_tables ◌&&◌ (truth_of self.old.store f.0) (truth_of self.old.store g.0)) r.0) }
        ensures full { IsErrOf result DdFault.Full
            → IsTooMany self.old.store (joined_tables ◌&&◌ (truth_of self.old.store f.0)
            (truth_of self.old.store g.0)) }
        ensures kept { Keeps self.old.store self.new.store }
        ensures entries { KeepsEntries self.old.entries self.new.entries }
        ensures capacity { self.new.capacity ≡ self.old.capacity }
    {
        operate(&mut self.store, &mut self.cache, Operation::And, f, g, f)
    }

    /// 1 where at least one is 1.
    pub fn or(&mut self, f: Ref, g: Ref) -> Result<Ref, DdFault>
        requires f { IsRef self.old.store f.0 }
        requires g { IsRef self.old.store g.0 }
        ensures ok { IfOk result (λ r. Adds self.old.store self.new.store
            (joined_tables ◌||◌ (truth_of self.old.store f.0) (truth_of self.old.store g.0)) r.0) }
        ensures full { IsErrOf result DdFault.Full
            → IsTooMany self.old.store (joined_tables ◌||◌ (truth_of self.old.store f.0)
            (truth_of self.old.store g.0)) }
        ensures kept { Keeps self.old.store self.new.store }
        ensures entries { KeepsEntries self.old.entries self.new.entries }
        ensures capacity { self.new.capacity ≡ self.old.capacity }
    {
        operate(&mut self.store, &mut self.cache, Operation::Or, f, g, f)
    }

    /// 1 where the two differ.
    pub fn xor(&mut self, f: Ref, g: Ref) -> Result<Ref, DdFault>
        requires f { IsRef self.old.store f.0 }
        requires g { IsRef self.old.store g.0 }
        ensures ok { IfOk result (λ r. Adds self.old.store self.new.store
            (joined_tables xor (truth_of self.old.store f.0) (truth_of self.old.store g.0)) r.0) }
        ensures full { IsErrOf result DdFault.Full
            → IsTooMany self.old.store (joined_tables xor (truth_of self.old.store f.0)
            (truth_of self.old.store g.0)) }
        ensures kept { Keeps self.old.store self.new.store }
        ensures entries { KeepsEntries self.old.entries self.new.entries }
        ensures capacity { self.new.capacity ≡ self.old.capacity }
    {
        operate(&mut self.store, &mut self.cache, Operation::Xor, f, g, f)
    }

    /// `f` where `c` is 1, else `g`, made in one walk and not of joins, so no helper functions count.
    pub fn ite(&mut self, c: Ref, f: Ref, g: Ref) -> Result<Ref, DdFault>
        requires c { IsRef self.old.store c.0 }
        requires f { IsRef self.old.store f.0 }
        requires g { IsRef self.old.store g.0 }
        ensures ok { IfOk result (λ r. Adds self.old.store self.new.store
            (chosen (truth_of self.old.store c.0) (truth_of self.old.store f.0) (truth_of self.old.store g.0)) r.0) }
        ensures full { IsErrOf result DdFault.Full
            → IsTooMany self.old.store (chosen (truth_of self.old.store c.0) (truth_of self.old.store f.0)
            (truth_of self.old.store g.0)) }
        ensures kept { Keeps self.old.store self.new.store }
        ensures entries { KeepsEntries self.old.entries self.new.entries }
        ensures capacity { self.new.capacity ≡ self.old.capacity }
    {
        operate(&mut self.store, &mut self.cache, Operation::Ite, c, f, g)
    }

    /// The cached result of quantifying `v` in `f`, by "for all" or by "exists". Counts as a use.
    pub fn recall(&mut self, all: bool, f: Ref, v: u32) -> Option<Ref>
        requires f { IsRef self.old.store f.0 }
        requires v { v < self.old.store.vars }
        ensures some { IfSome result (λ r. Contains self.old.entries (Key.Quantify all f v, r)) }
        ensures none { IfNone result ((r : Ref) → Contains self.old.entries (Key.Quantify all f v, r) → ⊥) }
        ensures right { IfSome result (λ r. IsRef self.old.store r.0
            × (truth_of self.old.store r.0 ≡ quantified (quantifier all) v (truth_of self.old.store f.0))) }
        ensures found { result ≡ lookup (⟦<Key as PartialEq>⟧.eq (Key.Quantify all f v)) self.old.entries }
        ensures store { self.new.store ≡ self.old.store }
        ensures entries { self.new.entries
            ≡ promoted (⟦<Key as PartialEq>⟧.eq (Key.Quantify all f v)) self.old.entries }
        ensures capacity { self.new.capacity ≡ self.old.capacity }
    {
        same_keys();
        look_up(&mut self.cache, &Key::Quantify { all, f, v })
    }

    /// Caches a result of quantifying. Without memory all stays as it is, and the error may be ignored.
    pub fn keep(&mut self, all: bool, f: Ref, v: u32, r: Ref) -> Result<(), NoMemory>
        requires f { IsRef self.old.store f.0 }
        requires v { v < self.old.store.vars }
        requires r { IsRef self.old.store r.0 }
        requires right { truth_of self.old.store r.0 ≡ quantified (quantifier all) v (truth_of self.old.store f.0) }
        ensures ok { OnOk result (self.new.entries
            ≡ put_entries ⟦<Key as PartialEq>⟧.eq (lru_cache self.old.entries self.old.capacity)
            (Key.Quantify all f v) r) }
        ensures recalled { OnOk result (lookup (⟦<Key as PartialEq>⟧.eq (Key.Quantify all f v)) self.new.entries
            ≡ Some r) }
        ensures store { self.new.store ≡ self.old.store }
        ensures capacity { self.new.capacity ≡ self.old.capacity }
        ensures err { OnErr result (self.new ≡ self.old) }
    {
        same_keys();
        put(&mut self.cache, Key::Quantify { all, f, v }, r)
    }
}
