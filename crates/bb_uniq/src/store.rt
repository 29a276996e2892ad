//! Reduced ordered BDD nodes as a list, with an index by content. That no node occurs twice is proved, since canonicity
//! rests on it: `bb_strash`, where only time does, tests its index instead. A store never shrinks, so a Ref stays
//! valid.

ghost use Rattle.std.specs.Prelude.{◌≡◌, ◌<◌, ◌≤◌, ℕ, IfOk, OnErr, IsErrOf, length, [], vec_capacity};
ghost use Rattle.bb_bits.specs.TruthSets.{HasSize};
ghost use Rattle.bb_uniq.specs.Inside.Nodes.{NodeStore, IsRef, IsBelow, view_of, IsStore, IsNew, Gives};
ghost use Rattle.bb_uniq.specs.Inside.Meaning.{IsHeld, Adds, IsTooMany, branch, truth_of, ViewMeans};
ghost use Rattle.bb_uniq.specs.Inside.Places.{IsNodeAt, IsAbsent};
ghost use Rattle.bb_uniq.specs.Inside.Probes.{ArePlaces, HasRoom};

use crate::places::{find, free_places, make_room, put};
use bb_bits::{NoMemory, truth};
use std::alloc::Global;
use std::marker::Model;

/// `Ref(0)` is false, `Ref(1)` is true, and inner node `n` is `Ref(n + 2)`.
#[derive(Clone, Copy, Debug, PartialEq, Eq, Hash)]
pub struct Ref(pub u32);

/// A node is `hi` where its variable is 1, else `lo`.
#[derive(Clone, Copy, Debug, PartialEq, Eq)]
pub enum View {
    Leaf(bool),
    Node { var: u32, lo: Ref, hi: Ref },
}

/// Comes from `make` only: the store has its room from the start.
#[derive(Clone, Copy, Debug, PartialEq, Eq)]
pub enum StoreFault {
    /// The node is new, and the store has as many as its limit. Want of memory never gives this.
    Full,
}

/// Children are numbers of Refs.
#[derive(Clone, Copy, Debug, PartialEq, Eq)]
pub struct Node {
    pub var: u32,
    pub lo: u32,
    pub hi: u32,
}

fn place_of(
    nodes: &mut Vec<Node>,
    places: &mut Vec<u32>,
    limit: usize,
    node: Node,
) -> Result<usize, StoreFault>
    requires limit { limit ≤ 50000000 }
    requires held { length nodes.old.items ≤ limit }
    requires node_room { limit ≤ vec_capacity nodes.old }
    requires places { ArePlaces places.old.items nodes.old.items }
    requires room { HasRoom limit (vec_capacity places.old) (length places.old.items) }
    ensures ok { IfOk result (λ k. IsNodeAt nodes.old.items nodes.new.items limit node k) }
    ensures full { IsErrOf result StoreFault.Full → (limit ≤ length nodes.old.items) × IsAbsent nodes.old.items node }
    ensures err { OnErr result (nodes.new.items ≡ nodes.old.items) }
    ensures node_room { limit ≤ vec_capacity nodes.new }
    ensures places { ArePlaces places.new.items nodes.new.items }
    ensures room { HasRoom limit (vec_capacity places.new) (length places.new.items) }
{
    if let Some(number) = find(places, nodes, node) {
        return Ok(number);
    }
    let number = nodes.len();
    if limit <= number {
        return Err(StoreFault::Full);
    }
    make_room(places, nodes, limit);
    put(places.as_mut_slice(), nodes, node);
    nodes.push_reserved(node);
    Ok(number)
}

/// The invariant is that of a reduced ordered BDD: children have later variables and differ, and no node occurs twice.
#[derive(Drop)]
pub struct Store {
    vars: u32,
    limit: u32,
    nodes: Vec<Node>,
    places: Vec<u32>,
}

impl Model for Store {
    ghost use Rattle.std.specs.Prelude.{◌≤◌, length, vec_capacity};
    ghost use Rattle.bb_uniq.specs.Inside.Nodes.{NodeStore, IsStore};
    ghost use Rattle.bb_uniq.specs.Inside.Probes.{ArePlaces, HasRoom};

    ghost Value = { NodeStore };

    ghost view = { λ s. record { vars = s.vars; limit = s.limit; nodes = s.nodes.items } };

    ghost invariant = { λ s. IsStore (record { vars = s.vars; limit = s.limit; nodes = s.nodes.items })
        × (s.vars ≤ 2048) × (s.limit ≤ 50000000) × (s.limit ≤ vec_capacity s.nodes)
        × ArePlaces s.places.items s.nodes.items × HasRoom s.limit (vec_capacity s.places) (length s.places.items) };
}

impl Store {
    /// At most `limit` inner nodes, whose room is taken here, so that no later call wants memory.
    ///
    /// # Errors
    ///
    /// `NoMemory` where there is no such room.
    pub fn start(alloc: Global, vars: u32, limit: u32) -> Result<Store, NoMemory>
        requires vars { vars ≤ 2048 }
        requires limit { limit ≤ 50000000 }
        ensures ok { IfOk result (λ s. s ≡ record { vars = vars; limit = limit; nodes = [] }) }
        ensures store { IfOk result IsStore }
    {
        let nodes = Vec::with_capacity(alloc, limit as usize)?;
        let places = free_places(alloc, limit as usize)?;
        Ok(Store {
            vars,
            limit,
            nodes,
            places,
        })
    }

    /// At most 2,048.
    pub fn vars(&self) -> u32
        ensures vars { result ≡ self.now.vars }
    {
        self.vars
    }

    /// Without the two leaves.
    pub fn len(&self) -> u32
        ensures nodes { result ≡ length self.now.nodes }
        ensures beads { HasSize (IsHeld self.now) result }
    {
        truth::tables();
        truth::beads();
        truth::sizes();
        self.nodes.len() as u32
    }

    /// For proofs: children have later variables and differ, and nodes are distinct; so Refs with one truth table are
    /// the same Ref.
    pub fn is_canonical(&self)
        ensures store { IsStore self.now }
        ensures refs { (r q : ℕ) → IsRef self.now r → IsRef self.now q → truth_of self.now r ≡ truth_of self.now q
            → r ≡ q }
    {
        let _ = &self.nodes;
    }

    /// A leaf's table is its bit everywhere, a node's the choice between its children's.
    pub fn view(&self, r: Ref) -> View
        requires { IsRef self.now r.0 }
        ensures view { result ≡ view_of self.now r.0 }
        ensures table { ViewMeans self.now r.0 result }
    {
        truth::tables();
        truth::beads();
        truth::sizes();
        if r.0 < 2 {
            return View::Leaf(r.0 == 1);
        }
        let node = self.nodes[r.0 as usize - 2];
        View::Node {
            var: node.var,
            lo: Ref(node.lo),
            hi: Ref(node.hi),
        }
    }

    /// The node "`hi` where `var` is 1, else `lo`", reduced: equal children give that child, and a node that exists is
    /// shared.
    ///
    /// # Errors
    ///
    /// `Full` where the node is new and the store holds as many as it may. The store is then as before.
    pub fn make(&mut self, var: u32, lo: Ref, hi: Ref) -> Result<Ref, StoreFault>
        requires var { var < self.old.vars }
        requires lo { IsBelow self.old var lo.0 }
        requires hi { IsBelow self.old var hi.0 }

        // Which node it is, and which nodes are held.
        ensures ok { IfOk result (λ r. Gives self.old self.new var lo.0 hi.0 r.0) }

        // Its table, and which beads are held.
        ensures adds { IfOk result (λ r. Adds self.old self.new (branch self.old var lo.0 hi.0) r.0) }
        ensures store { IsStore self.new }

        ensures full { IsErrOf result StoreFault.Full
            → IsNew self.old var lo.0 hi.0 × (length self.old.nodes ≡ self.old.limit) }
        ensures too_many { IsErrOf result StoreFault.Full → IsTooMany self.old (branch self.old var lo.0 hi.0) }
        ensures err { OnErr result (self.new ≡ self.old) }
    {
        truth::tables();
        truth::beads();
        truth::sizes();
        let limit = self.limit as usize;
        if lo == hi {
            return Ok(lo);
        }
        let node = Node {
            var,
            lo: lo.0,
            hi: hi.0,
        };
        let place = place_of(&mut self.nodes, &mut self.places, limit, node)?;
        Ok(Ref(place as u32 + 2))
    }
}
