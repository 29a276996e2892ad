//! An index of nodes: open addressing with linear probing (Knuth, The Art of Computer Programming, volume 3, section
//! 6.4), at most half full. Room for the limit is reserved once, so `Full` is exact and no insertion needs memory; its
//! price is that this room is taken however small a design is. Nothing is proved of the hash but that it is a
//! function, so it may be exchanged. Nothing is removed, so there are no tombstones.

ghost use Rattle.std.specs.Prelude.{◌≡◌, ◌≢◌, ◌<◌, ◌≤◌, ◌+◌, ◌*◌, ◌/◌, ◌%◌, ◌^◌, ℕ, ◌∷◌, ◌++◌, [], true, length};
ghost use Rattle.std.specs.Prelude.{replicate, slice_get, Some, IfSome, IfNone, IfOk, max, vec_capacity};
ghost use Rattle.std.specs.Int.{IsPowerOfTwo};
ghost use Rattle.bb_uniq.specs.declared.store.Node.{Node as Triple};
ghost use Rattle.bb_uniq.specs.Inside.Places.{IsAbsent};
ghost use Rattle.bb_uniq.specs.Inside.Probes.{hash_of, place_after, mark_of, ArePlaces, HasRoom};

use crate::store::Node;
use bb_bits::NoMemory;
use std::alloc::Global;

/// 2^26 node numbers. The six bits above are of the hash: most other nodes on a probe are passed over without a look at
/// them.
const NUMBERS: u32 = 67_108_864;

/// Unused room is not touched: places double within it.
const FIRST_PLACES: usize = 1024;

fn same_nodes()
    ensures same { (a b : Triple) → ⟦<Node as PartialEq>⟧.eq a b ≡ true → a ≡ b }
    ensures equal { (a : Triple) → ⟦<Node as PartialEq>⟧.eq a a ≡ true }
{}

/// Multiplicative, one odd constant for each field, so that exchanged children hash differently.
fn hash(node: Node) -> u64
    ensures { result ≡ hash_of node }
{
    let var = u64::from(node.var).wrapping_mul(11_400_714_819_323_198_485);
    let lo = u64::from(node.lo).wrapping_mul(13_787_848_793_156_543_929);
    let hi = u64::from(node.hi).wrapping_mul(10_723_151_780_598_845_931);
    var.wrapping_add(lo).wrapping_add(hi)
}

/// Linear probing. `count` is a power of two, so the mask is the modulus.
fn place(hash: u64, steps: usize, count: usize) -> usize
    requires count { IsPowerOfTwo count }
    requires steps { steps < 2 ^ 63 }
    ensures place { result ≡ (hash / 2 ^ 32 + steps) % count }
    ensures within { result < count }
{
    ((hash >> 32) as usize + steps) & (count - 1)
}

/// The top six bits; `place` uses lower ones, so the two are nearly independent.
fn tag(hash: u64) -> u32
    ensures tag { result ≡ hash / 2 ^ 58 }
    ensures within { result < 64 }
{
    (hash >> 58) as u32
}

fn number_at(mark: u32, nodes: &[Node], node: Node, hash: u64) -> Option<usize>
    requires hash { hash ≡ hash_of node }
    requires limit { length nodes.now ≤ 50000000 }
    requires mark { (k : ℕ) × (other : Triple) × (slice_get nodes.now k ≡ Some other) × (mark ≡ mark_of other k) }
    ensures some { IfSome result (λ k. slice_get nodes.now k ≡ Some node) }
    ensures none { IfNone result ((k : ℕ) → slice_get nodes.now k ≡ Some node → mark ≢ mark_of node k) }
{
    same_nodes();
    if mark / NUMBERS != tag(hash) {
        return None;
    }
    let number = (mark % NUMBERS) as usize - 1;
    if nodes[number] == node {
        return Some(number);
    }
    None
}

/// Ends at a free place: at least half of them are free.
pub fn find(places: &[u32], nodes: &[Node], node: Node) -> Option<usize>
    requires limit { length nodes.now ≤ 50000000 }
    requires places { ArePlaces places.now nodes.now }
    ensures some { IfSome result (λ k. slice_get nodes.now k ≡ Some node) }
    ensures none { IfNone result (IsAbsent nodes.now node) }
{
    let hash = hash(node);
    for steps in 0..places.len() {
        let mark = places[place(hash, steps, places.len())];
        if mark == 0 {
            return None;
        }
        if let Some(number) = number_at(mark, nodes, node, hash) {
            return Some(number);
        }
    }
    None
}

/// The mark of node number `n` is `n + 1`, since 0 is a free place.
pub fn put(places: &mut [u32], nodes: &[Node], node: Node)
    requires limit { length nodes.now < 50000000 }
    requires places { ArePlaces places.old nodes.now }
    requires room { 2 * (length nodes.now + 1) ≤ length places.old }
    ensures places { ArePlaces places.new (nodes.now ++ node ∷ []) }
    ensures count { length places.new ≡ length places.old }
{
    let hash = hash(node);
    for steps in 0..places.len() {
        let place = place(hash, steps, places.len());
        if places[place] == 0 {
            places[place] = tag(hash) * NUMBERS + nodes.len() as u32 + 1;
            return;
        }
    }
    unreachable!()
}

/// Nodes in their order, so each is met before a free place on its probe.
fn put_all(places: &mut [u32], nodes: &[Node])
    requires limit { length nodes.now ≤ 50000000 }
    requires power { IsPowerOfTwo (length places.old) }
    requires free { places.old ≡ replicate (length places.old) 0 }
    requires room { 2 * length nodes.now ≤ length places.old }
    ensures places { ArePlaces places.new nodes.now }
    ensures count { length places.new ≡ length places.old }
{
    for k in 0..nodes.len() {
        put(places, &nodes[..k], nodes[k]);
    }
}

/// All nodes are placed anew, since the mask changes.
fn double(places: &mut Vec<u32>, nodes: &[Node])
    requires limit { length nodes.now ≤ 50000000 }
    requires places { ArePlaces places.old.items nodes.now }
    requires room { 2 * length places.old.items ≤ vec_capacity places.old }
    ensures places { ArePlaces places.new.items nodes.now }
    ensures count { length places.new.items ≡ 2 * length places.old.items }
    ensures room { vec_capacity places.old ≤ vec_capacity places.new }
{
    let count = 2 * places.len();
    places.clear();
    match places.resize(count, 0) {
        Ok(()) => put_all(places.as_mut_slice(), nodes),
        Err(_) => unreachable!(),
    }
}

/// At least half of the places stay free, which bounds the probes.
pub fn make_room(places: &mut Vec<u32>, nodes: &[Node], limit: usize)
    requires limit { limit ≤ 50000000 }
    requires new { length nodes.now < limit }
    requires places { ArePlaces places.old.items nodes.now }
    requires room { HasRoom limit (vec_capacity places.old) (length places.old.items) }
    ensures places { ArePlaces places.new.items nodes.now }
    ensures room { HasRoom limit (vec_capacity places.new) (length places.new.items) }
    ensures half { 2 * (length nodes.now + 1) ≤ length places.new.items }
{
    if places.len() < 2 * (nodes.len() + 1) {
        double(places, nodes);
    }
}

fn places_for(limit: usize) -> usize
    requires { limit ≤ 50000000 }
    ensures power { IsPowerOfTwo result }
    ensures enough { 2 * limit ≤ result }
    ensures two { 2 ≤ result }
    ensures least { result / 2 < max 2 (2 * limit) }
{
    (2 * limit).max(2).next_power_of_two()
}

/// All room is reserved, and the first 1,024 places are in use.
pub fn free_places(alloc: Global, limit: usize) -> Result<Vec<u32>, NoMemory>
    requires { limit ≤ 50000000 }
    ensures places { IfOk result (λ v. ArePlaces v.items []) }
    ensures room { IfOk result (λ v. HasRoom limit (vec_capacity v) (length v.items)) }
{
    let whole = places_for(limit);
    let mut places = Vec::with_capacity(alloc, whole)?;
    places.resize(whole.min(FIRST_PLACES), 0)?;
    Ok(places)
}
