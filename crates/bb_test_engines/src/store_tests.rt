//! A store of many nodes, through public calls: what tables of a few nodes cannot show. Small stores are tables of
//! diagram_tests.

ghost use Rattle.std.specs.Prelude.{◌≡◌, ◌<◌, true};
ghost use Rattle.bb_uniq.specs.Inside.Nodes.{IsBelow};

use bb_uniq::{Ref, Store, StoreFault, View};
use std::test::Fail;

// A leaf, or a node of a later variable: the premise of a node.
fn is_below(store: &Store, v: u32, f: Ref) -> bool
    ensures { result ≡ true → IsBelow store.now v f.0 }
{
    if f.0 < 2 {
        return true;
    }
    if f.0 as usize >= store.len() as usize + 2 {
        return false;
    }
    match store.view(f) {
        View::Leaf(_) => false,
        View::Node { var, .. } => v < var,
    }
}

fn node(store: &mut Store, v: u32, lo: Ref, hi: Ref) -> Option<Result<Ref, StoreFault>> {
    if v >= store.vars() || !is_below(store, v, lo) || !is_below(store, v, hi) {
        return None;
    }
    Some(store.make(v, lo, hi))
}

fn at(list: &[Ref], place: usize) -> Ref {
    match list.get(place) {
        Some(f) => *f,
        None => Ref(0),
    }
}

// The high child is each of the first `count` diagrams but `lo`, since a node has two different children.
fn push_nodes(
    store: &mut Store,
    v: u32,
    lo: Ref,
    count: usize,
    list: &mut Vec<Ref>,
) -> Result<(), Fail> {
    for j in 0..count {
        let hi = at(list, j);
        if hi != lo {
            match node(store, v, lo, hi) {
                Some(Ok(f)) => list.push(f)?,
                _ => return Err(Fail::new("no node")),
            }
        }
    }
    Ok(())
}

// The low child is each of the first `rows` diagrams.
fn push_level(store: &mut Store, v: u32, rows: usize, list: &mut Vec<Ref>) -> Result<(), Fail> {
    let count = list.len();
    for i in 0..rows {
        let lo = at(list, i);
        push_nodes(store, v, lo, count, list)?;
    }
    Ok(())
}

// All functions of four variables, and 16 times all but one of them under a fifth. A walk over all nodes for each one
// would not end.
#[test]
fn a_million_nodes_are_found_by_their_hash(rt: HostRuntime) -> Result<(), Fail> {
    let mut store = Store::start(rt.alloc(), 5, 1_114_094)?;
    let mut list = Vec::new(rt.alloc());
    list.push(Ref(0))?;
    list.push(Ref(1))?;
    for k in 0..4 {
        let rows = list.len();
        push_level(&mut store, 4 - k, rows, &mut list)?;
    }
    assert_eq!(&rt; list.len(), 65_536);
    push_level(&mut store, 0, 16, &mut list)?;
    assert_eq!(&rt; store.len(), 1_114_094);
    let further = node(&mut store, 0, at(&list, 16), at(&list, 0));
    assert!(&rt; further == Some(Err(StoreFault::Full)));
    Ok(())
}
