//! BDDs, quantifiers and least points, through public calls. Each table is named by what it shows, and has its own
//! store, so that no table depends on the nodes of another.

use crate::diagram_calls::{operation, rows, start, variable};
use bb_uniq::Ref;
use std::alloc::Global;
use std::test::Fail;

// Tables have an empty line between two.
const CALLS: &str = "\
diagrams 2 1 1 in a store of one node: one for equal triples, and no room for a new one
node 1 0 1 => 2
node 1 0 1 => 2
node 0 0 1 => full
node 0 1 1 => 1
len => 1
view 1 => leaf 1
view 0 => leaf 0

diagrams 2048 0 1 in a store of no room
node 2047 1 0 => full
len => 0

diagrams 2 2 1 in a store of two nodes
node 1 0 1 => 2
node 0 1 0 => 3
node 1 1 0 => full
node 0 1 0 => 3
len => 2

diagrams 0 5 1 of no variable: leaves alone
node 0 0 1 => missing
view 1 => leaf 1
len => 0

diagrams 2 3 4 of two variables: three nodes hold them and their conjunction
var 0 => 2
var 1 => 3
len => 2
and 2 3 => 4
len => 3
ite 2 3 0 => 4
xor 2 3 => full
not 2 => full
at 4 11 => 1
at 4 10 => 0
len => 3

diagrams 1 2 1 of one variable: calls on leaves and on it
view 1 => leaf 1
node 0 1 1 => 1
node 0 0 1 => 2
or 0 1 => 1
recall-forall 1 0 => none
len => 1

diagrams 2 10 1 at the four points: the complement of the first variable, and the disjunction of both
var 0 => 2
var 1 => 3
not 2 => 4
at 4 00 => 1
at 4 01 => 1
at 4 10 => 0
at 4 11 => 0
or 2 3 => 5
at 5 00 => 0
at 5 01 => 1
at 5 10 => 1
at 5 11 => 1
view 5 => node 0 3 1

diagrams 2 10 1 at the four points: the exclusive disjunction
var 0 => 2
var 1 => 3
xor 2 3 => 5
at 5 00 => 0
at 5 01 => 1
at 5 10 => 1
at 5 11 => 0

diagrams 1 1 4 that keep a result: it is recalled for its quantifier alone
keep => 1
recall-exists 1 0 => 1
recall-forall 1 0 => none

diagrams 2 3 4 under quantifiers: a disjunction
var 0 => 2
var 1 => 3
or 2 3 => 4
forall 4 0 => 3
exists 4 0 => 1
forall 4 1 => 2
len => 3

diagrams 2 3 4 with least points: with given first bits
var 0 => 2
var 1 => 3
or 2 3 => 4
least 4 1 0 11 => true 01
least 4 1 1 11 => true 10
least 4 0 1 10 => false 10

diagrams 2 3 4 under quantifiers and with least points: a conjunction
var 0 => 2
var 1 => 3
and 2 3 => 4
exists 4 1 => 2
forall 4 0 => 0
least 4 1 0 00 => true 11
least 4 0 1 11 => true 10
least 4 1 1 01 => false 01";

#[test]
fn calls_have_their_answers(rt: HostRuntime) -> Result<(), Fail> {
    for table in CALLS.split("\n\n") {
        rows(&rt, rt.alloc(), table)?;
    }
    Ok(())
}

// How many nodes the exclusive disjunction of all variables and those of its parts have.
fn chain(alloc: Global) -> Result<u32, Fail> {
    let mut d = start(alloc, 64, 190, 65536)?;
    let mut f = variable(&mut d, 64, 63)?;
    for i in 0..63 {
        let x = variable(&mut d, 64, 62 - i)?;
        f = operation(&mut d, "xor", x, f, f)?;
    }
    Ok(d.len())
}

// Without the cache the last call alone would visit about 2^63 pairs of nodes.
#[test]
fn a_chain_of_64_variables_ends_by_the_cache(rt: HostRuntime) -> Result<(), Fail> {
    assert_eq!(rt; chain(rt.alloc())?, 190);
    Ok(())
}
