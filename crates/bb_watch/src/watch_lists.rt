//! Watch lists as linked lists in one array, not a vector a literal: no proof needs their order, moving a watch
//! allocates nothing, and memory is two nodes a clause however the literals are distributed. A visit looks first at the
//! other watched literal, which is in the neighbouring node, and only then at the clause, as solvers do with blocking
//! literals.

use crate::NoMemory;
use crate::codes::{Code, is_false, is_true};
use crate::copies::{Copies, Left};
use crate::false_literals::FalseLiterals;
use crate::numbers::{read, write};
use std::alloc::Global;

// `next` is a node on the list of the same literal.
#[derive(Clone, Copy, Debug)]
struct Node {
    next: u32,
    watched: Code,
}

const NONE: Node = Node {
    next: 0,
    watched: Code::NOTHING,
};

/// `left` is the one literal that is not false; none where the clause is false.
#[derive(Clone, Copy, Debug)]
pub(crate) struct Last {
    pub(crate) number: u32,
    pub(crate) left: Option<Code>,
}

/// The nodes of the clause of number n are 2n + 2 and 2n + 3, beside each other in memory, since a visit to one looks
/// at the other. Each is on the list of the literal that it watches: a list begins with a head and goes on by `next`; 0
/// ends it.
#[derive(Drop)]
pub(crate) struct Watches {
    heads: Vec<u32>,
    nodes: Vec<Node>,
    // Where the copy of each clause begins, and how many clauses had their first look: a clause may be unit or false
    // before any literal on it becomes false.
    copies: Vec<u32>,
    looked_at: u32,
    // The false literal whose list is walked, by its place, and whether the walk is still to begin.
    place: usize,
    is_new: bool,
    // The next node of that walk, 0 at the end, and the node before it, 0 where it is the first.
    node: u32,
    before: u32,
}

// Nodes of one clause differ in the lowest bit.
#[inline(always)]
fn other_node(node: u32) -> u32 {
    node ^ 1
}

#[inline(always)]
fn clause_of(node: u32) -> u32 {
    node.saturating_sub(2) / 2
}

impl Watches {
    /// The first two nodes belong to no clause, so that 0 can end a list.
    pub(crate) fn new(alloc: Global, vars: u32, clauses: usize) -> Result<Watches, NoMemory> {
        let size = 2 * (vars as usize + 1);
        let mut nodes = Vec::with_capacity(alloc, clauses.saturating_mul(2).saturating_add(2))?;
        nodes.push(NONE)?;
        nodes.push(NONE)?;
        Ok(Watches {
            heads: vec![in alloc; 0; size]?,
            nodes,
            copies: Vec::with_capacity(alloc, clauses)?,
            looked_at: 0,
            place: 0,
            is_new: true,
            node: 0,
            before: 0,
        })
    }

    pub(crate) fn widen(&mut self, vars: u32) -> Result<(), NoMemory> {
        self.heads.resize(2 * (vars as usize + 1), 0)
    }

    fn add_node(&mut self, watched: Code) -> Result<(), NoMemory> {
        let node = u32::try_from(self.nodes.len()).unwrap_or(0);
        let next = read(&self.heads, watched.0);
        self.nodes.push(Node { next, watched })?;
        write(&mut self.heads, watched.0, node);
        Ok(())
    }

    /// The clause gets the next number. `copy` is where its copy begins.
    pub(crate) fn add(&mut self, copy: u32, first: Code, second: Code) -> Result<(), NoMemory> {
        self.copies.push(copy)?;
        self.add_node(first)?;
        self.add_node(second)
    }

    /// A place beyond all copies where there is no such clause.
    pub(crate) fn copy(&self, number: u32) -> u32 {
        match self.copies.get(number as usize) {
            Some(place) => *place,
            None => u32::MAX,
        }
    }

    /// The next walk begins at the head of a list: `node` and `before` may be of a list that is walked no more.
    pub(crate) fn taken_back(&mut self, place: usize) {
        self.place = self.place.min(place);
        self.is_new = true;
    }

    #[inline(always)]
    fn at(&self, node: u32) -> Node {
        match self.nodes.get(node as usize) {
            Some(found) => *found,
            None => NONE,
        }
    }

    #[inline(always)]
    fn set(&mut self, node: u32, to: Node) {
        if (node as usize) < self.nodes.len() {
            self.nodes[node as usize] = to;
        }
    }

    #[inline(always)]
    fn set_next(&mut self, node: u32, next: u32) {
        if (node as usize) < self.nodes.len() {
            self.nodes[node as usize].next = next;
        }
    }

    fn set_watched(&mut self, node: u32, watched: Code) {
        if (node as usize) < self.nodes.len() {
            self.nodes[node as usize].watched = watched;
        }
    }

    #[inline(always)]
    fn go_on(&mut self) {
        self.before = self.node;
        self.node = self.at(self.node).next;
    }

    // `before` stays, and the next node takes the place of this one.
    #[inline(always)]
    fn take_out(&mut self, from: Code) {
        let after = self.at(self.node).next;
        if self.before == 0 {
            write(&mut self.heads, from.0, after);
        } else {
            self.set_next(self.before, after);
        }
        self.node = after;
    }

    #[inline(always)]
    fn take_to(&mut self, from: Code, to: Code) {
        let node = self.node;
        self.take_out(from);
        let next = read(&self.heads, to.0);
        self.set(node, Node { next, watched: to });
        write(&mut self.heads, to.0, node);
    }

    /// The nodes leave their lists when a walk meets them.
    pub(crate) fn forget(&mut self, number: u32) {
        let node = number.saturating_mul(2).saturating_add(2);
        self.set_watched(node, Code::NOTHING);
        self.set_watched(other_node(node), Code::NOTHING);
    }

    // One of the two watched literals, `from`, became false. Where another literal is not false, the watch moves to it;
    // otherwise the other watched literal is implied, or the clause is false.
    #[inline(always)]
    fn look(&mut self, copies: &Copies, marks: &[bool], from: Code) -> Option<Last> {
        let other = self.at(other_node(self.node)).watched;
        if is_true(marks, other) {
            self.go_on();
            return None;
        }
        if other == Code::NOTHING {
            self.take_out(from);
            return None;
        }
        let number = clause_of(self.node);
        match copies.not_false(self.copy(number), marks, other) {
            Some(to) => {
                self.take_to(from, to);
                None
            }
            None => {
                self.go_on();
                let left = if is_false(marks, other) {
                    None
                } else {
                    Some(other)
                };
                Some(Last { number, left })
            }
        }
    }

    fn visit(&mut self, copies: &Copies, marks: &[bool], from: Code) -> Option<Last> {
        if self.is_new {
            self.is_new = false;
            self.before = 0;
            self.node = read(&self.heads, from.0);
        }
        for _ in 0..self.nodes.len() {
            if self.node == 0 {
                return None;
            }
            if let Some(last) = self.look(copies, marks, from) {
                return Some(last);
            }
        }
        None
    }

    // Clauses may be added while literals are false, and no later event would lead to such a clause.
    fn first_look(&mut self, copies: &Copies, marks: &[bool]) -> Option<Last> {
        for place in self.looked_at as usize..self.copies.len() {
            let number = self.looked_at;
            self.looked_at = number.saturating_add(1);
            match copies.left(self.copies[place], marks) {
                Left::None => return Some(Last { number, left: None }),
                Left::One(code) => {
                    let left = Some(code);
                    return Some(Last { number, left });
                }
                Left::More => {}
            }
        }
        None
    }

    // The walk over lists is breadth first, in the order in which literals became false.
    fn follow(&mut self, copies: &Copies, falses: &FalseLiterals) -> Option<Last> {
        for place in self.place..falses.len() {
            self.place = place;
            if let Some(last) = self.visit(copies, falses.marks(), falses.code(place)) {
                return Some(last);
            }
            self.is_new = true;
        }
        self.place = falses.len();
        None
    }

    /// New clauses come first: they may be unit by themselves.
    pub(crate) fn find(&mut self, copies: &Copies, falses: &FalseLiterals) -> Option<Last> {
        match self.first_look(copies, falses.marks()) {
            None => self.follow(copies, falses),
            found => found,
        }
    }
}
