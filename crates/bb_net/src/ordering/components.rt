//! Strong components of an unordered netlist, by Tarjan's algorithm with an explicit stack: a recursion would go as
//! deep as the netlist.
//!
//! The numbers only save searches for loops, and `ranks` checks them before they are used. So nothing is proved here,
//! and no function has a contract about them.

ghost use Rattle.std.specs.Prelude.{◌≡◌, slice_index};
ghost use Rattle.bb_net.specs.Loose.{IsLoose};

use crate::{Loose, LooseCell};
use bb_bits::NoMemory;

/// Boxes are nodes of their own: each output pin of a box reads all its input pins, and edges from pin to pin would be
/// as many as the product of both.
#[derive(Clone, Copy, PartialEq, Eq)]
enum Node {
    Cell(u32),
    Box(u32),
}

#[derive(Drop)]
pub(crate) struct Ranks {
    pub(crate) cells: Vec<u32>,
    pub(crate) boxes: Vec<u32>,
}

// Total in both arguments, since nothing is known of the unproved numbers.
pub(crate) fn rank_at(ranks: &[u32], at: u32) -> u32
    ensures rank { result ≡ slice_index ranks.now at }
{
    ranks.get(at as usize).copied().unwrap_or(0)
}

fn set_rank(ranks: &mut [u32], at: u32, rank: u32) {
    if let Some(old) = ranks.get_mut(at as usize) {
        *old = rank;
    }
}

impl Ranks {
    fn zero(loose: &Loose) -> Result<Ranks, NoMemory> {
        let alloc = loose.allocator();
        Ok(Ranks {
            cells: vec![in alloc; 0; loose.cell_count()]?,
            boxes: vec![in alloc; 0; loose.box_count()]?,
        })
    }

    fn get(&self, node: Node) -> u32 {
        match node {
            Node::Cell(k) => rank_at(&self.cells, k),
            Node::Box(b) => rank_at(&self.boxes, b),
        }
    }

    fn set(&mut self, node: Node, rank: u32) {
        match node {
            Node::Cell(k) => set_rank(&mut self.cells, k, rank),
            Node::Box(b) => set_rank(&mut self.boxes, b, rank),
        }
    }
}

/// State of Tarjan's algorithm. `found` counts from 1, and 0 means not found yet; `low` is the least `found` that is
/// reached; `open` has the found nodes without a component; `path` is the call stack, each node with the number of
/// operands looked at.
#[derive(Drop)]
struct Search {
    found: Ranks,
    low: Ranks,
    ranks: Ranks,
    open: Vec<Node>,
    path: Vec<(Node, usize)>,
    time: u32,
    components: u32,
}

fn read(loose: &Loose, node: Node, i: usize) -> Option<Node> {
    match node {
        Node::Cell(k) => read_by_cell(*loose.cells.get(k as usize)?, i),
        Node::Box(b) => nth(loose.boxes.get(b as usize)?.ins(), i),
    }
}

fn read_by_cell(cell: LooseCell, i: usize) -> Option<Node> {
    if let LooseCell::BoxOut(b, _) = cell {
        return (i == 0).then_some(Node::Box(b));
    }
    let (places, count) = cell.operands();
    nth(&places[..count], i)
}

fn nth(places: &[u32], i: usize) -> Option<Node> {
    places.get(i).map(|place| Node::Cell(*place))
}

impl Search {
    fn new(loose: &Loose) -> Result<Search, NoMemory> {
        let alloc = loose.allocator();
        Ok(Search {
            found: Ranks::zero(loose)?,
            low: Ranks::zero(loose)?,
            ranks: Ranks::zero(loose)?,
            open: Vec::new(alloc),
            path: Vec::new(alloc),
            time: 0,
            components: 0,
        })
    }

    fn find(&mut self, node: Node) -> Result<(), NoMemory> {
        self.time = self.time.saturating_add(1);
        self.found.set(node, self.time);
        self.low.set(node, self.time);
        self.open.push(node)?;
        self.path.push((node, 0))?;
        Ok(())
    }

    fn lower(&mut self, node: Node, low: u32) {
        let least = self.low.get(node).min(low);
        self.low.set(node, least);
    }

    // An edge to a node whose component is closed lowers nothing.
    fn follow(&mut self, node: Node, next: Node) -> Result<(), NoMemory> {
        let found = self.found.get(next);
        if found == 0 {
            return self.find(next);
        }
        if self.ranks.get(next) == 0 {
            self.lower(node, found);
        }
        Ok(())
    }

    // Components close after those that they read, so numbers rise from operands to readers.
    fn close(&mut self, node: Node) {
        self.components = self.components.saturating_add(1);
        while let Some(next) = self.open.pop() {
            self.ranks.set(next, self.components);
            if next == node {
                break;
            }
        }
    }

    fn leave(&mut self, node: Node) {
        let low = self.low.get(node);
        if low == self.found.get(node) {
            self.close(node);
        }
        if let Some((parent, _)) = self.path.last() {
            let parent = *parent;
            self.lower(parent, low);
        }
    }

    fn search_all(&mut self, loose: &Loose) -> Result<(), NoMemory>
        requires list { IsLoose loose.now }
    {
        for k in 0..loose.cell_count() as u32 {
            if self.found.get(Node::Cell(k)) == 0 {
                self.search(loose, Node::Cell(k))?;
            }
        }
        Ok(())
    }

    // The bound of the loop is out of reach; it spares a proof that the search ends.
    fn search(&mut self, loose: &Loose, root: Node) -> Result<(), NoMemory> {
        self.find(root)?;
        for _ in 0..u64::MAX {
            let Some((node, i)) = self.path.pop() else {
                break;
            };
            match read(loose, node, i) {
                Some(next) => {
                    self.path.push((node, i.saturating_add(1)))?;
                    self.follow(node, next)?;
                }
                None => self.leave(node),
            }
        }
        Ok(())
    }
}

// A node's number is at least that of what it reads, and equal only inside a component.
pub(crate) fn components(loose: &Loose) -> Result<Ranks, NoMemory>
    requires list { IsLoose loose.now }
{
    let mut search = Search::new(loose)?;
    search.search_all(loose)?;
    Ok(search.ranks)
}
