//! The table of a scene's nodes.
ghost use Rattle.std.specs.Prelude.{◌≡◌, ℕ, ◌+◌, ◌-◌, ◌<◌, ◌≤◌, min};
ghost use Rattle.std.specs.Prelude.{slice_index_or, IsTrue, IfSome};
ghost use Rattle.lattice.specs.Space.{In};
ghost use Rattle.scene.specs.declared.node.Join.TheVariants.{Unite};
ghost use Rattle.scene.specs.declared.node.Node.TheVariants.{Joined};
ghost use Rattle.scene.specs.declared.table.TheConstants.{MOST_NODES};
ghost use Rattle.scene.specs.Standing.{with_node, can_take, bodies_after, has_one};
ghost use Rattle.scene.specs.Standing.{before_last, IsStart};

use crate::bound::Bound;
use crate::node::{Join, Node};
use crate::stack::Stack;
use lattice::Point;
use leaves::LeafPoint;

/// A scene has at most this many nodes.
pub const MOST_NODES: usize = 256;

/// Nodes in the order in which they were laid down, each of which found what it takes.
// They stand in a row, each after those that it takes: a tree of boxes would take heap.
#[derive(Clone, Copy)]
pub struct Table {
    nodes: Stack<Node, MOST_NODES>,
    /// For each node, how many were laid down before it and all that it takes.
    starts: [u8; MOST_NODES],
    ghost count_in_range: { nodes.height ≤ MOST_NODES },
    ghost each_can_take: { (k : ℕ) → k < nodes.height →
        IsTrue (can_take (slice_index_or nodes.items k (Joined Unite))
        (bodies_after nodes.items k)) },
    ghost are_starts: { (k : ℕ) → k < nodes.height →
        IsStart nodes.items k (slice_index_or starts k 0) },
}

impl Table {
    ghost use Rattle.scene.specs.Bounds.{IsBound};
    ghost use Rattle.scene.specs.Tables.{table_count, bodies_at, body_at, bodies_of, UnitesAt};

    /// A table of no nodes.
    pub(crate) fn new() -> Table
        ensures { table_count result ≡ 0 }
    {
        Table {
            nodes: Stack::new(Node::Joined(Join::Unite)),
            starts: [0; MOST_NODES],
        }
    }

    /// How many nodes are laid down.
    pub(crate) fn count(&self) -> usize
        ensures { result ≡ table_count self.now }
    {
        self.nodes.height
    }

    /// Lays down one node more.
    pub(crate) fn push(&mut self, node: Node)
        requires room { table_count self.old < MOST_NODES }
        requires fit { IsTrue (can_take node (bodies_of self.old)) }
        ensures counted { table_count self.new ≡ table_count self.old + 1 }
        ensures made { bodies_of self.new ≡ with_node node (bodies_of self.old) }
    {
        self.starts[self.nodes.height] = self.start_with(&node) as u8;
        self.nodes.push(node);
    }

    /// How many nodes come before one more and all that it takes.
    fn start_with(&self, node: &Node) -> usize
        requires { IsTrue (can_take node.now (bodies_of self.now)) }
        ensures earlier { result ≤ table_count self.now }
        ensures before { bodies_at self.now result ≡
            before_last (with_node node.now (bodies_of self.now)) }
    {
        let count = self.nodes.height;
        match node {
            Node::Leaf(_) => count,
            Node::Shift(_) | Node::Thicken(_) => self.start_of(count),
            Node::Joined(_) => self.start_of(self.start_of(count)),
        }
    }

    /// How many of the first `end` nodes come before the last and all that it takes.
    #[inline(always)]
    fn start_of(&self, end: usize) -> usize
        requires some { 1 ≤ end }
        requires laid { end ≤ table_count self.now }
        ensures before { bodies_at self.now result ≡ before_last (bodies_at self.now end) }
        ensures fewer { result < end }
    {
        self.starts[end - 1] as usize
    }

    /// The last of the first `end` nodes, which found what it takes.
    #[inline(always)]
    fn last_of(&self, end: usize) -> &Node
        requires some { 1 ≤ end }
        requires laid { end ≤ table_count self.now }
        ensures made { bodies_at self.now end ≡
            with_node result.now (bodies_at self.now (end - 1)) }
        ensures fit { IsTrue (can_take result.now (bodies_at self.now (end - 1))) }
    {
        &self.nodes.items[end - 1]
    }

    /// Where the left of the two ends that the last of the first `end` nodes unites; none where it
    /// is no union.
    pub(crate) fn united_at(&self, end: usize) -> Option<usize>
        requires some { 1 ≤ end }
        requires laid { end ≤ table_count self.now }
        ensures { IfSome result (UnitesAt self.now end) }
    {
        match self.last_of(end) {
            Node::Joined(join) => match join {
                Join::Unite => Some(self.start_of(end - 1)),
                Join::Meet => None,
            },
            _ => None,
        }
    }

    /// A bound about the body that stands last once `end` nodes are laid down.
    pub(crate) fn bound_of(&self, end: usize) -> Bound
        requires some { 1 ≤ end }
        requires laid { end ≤ table_count self.now }
        ensures { IsBound result (body_at self.now end) }
    {
        match self.last_of(end) {
            Node::Leaf(leaf) => leaf.bound(),
            _ => Bound::everything(),
        }
    }

    /// As `ask`, of what is mostly a leaf.
    #[inline(always)]
    pub(crate) fn ask_part(&self, end: usize, p: LeafPoint, most: u32) -> u32
        requires laid { end ≤ table_count self.now }
        requires stands { IsTrue (has_one (bodies_at self.now end)) }
        requires near { In (body_at self.now end).reach p.at }
        ensures { result ≡ min most ((body_at self.now end).clear p.at) }
    {
        if let Node::Leaf(leaf) = self.last_of(end) {
            return leaf.clear_up_to(p, most);
        }
        self.ask(end, &p.at, most)
    }

    /// The clearance of the body that stands last once `end` nodes are laid down, or `most` where
    /// that is smaller.
    // The point is lent: with a copy of it at each node a chain of shifts takes half as long again.
    #[cycle(ask)]
    pub(crate) fn ask(&self, end: usize, p: &Point, most: u32) -> u32
        requires laid { end ≤ table_count self.now }
        requires stands { IsTrue (has_one (bodies_at self.now end)) }
        requires near { In (body_at self.now end).reach p.now }
        ensures { result ≡ min most ((body_at self.now end).clear p.now) }
    {
        let last = end - 1;
        match self.last_of(end) {
            Node::Leaf(leaf) => leaf.clear_up_to(LeafPoint { at: *p }, most),
            Node::Joined(join) => self.ask_joined(*join, end, p, most),
            Node::Shift(by) => self.ask(last, &p.wrapping_sub(*by), most),
            Node::Thicken(by) => {
                let clear = self.ask(last, p, most.saturating_add(*by));
                clear.saturating_sub(*by)
            }
        }
    }

    /// As `ask`, where the last of the nodes joins two bodies.
    // Out of line, so that `ask` has little to keep where it asks one body alone.
    #[cycle(ask)]
    #[inline(never)]
    fn ask_joined(&self, join: Join, end: usize, p: &Point, most: u32) -> u32
        requires laid { end ≤ table_count self.now }
        requires stands { IsTrue (has_one (bodies_at self.now end)) }
        requires near { In (body_at self.now end).reach p.now }
        requires made { bodies_at self.now end ≡
            with_node (Joined join) (bodies_at self.now (end - 1)) }
        requires fit { IsTrue (can_take (Joined join) (bodies_at self.now (end - 1))) }
        ensures { result ≡ min most ((body_at self.now end).clear p.now) }
    {
        let last = end - 1;
        let right = self.ask(last, p, most);
        let middle = self.start_of(last);
        match join {
            Join::Unite => self.ask(middle, p, right),
            Join::Meet if right == most => most,
            Join::Meet => right.max(self.ask(middle, p, most)),
        }
    }
}
