// Trees.
ghost use Rattle.std.specs.Prelude.{◌≡◌, ℕ, ◌∷◌, ◌<◌, [], IfOk, OnOk, OnErr, None, Some, length};
ghost use Rattle.rt_lines.specs.Words.{IsLabel};
ghost use Rattle.rt_tree.specs.Trees.{leaf, step_of, node_at, marks_of, joined, grown, IsTree, IsReachedTree};

use crate::entry::Entry;
use rt_base::Memory;
use rt_lines::Label;
use std::alloc::{AllocError, Global};
use std::marker::Model;

/// A regular tree: nodes, which are the numbers below a count, with marks and with edges by labels. Node 0 is the root. A node
/// has at most one edge of a label, each edge leads to a node, and some word leads to each node from the root. Contracts see the
/// list of the nodes.
#[derive(Drop)]
pub struct Tree {
    nodes: Vec<Entry>,
}

impl Model for Tree {
    ghost use Rattle.rt_tree.specs.Trees.{Nodes, IsReachedTree};

    ghost Value = { Nodes };

    ghost view = { λ t. t.nodes.items };

    ghost invariant = { λ t. IsReachedTree t.nodes.items };
}

impl Tree {
    /// The root alone, with its lower and its upper mark. The error is out of memory.
    pub fn new(alloc: Global, low: u16, up: u16) -> Result<Tree, Memory>
        ensures { IfOk result (λ tree. tree ≡ leaf low up ∷ []) }
    {
        let mut nodes = Vec::new(alloc);
        nodes.push(Entry::new(alloc, low, up))?;
        Ok(Tree { nodes })
    }

    /// Adds a node at the end, with its lower and its upper mark, and an edge to it; the result is its number. The error is
    /// out of memory, or of numbers of 32 bits, and the tree is as it was then.
    pub fn grow(&mut self, from: u32, label: &Label, low: u16, up: u16) -> Result<u32, Memory>
        requires from { from < length self.old }
        requires label { IsLabel label.now }
        requires free { step_of self.old from label.now ≡ None }
        ensures ok { OnOk result (self.new ≡ grown self.old from label.now low up) }
        ensures number { IfOk result (λ number. number ≡ length self.old) }
        ensures err { OnErr result (self.new ≡ self.old) }
    {
        let number = self.size();
        if number == u32::MAX {
            return Err(AllocError);
        }
        let alloc = *self.nodes.allocator();
        self.nodes.push(Entry::new(alloc, low, up))?;
        match self.nodes[from as usize].add(*label, number) {
            Ok(()) => Ok(number),
            Err(why) => {
                self.nodes.pop();
                Err(why)
            }
        }
    }

    /// Adds an edge. When out of memory, the tree is as it was.
    pub fn edge(&mut self, from: u32, label: &Label, to: u32) -> Result<(), Memory>
        requires from { from < length self.old }
        requires label { IsLabel label.now }
        requires to { to < length self.old }
        requires free { step_of self.old from label.now ≡ None }
        ensures ok { OnOk result (self.new ≡ joined self.old from label.now to) }
        ensures err { OnErr result (self.new ≡ self.old) }
    {
        self.nodes[from as usize].add(*label, to)
    }

    /// How many nodes there are. It takes no memory.
    pub fn size(&self) -> u32
        ensures count { result ≡ length self.now }
        ensures tree { IsTree self.now }
        ensures reached { IsReachedTree self.now }
    {
        self.nodes.len() as u32
    }

    /// A node's marks, the lower one first. It takes no memory.
    pub fn mark(&self, node: u32) -> (u16, u16)
        requires { node < length self.now }
        ensures { result ≡ marks_of (node_at self.now node) }
    {
        self.nodes[node as usize].mark()
    }

    /// A node's edges, in the byte order of labels' texts. It takes no memory.
    pub fn edges(&self, node: u32) -> &[(Label, u32)]
        requires { node < length self.now }
        ensures { result.now ≡ (node_at self.now node).edges }
    {
        self.nodes[node as usize].edges()
    }

    /// The node that a node's edge of a label leads to, if it has one. It takes no memory, and time logarithmic in how many edges
    /// the node has.
    pub fn step(&self, node: u32, label: &Label) -> Option<u32>
        requires { node < length self.now }
        ensures step { result ≡ step_of self.now node label.now }
        ensures within { (end : ℕ) → result ≡ Some end → end < length self.now }
    {
        self.nodes[node as usize].end(*label)
    }

    // The nodes.
    pub(crate) fn nodes(&self) -> &[Entry]
        ensures nodes { result.now ≡ self.now }
        ensures tree { IsTree result.now }
    {
        self.nodes.as_slice()
    }

    // The tree of these nodes.
    pub(crate) fn of(nodes: Vec<Entry>) -> Tree
        requires { IsReachedTree nodes.items }
        ensures { result ≡ nodes.items }
    {
        Tree { nodes }
    }
}
