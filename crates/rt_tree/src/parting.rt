// Classes of the nodes of a graph.
ghost use Rattle.std.specs.Prelude.{◌≡◌, ◌∷◌, ◌++◌, ◌<◌, [], IfOk, OnOk, OnErr, None, length, slice_index};
ghost use Rattle.rt_lines.specs.Words.{IsLabel};
ghost use Rattle.rt_tree.specs.Trees.{leaf, step_of, joined};
ghost use Rattle.rt_tree.specs.Partitions.{IsGraph, AreClassesOf};

use crate::entry::Entry;
use crate::splitting::classes;
use rt_base::Memory;
use rt_lines::Label;
use std::alloc::{AllocError, Global};
use std::marker::Model;

/// Nodes with marks and with edges by labels as in a tree, of which none need be reached. Contracts see the list of the nodes.
#[derive(Drop)]
pub struct Graph {
    nodes: Vec<Entry>,
}

impl Model for Graph {
    ghost use Rattle.rt_tree.specs.Trees.{Nodes};
    ghost use Rattle.rt_tree.specs.Partitions.{IsGraph};

    ghost Value = { Nodes };

    ghost view = { λ g. g.nodes.items };

    ghost invariant = { λ g. IsGraph g.nodes.items };
}

impl Graph {
    /// The graph without nodes. It takes no memory.
    pub fn new(alloc: Global) -> Graph
        ensures { result ≡ [] }
    {
        Graph {
            nodes: Vec::new(alloc),
        }
    }

    /// Adds a node at the end, with its lower and its upper mark; the result is its number. The error is out of memory, or of
    /// numbers of 32 bits, and the graph is as it was then.
    pub fn grow(&mut self, low: u16, up: u16) -> Result<u32, Memory>
        ensures ok { OnOk result (self.new ≡ self.old ++ leaf low up ∷ []) }
        ensures number { IfOk result (λ number. number ≡ length self.old) }
        ensures err { OnErr result (self.new ≡ self.old) }
    {
        let number = self.size();
        if number == u32::MAX {
            return Err(AllocError);
        }
        let alloc = *self.nodes.allocator();
        self.nodes.push(Entry::new(alloc, low, up))?;
        Ok(number)
    }

    /// Adds an edge. When out of memory, the graph is as it was.
    pub fn edge(&mut self, from: u32, label: &Label, to: u32) -> Result<(), Memory>
        requires from { from < length self.old }
        requires label { IsLabel label.now }
        requires to { to < length self.old }
        requires free { step_of self.old from label.now ≡ None }
        ensures ok { OnOk result (self.new ≡ joined self.old from label.now to) }
        ensures err { OnErr result (self.new ≡ self.old) }
    {
        self.nodes[from as usize].add(*label, to)
    }

    /// How many nodes there are. It takes no memory.
    pub fn size(&self) -> u32
        ensures count { result ≡ length self.now }
        ensures graph { IsGraph self.now }
    {
        self.nodes.len() as u32
    }
}

/// Classes of the nodes of a graph. Contracts see the list of each node's class.
#[derive(Drop)]
pub struct Partition {
    class: Vec<usize>,
}

impl Model for Partition {
    ghost use Rattle.std.specs.Prelude.{ℕ, List};

    ghost Value = { List ℕ };

    ghost view = { λ p. p.class.items };
}

impl Partition {
    /// Nodes are in one class if they have the same words and marks after them, and the first of them names it. The error is
    /// out of memory.
    pub fn of(alloc: Global, graph: &Graph) -> Result<Partition, Memory>
        ensures { IfOk result (λ partition. AreClassesOf graph.now partition) }
    {
        let class = classes(alloc, &graph.nodes)?;
        Ok(Partition { class })
    }

    /// The class of a node: the first node that is like it. It takes no memory.
    pub fn class(&self, node: u32) -> usize
        requires { node < length self.now }
        ensures { result ≡ slice_index self.now node }
    {
        self.class[node as usize]
    }
}
