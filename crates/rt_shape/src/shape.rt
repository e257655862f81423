// Shapes of lists of lines.
ghost use Rattle.std.specs.Prelude.{◌≡◌, ◌<◌, ◌↔◌, Some, length, slice_get, IsTrue};
ghost use Rattle.rt_shape.specs.Graphs.{node_of, step_of, IsReadWrite, IsShape};

use crate::walking::walk;
use indexmap::IndexMap;
use rt_lines::{Base, Dtv, Label};
use std::marker::Model;

/// The graph of what the variables of lines can do, which contracts see as that graph: its nodes are the classes of
/// variables of one shape, numbered from 0, and an edge leads by a label from the node of X to the node of X.label.
#[derive(Drop)]
pub struct Shape {
    count: u32,
    bases: IndexMap<Base, u32>,
    edges: IndexMap<(u32, Label), u32>,
}

impl Model for Shape {
    ghost use Rattle.rt_shape.specs.Graphs.{Graph, IsShape};

    ghost Value = { Graph };

    ghost view = { λ s. record { count = s.count; bases = s.bases.entries; edges = s.edges.entries } };

    ghost invariant = { λ s. IsShape (record { count = s.count; bases = s.bases.entries; edges = s.edges.entries }) };
}

impl Shape {
    // The shape of nodes below a count, of the bases' nodes and the edges.
    pub(crate) fn from_parts(
        count: u32,
        bases: IndexMap<Base, u32>,
        edges: IndexMap<(u32, Label), u32>,
    ) -> Shape
        requires { IsShape (record { count = count; bases = bases.entries; edges = edges.entries }) }
        ensures { result ≡ record { count = count; bases = bases.entries; edges = edges.entries } }
    {
        Shape {
            count,
            bases,
            edges,
        }
    }

    /// The node of a variable, or `None` where there is no such variable. It is found in time linear in the word.
    pub fn node(&self, x: &Dtv) -> Option<u32>
        ensures { result ≡ node_of self.now x.now }
    {
        walk(&self.bases, &self.edges, x)
    }

    /// The node after a node, by a label: from the node of X the node of X.label, or `None` where there is no X.label.
    pub fn step(&self, node: u32, label: &Label) -> Option<u32>
        ensures { result ≡ step_of self.now node label.now }
    {
        self.edges.get(&(node, *label)).copied()
    }

    /// Whether the node can be read and written through: it has a load and a store.
    pub fn is_rw(&self, node: u32) -> bool
        ensures { IsTrue result ↔ IsReadWrite self.now node }
    {
        self.step(node, &Label::Load).is_some() && self.step(node, &Label::Store).is_some()
    }

    /// How many nodes there are: they are the numbers below it.
    pub fn node_count(&self) -> u32
        ensures { result ≡ self.now.count }
    {
        self.count
    }

    /// How many edges there are.
    pub fn edge_count(&self) -> usize
        ensures { result ≡ length self.now.edges }
    {
        self.edges.len()
    }

    /// One of the edges: a node, a label, and the node after it.
    pub fn edge(&self, i: usize) -> (u32, Label, u32)
        requires { i < length self.now.edges }
        ensures entry { slice_get self.now.edges i ≡ Some ((result.0, result.1), result.2) }
        ensures within { (result.0 < self.now.count) × (result.2 < self.now.count) }
    {
        match self.edges.get_index(i) {
            Some((letter, to)) => (letter.0, letter.1, *to),
            None => unreachable!(),
        }
    }
}
