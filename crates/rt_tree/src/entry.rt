// Nodes with their edges.
ghost use Rattle.std.specs.Prelude.{◌≡◌, ℕ, OnOk, OnErr, length};
ghost use Rattle.std.specs.List.{AllByRecursion};
ghost use Rattle.rt_lines.specs.Words.{IsLabel};
ghost use Rattle.rt_tree.specs.Trees.{AreEdges, AreOrdered, edge_of, leaf, longer_node, marks_of, place_in};

use crate::order::{compare, is_label};
use rt_base::Memory;
use rt_lines::Label;
use std::alloc::Global;
use std::cmp::Ordering;
use std::marker::Model;

/// A node: its marks, and its edges in the order of labels' texts.
#[derive(Drop)]
pub(crate) struct Entry {
    low: u16,
    up: u16,
    edges: Vec<(Label, u32)>,
}

impl Model for Entry {
    ghost use Rattle.rt_tree.specs.Trees.{Node};

    ghost Value = { Node };

    ghost view = { λ n. record { low = n.low; up = n.up; edges = n.edges.items } };
}

impl Entry {
    /// The node without edges. It takes no memory.
    pub(crate) fn new(alloc: Global, low: u16, up: u16) -> Entry
        ensures { result ≡ leaf low up }
    {
        Entry {
            low,
            up,
            edges: Vec::new(alloc),
        }
    }

    /// The node with these marks, the lower one first, and these edges.
    pub(crate) fn of(mark: (u16, u16), edges: Vec<(Label, u32)>) -> Entry
        ensures marks { marks_of result ≡ mark }
        ensures edges { result.edges ≡ edges.items }
    {
        Entry {
            low: mark.0,
            up: mark.1,
            edges,
        }
    }

    /// Its marks, the lower one first.
    pub(crate) fn mark(&self) -> (u16, u16)
        ensures { result ≡ marks_of self.now }
    {
        (self.low, self.up)
    }

    /// Its edges in order.
    pub(crate) fn edges(&self) -> &[(Label, u32)]
        ensures { result.now ≡ self.now.edges }
    {
        self.edges.as_slice()
    }

    /// Where its edge of a label leads, if it has one, found in time logarithmic in how many it has.
    pub(crate) fn end(&self, label: Label) -> Option<u32>
        requires { (count : ℕ) × AreEdges count self.now.edges }
        ensures { result ≡ edge_of label self.now }
    {
        if !is_label(label) {
            return None;
        }
        let place = place_of(&self.edges, label);
        if place == 0 {
            return None;
        }
        let (last, end) = self.edges[place - 1];
        if last == label { Some(end) } else { None }
    }

    /// Adds an edge. When out of memory, the node is as it was.
    pub(crate) fn add(&mut self, label: Label, to: u32) -> Result<(), Memory>
        requires label { IsLabel label }
        requires edges { AllByRecursion (λ edge. IsLabel edge.0) self.old.edges }
        requires ordered { AreOrdered self.old.edges }
        ensures ok { OnOk result (self.new ≡ longer_node self.old label to) }
        ensures err { OnErr result (self.new ≡ self.old) }
    {
        let place = place_of(&self.edges, label);
        self.edges.insert(place, (label, to))?;
        Ok(())
    }
}

// Where an edge with the label comes: before the first with a greater label.
fn place_of(edges: &[(Label, u32)], label: Label) -> usize
    requires label { IsLabel label }
    requires edges { AllByRecursion (λ edge. IsLabel edge.0) edges.now }
    requires ordered { AreOrdered edges.now }
    ensures { result ≡ place_in label edges.now }
{
    let mut low = 0;
    let mut high = edges.len();
    while low < high {
        let middle = low + (high - low) / 2;
        if compare(label, edges[middle].0) == Ordering::Less {
            high = middle;
        } else {
            low = middle + 1;
        }
    }
    low
}
