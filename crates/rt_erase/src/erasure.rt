// Graphs of what pointers lead to.
ghost use Rattle.std.specs.Prelude.{◌≡◌, IfOk, OnOk, length};
ghost use Rattle.rt_tree.specs.Partitions.{AreClassesOf, IsGraph};
ghost use Rattle.rt_erase.specs.Erasures.{AreExtremes, HasErased, HasGrown, HasNames, HasNamesAt};

use crate::erasing::{add_tree, names};
use crate::extremes::Extremes;
use rt_base::Memory;
use rt_tree::{Graph, Partition, Tree};
use std::alloc::Global;
use std::marker::Model;

/// A graph of what the pointers of trees lead to. Its first nodes stand for the names of scalars, the others for nodes
/// of the trees, with an edge for each field, to what the field points to or to the name of its scalar.
#[derive(Drop)]
pub struct Erasure {
    extremes: Extremes,
    graph: Graph,
}

impl Model for Erasure {
    ghost use Rattle.rt_erase.specs.Erasures.{AreExtremes, Erased, HasNames};

    ghost Value = { Erased };

    ghost view = { λ e. record { extremes = e.extremes; graph = e.graph } };

    ghost invariant = { λ e. AreExtremes e.extremes × HasNames e.extremes.count e.graph };
}

impl Erasure {
    /// The graph of the names alone. The error is out of memory.
    pub fn new(alloc: Global, extremes: Extremes) -> Result<Erasure, Memory>
        requires { AreExtremes extremes }
        ensures { IfOk result (λ erasure. erasure.extremes ≡ extremes) }
    {
        let graph = names(alloc, extremes.count)?;
        Ok(Erasure { extremes, graph })
    }

    /// Adds what the pointers of a tree lead to; the result is the number of the node that stands for the tree's root,
    /// and the others follow. The error is out of memory, or of numbers of 32 bits.
    pub fn add(&mut self, alloc: Global, tree: &Tree) -> Result<u32, Memory>
        requires { HasNamesAt self.old.extremes.count tree.now }
        ensures extremes { OnOk result (self.new.extremes ≡ self.old.extremes) }
        ensures grown { OnOk result (HasGrown self.old.graph self.new.graph) }
        ensures start { IfOk result (λ start. start ≡ length self.old.graph) }
        ensures erased { IfOk result (λ start. HasErased self.new.extremes self.new.graph start tree.now) }
    {
        let extremes = self.extremes;
        add_tree(alloc, &mut self.graph, tree, extremes)
    }

    /// How many names the lattice has, its top and its bottom. It takes no memory.
    pub fn extremes(&self) -> Extremes
        ensures extremes { result ≡ self.now.extremes }
        ensures within { AreExtremes self.now.extremes }
    {
        self.extremes
    }

    /// How many nodes the graph has. It takes no memory.
    pub fn size(&self) -> u32
        ensures count { result ≡ length self.now.graph }
        ensures graph { IsGraph self.now.graph }
        ensures names { HasNames self.now.extremes.count self.now.graph }
    {
        self.graph.size()
    }

    /// Classes of the nodes: those of one class have equal trees of fields behind them, down to the names of scalars.
    /// The error is out of memory.
    pub fn classes(&self, alloc: Global) -> Result<Partition, Memory>
        ensures classes { IfOk result (λ partition. AreClassesOf self.now.graph partition) }
        ensures names { HasNames self.now.extremes.count self.now.graph }
        ensures graph { IsGraph self.now.graph }
    {
        let _size = self.graph.size();
        Partition::of(alloc, &self.graph)
    }
}
