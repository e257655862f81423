// The variables that lines name, each with a node of its own.
ghost use Rattle.std.specs.Prelude.{◌≡◌, ◌<◌, ◌⊎◌, length, slice_get, Some, IfOk, OnOk};
ghost use Rattle.rt_rules.specs.Rules.{longer};
ghost use Rattle.rt_shape.specs.Graphs.{bare, base_of, node_of, step_of, Has, IsKept, IsTree};
ghost use Rattle.rt_shape.specs.Shapes.{IsFront};

use crate::walking::walk;
use indexmap::IndexMap;
use rt_base::Memory;
use rt_lines::{Base, Dtv, Label};
use std::alloc::{AllocError, Global};
use std::marker::Model;

/// A tree of nodes, which contracts see as its graph: no two variables have one node.
#[derive(Drop)]
pub struct Tree {
    count: u32,
    bases: IndexMap<Base, u32>,
    edges: IndexMap<(u32, Label), u32>,
}

impl Model for Tree {
    ghost use Rattle.rt_shape.specs.Graphs.{Graph, IsTree};

    ghost Value = { Graph };

    ghost view = { λ t. record { count = t.count; bases = t.bases.entries; edges = t.edges.entries } };

    ghost invariant = { λ t. IsTree (record { count = t.count; bases = t.bases.entries; edges = t.edges.entries }) };
}

impl Tree {
    /// The tree without nodes. It takes no memory, and keeps the allocator.
    pub fn new(alloc: Global) -> Tree
        ensures { (x : Dtv) → Has result x → ⊥ }
    {
        Tree {
            count: 0,
            bases: IndexMap::new(alloc),
            edges: IndexMap::new(alloc),
        }
    }

    /// The node of a variable, if it has one.
    pub fn node(&self, x: &Dtv) -> Option<u32>
        ensures { result ≡ node_of self.now x.now }
    {
        walk(&self.bases, &self.edges, x)
    }

    // The node of a base, made where there is none.
    fn enter_base(&mut self, base: Base) -> Result<u32, Memory>
        ensures within { IfOk result (λ n. n < self.new.count) }
        ensures here { IfOk result (λ n. node_of self.new (bare base) ≡ Some n) }
        ensures kept { OnOk result (IsKept self.old self.new) }
        ensures only { OnOk result ((x : Dtv) → Has self.new x → Has self.old x ⊎ (x ≡ bare base)) }
    {
        if let Some(node) = self.bases.get(&base) {
            return Ok(*node);
        }
        let node = self.count;
        let Some(count) = node.checked_add(1) else {
            return Err(AllocError);
        };
        self.bases.insert(base, node)?;
        self.count = count;
        Ok(node)
    }

    // The node after a node, made where there is none.
    fn enter_step(&mut self, node: u32, label: Label) -> Result<u32, Memory>
        requires { node < self.old.count }
        ensures within { IfOk result (λ n. n < self.new.count) }
        ensures here { IfOk result (λ n. (x : Dtv) → node_of self.old x ≡ Some node → node_of self.new (longer x label) ≡ Some n) }
        ensures kept { OnOk result (IsKept self.old self.new) }
        ensures only { OnOk result ((x y : Dtv) → node_of self.old x ≡ Some node → Has self.new y →
            Has self.old y ⊎ (y ≡ longer x label)) }
    {
        if let Some(next) = self.edges.get(&(node, label)) {
            return Ok(*next);
        }
        let next = self.count;
        let Some(count) = next.checked_add(1) else {
            return Err(AllocError);
        };
        self.edges.insert((node, label), next)?;
        self.count = count;
        Ok(next)
    }

    /// Gives a node to the variable, and to each with a prefix of its word, in time linear in the word. It is the node of the
    /// variable. When out of memory, some of them may have one.
    pub fn enter(&mut self, x: &Dtv) -> Result<u32, Memory>
        ensures here { IfOk result (λ n. node_of self.new x.now ≡ Some n) }
        ensures kept { OnOk result (IsKept self.old self.new) }
        ensures only { OnOk result ((y : Dtv) → Has self.new y → Has self.old y ⊎ IsFront y x.now) }
    {
        let mut node = self.enter_base(x.base)?;
        for label in x.word.items() {
            node = self.enter_step(node, *label)?;
        }
        Ok(node)
    }

    /// How many nodes there are.
    pub fn count(&self) -> u32
        ensures count { result ≡ self.now.count }
        ensures good { IsTree self.now }
    {
        self.count
    }

    /// How many bases have a node.
    pub fn base_count(&self) -> usize
        ensures { result ≡ length self.now.bases }
    {
        self.bases.len()
    }

    /// One of the bases, with its node.
    pub fn base(&self, i: usize) -> (Base, u32)
        requires { i < length self.now.bases }
        ensures entry { slice_get self.now.bases i ≡ Some result }
        ensures found { base_of self.now result.0 ≡ Some result.1 }
        ensures within { result.1 < self.now.count }
    {
        match self.bases.get_index(i) {
            Some((base, node)) => (*base, *node),
            None => unreachable!(),
        }
    }

    /// How many edges there are.
    pub fn edge_count(&self) -> usize
        ensures { result ≡ length self.now.edges }
    {
        self.edges.len()
    }

    /// One of the edges: a node, a label, and the node after it.
    pub fn edge(&self, i: usize) -> (u32, Label, u32)
        requires { i < length self.now.edges }
        ensures entry { slice_get self.now.edges i ≡ Some ((result.0, result.1), result.2) }
        ensures found { step_of self.now result.0 result.1 ≡ Some result.2 }
        ensures within { (result.0 < self.now.count) × (result.2 < self.now.count) }
    {
        match self.edges.get_index(i) {
            Some((letter, to)) => (letter.0, letter.1, *to),
            None => unreachable!(),
        }
    }
}
