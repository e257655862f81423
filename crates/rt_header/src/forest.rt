// The trees of sketches in one graph.
ghost use Rattle.std.specs.Prelude.{◌≡◌, ◌<◌, All, IfOk, OnOk, ℕ, [], length, map, slice_index_or};
ghost use Rattle.rt_lattice.specs.Bounds.{IsBottom, IsTop};
ghost use Rattle.rt_lattice.specs.Lattices.{IsBelow, IsLattice, size_of};
ghost use Rattle.rt_lines.specs.Names.{IsName};
ghost use Rattle.rt_sketch.specs.Sketches.{HasMarksBelow};
ghost use Rattle.rt_tree.specs.Trees.{Nodes, node_at};
ghost use Rattle.rt_erase.specs.Erasures.{AreExtremes, HasGrown};
ghost use Rattle.rt_erase.specs.Rows.{scalar_number};
ghost use Rattle.rt_header.specs.Inside.Built.{IsForest, IsNodeOf, class_of, tree_of};
ghost use Rattle.rt_header.specs.Inside.Made.{AreErased, IsErased};

use crate::declaring::Sketches;
use rt_base::Memory;
use rt_erase::{Erasure, Extremes, scalar};
use rt_lattice::Lattice;
use rt_lines::Names;
use rt_tree::{Partition, Tree};
use std::alloc::Global;
use std::marker::Model;

// Sketches, of which what pointers lead to stands in one graph, and the classes of its nodes.
#[derive(Drop)]
pub(crate) struct Forest<'a> {
    sketches: &'a Sketches,
    names: &'a Names,
    erasure: Erasure,
    starts: Vec<u32>,
    classes: Partition,
}

impl<'a> Model for Forest<'a> {
    ghost use Rattle.std.specs.Prelude.{ℕ, map};
    ghost use Rattle.rt_tree.specs.Trees.{Nodes};
    ghost use Rattle.rt_header.specs.Inside.Built.{Forest as Trees, IsForest};

    ghost Value = { Trees };

    ghost view = { λ f. record {
      names = f.names.now;
      erased = f.erasure;
      trees = map (λ (s : ℕ × Nodes). s.1) f.sketches.now;
      starts = f.starts.items;
      classes = f.classes;
    } };

    ghost invariant = { λ f. IsForest (record {
      names = f.names.now;
      erased = f.erasure;
      trees = map (λ (s : ℕ × Nodes). s.1) f.sketches.now;
      starts = f.starts.items;
      classes = f.classes;
    }) };
}

// The count, the top and the bottom of the names of a lattice.
fn extremes_of(lattice: &Lattice) -> Extremes
    ensures count { result.count ≡ size_of lattice.now }
    ensures top { IsTop (IsBelow lattice.now) (size_of lattice.now) result.top }
    ensures bottom { IsBottom (IsBelow lattice.now) (size_of lattice.now) result.bottom }
{
    Extremes {
        count: lattice.names().items().len() as u16,
        top: lattice.top(),
        bottom: lattice.bottom(),
    }
}

// Adds a tree to a graph. The result is the number of its root.
fn add(alloc: Global, erasure: &mut Erasure, tree: &Tree) -> Result<u32, Memory>
    requires { HasMarksBelow erasure.old.extremes.count tree.now }
    ensures extremes { OnOk result (erasure.new.extremes ≡ erasure.old.extremes) }
    ensures grown { OnOk result (HasGrown erasure.old.graph erasure.new.graph) }
    ensures erased { IfOk result (λ start. IsErased erasure.new start tree.now) }
{
    let _size = tree.size();
    let start = erasure.add(alloc, tree)?;
    Ok(start)
}

// Adds the trees of sketches to a graph. The result are the numbers of their roots.
fn add_all(alloc: Global, erasure: &mut Erasure, sketches: &Sketches) -> Result<Vec<u32>, Memory>
    requires { All (λ (s : ℕ × Nodes). HasMarksBelow erasure.old.extremes.count s.1) sketches.now }
    ensures extremes { OnOk result (erasure.new.extremes ≡ erasure.old.extremes) }
    ensures erased { IfOk result (λ starts.
        AreErased erasure.new starts.items (map (λ (s : ℕ × Nodes). s.1) sketches.now)) }
{
    let mut starts = Vec::new(alloc);
    for (_number, sketch) in sketches.items() {
        starts.push(add(alloc, erasure, sketch.tree())?)?;
    }
    Ok(starts)
}

impl<'a> Forest<'a> {
    // The forest of sketches with the names of a lattice. The error is out of memory.
    pub(crate) fn of(
        alloc: Global,
        sketches: &'a Sketches,
        lattice: &'a Lattice,
    ) -> Result<Forest<'a>, Memory>
        requires marks { All (λ (s : ℕ × Nodes). HasMarksBelow (size_of lattice.now) s.1) sketches.now }
        ensures forest { IfOk result IsForest }
        ensures lattice { OnOk result (IsLattice lattice.now) }
        ensures names { IfOk result (λ forest. forest.names ≡ lattice.now.names) }
        ensures trees { IfOk result (λ forest. forest.trees ≡ map (λ (s : ℕ × Nodes). s.1) sketches.now) }
        ensures top { IfOk result (λ forest. IsTop (IsBelow lattice.now) (size_of lattice.now) forest.erased.extremes.top) }
        ensures bottom { IfOk result (λ forest.
            IsBottom (IsBelow lattice.now) (size_of lattice.now) forest.erased.extremes.bottom) }
    {
        let mut erasure = Erasure::new(alloc, extremes_of(lattice))?;
        let starts = add_all(alloc, &mut erasure, sketches)?;
        let classes = erasure.classes(alloc)?;
        Ok(Forest {
            sketches,
            names: lattice.names(),
            erasure,
            starts,
            classes,
        })
    }

    // The tree of a number.
    pub(crate) fn tree(&self, i: usize) -> &Tree
        requires { i < length self.now.trees }
        ensures tree { result.now ≡ tree_of self.now i }
        ensures forest { IsForest self.now }
    {
        let (_number, sketch) = &self.sketches.items()[i];
        sketch.tree()
    }

    // The class of what a pointer to a node of a tree leads to.
    pub(crate) fn class(&self, i: usize, node: u32) -> usize
        requires { IsNodeOf self.now i node }
        ensures class { result ≡ class_of self.now i node }
        ensures within { result < length self.now.erased.graph }
    {
        self.classes.class(self.starts[i] + node)
    }

    // How many nodes the graph has, whose numbers the classes are.
    pub(crate) fn count(&self) -> usize
        ensures { result ≡ length self.now.erased.graph }
    {
        self.erasure.size() as usize
    }

    // The name of a scalar at a node.
    pub(crate) fn scalar_name(&self, i: usize, node: u32) -> &[u8]
        requires { IsNodeOf self.now i node }
        ensures name { result.now ≡ slice_index_or self.now.names
            (scalar_number self.now.erased.extremes.top self.now.erased.extremes.bottom (node_at (tree_of self.now i) node)) [] }
        ensures spelled { IsName result.now }
    {
        let number = scalar(self.tree(i), node, self.erasure.extremes());
        self.names.items()[number as usize].items()
    }
}
