// Sketches.
ghost use Rattle.std.specs.Prelude.{◌≡◌, ℕ, ◌<◌, [], All, IfOk, Some, length, slice_index_or};
ghost use Rattle.rt_lines.specs.Lines.{HasConstantsBelow};
ghost use Rattle.rt_lines.specs.Words.{IsLabel};
ghost use Rattle.rt_lattice.specs.Lattices.{size_of};
ghost use Rattle.rt_tree.specs.Trees.{marks_of, node_at, step_of};
ghost use Rattle.rt_sketch.specs.Growths.{HasNextRows, IsGrown};
ghost use Rattle.rt_sketch.specs.Sketches.{HasOneEnd, IsSketchOf};
ghost use Rattle.rt_sketch.specs.States.{IsMachineOf};
ghost use Rattle.rt_sketch.specs.Unfoldings.{IsUnfolded};

use crate::growth::grown;
use crate::letters::letters_of;
use crate::machine::Machine;
use crate::rows::Rows;
use crate::state::State;
use rt_base::Memory;
use rt_lattice::Lattice;
use rt_lines::{Base, Label, Line};
use rt_scheme::Scheme;
use rt_tree::{Tree, minimal};
use std::alloc::Global;
use std::marker::Model;

/// The sketch of a type scheme, which contracts see as the list of the nodes of its tree. Where a node has both a load and a
/// store, the two lead to one node.
#[derive(Drop)]
pub struct Sketch {
    tree: Tree,
}

impl Model for Sketch {
    ghost use Rattle.rt_tree.specs.Trees.{Nodes};
    ghost use Rattle.rt_sketch.specs.Sketches.{HasOneEnd};

    ghost Value = { Nodes };

    ghost view = { λ s. s.tree };

    ghost invariant = { λ s. HasOneEnd s.tree };
}

impl Sketch {
    /// Its tree. It takes no memory.
    pub fn tree(&self) -> &Tree
        ensures tree { result.now ≡ self.now }
        ensures one_end { HasOneEnd self.now }
    {
        &self.tree
    }

    /// The node that a node's edge of a label leads to, if it has one. It takes no memory, and time logarithmic in how many edges
    /// the node has.
    pub fn step(&self, node: u32, label: &Label) -> Option<u32>
        requires { node < length self.now }
        ensures step { result ≡ step_of self.now node label.now }
        ensures within { (end : ℕ) → result ≡ Some end → end < length self.now }
    {
        self.tree.step(node, label)
    }

    /// A node's marks, the lower one first. It takes no memory.
    pub fn mark(&self, node: u32) -> (u16, u16)
        requires { node < length self.now }
        ensures { result ≡ marks_of (node_at self.now node) }
    {
        self.tree.mark(node)
    }
}

/// The sketch of a type scheme with the constants of a lattice. The error is out of memory.
pub fn of(alloc: Global, scheme: &Scheme, lattice: &Lattice) -> Result<Sketch, Memory>
    requires { All (HasConstantsBelow (size_of lattice.now)) scheme.now.lines }
    ensures { IfOk result (IsSketchOf lattice.now.order scheme.now.base scheme.now.lines) }
{
    let tree = unfolded(alloc, scheme.base, scheme.lines.items(), lattice)?;
    let least = minimal(alloc, &tree)?;
    let _sizes = (tree.size(), least.size(), lattice.order().count());
    Ok(Sketch { tree: least })
}

// A tree with the words of a procedure in lines, and their marks.
fn unfolded(alloc: Global, own: u32, lines: &[Line], lattice: &Lattice) -> Result<Tree, Memory>
    requires { All (HasConstantsBelow (size_of lattice.now)) lines.now }
    ensures { IfOk result (IsUnfolded lattice.now.order own lines.now) }
{
    let machine = Machine::of(alloc, lines)?;
    let tree = started(alloc, own, &machine, lines, lattice)?;
    Ok(tree)
}

// The same with the machine of the lines.
fn started(
    alloc: Global,
    own: u32,
    machine: &Machine,
    lines: &[Line],
    lattice: &Lattice,
) -> Result<Tree, Memory>
    requires machine { IsMachineOf lines.now machine.now }
    requires constants { All (HasConstantsBelow (size_of lattice.now)) lines.now }
    ensures { IfOk result (IsUnfolded lattice.now.order own lines.now) }
{
    let _count = lattice.order().count();
    match machine.start(alloc, Base::Proc(own))? {
        Some(first) => {
            let tree = tree_of(alloc, machine, lines, lattice, first)?;
            Ok(tree)
        }
        None => {
            let tree = Tree::new(alloc, lattice.bottom(), lattice.top())?;
            Ok(tree)
        }
    }
}

// The tree of what a state leads to.
fn tree_of(
    alloc: Global,
    machine: &Machine,
    lines: &[Line],
    lattice: &Lattice,
    first: State,
) -> Result<Tree, Memory>
    requires machine { IsMachineOf lines.now machine.now }
    requires constants { All (HasConstantsBelow (size_of lattice.now)) lines.now }
    ensures { IfOk result (IsGrown lattice.now.order lines.now machine.now first) }
{
    let _count = lattice.order().count();
    let rows = rows_of(alloc, machine, lines)?;
    let tree = grown(alloc, machine, lattice, &rows, first)?;
    Ok(tree)
}

// For each node of the machine of lines the letters by which they go on behind its states.
fn rows_of(alloc: Global, machine: &Machine, lines: &[Line]) -> Result<Rows, Memory>
    ensures next { IfOk result (λ rows. IsMachineOf lines.now machine.now → HasNextRows lines.now machine.now rows) }
    ensures good { IfOk result (λ rows. (n : ℕ) → All IsLabel (slice_index_or rows n [])) }
{
    let letters = letters_of(alloc, lines)?;
    let rows = Rows::of(alloc, &machine.shape, &letters)?;
    Ok(rows)
}
