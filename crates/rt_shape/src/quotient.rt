// The graph of the classes of a tree's nodes.
ghost use Rattle.std.specs.Prelude.{◌≡◌, ℕ, ◌+◌, ◌<◌, ◌^◌, length, List, All, Contains, IfOk};
ghost use Rattle.rt_lines.specs.declared.line.Line.{Line};
ghost use Rattle.rt_shape.specs.Graphs.{IsTree};
ghost use Rattle.rt_shape.specs.Shapes.{ArePairs, IsNaming, IsShapeOf};
ghost use Rattle.rt_shape.specs.Inside.Classes.{AreBasesOf, AreClasses, AreEdgesOf, AreStepsOne, IsClosed};
ghost use Rattle.rt_shape.specs.Inside.Classes.{IsNumberOf, IsNumbering, IsQuotient};

use crate::closing::closed;
use crate::shape::Shape;
use crate::tree::Tree;
use indexmap::IndexMap;
use rt_base::Memory;
use rt_lines::{Base, Label};
use std::alloc::Global;

/// The shape of the lines whose variables are the tree's and whose pairs these are, from classes of nodes that have to
/// be one. The error is out of memory.
pub fn shape_of(
    alloc: Global,
    tree: &Tree,
    pairs: &[(u32, u32)],
    class: Vec<u32>,
) -> Result<Shape, Memory>
    requires tree { IsTree tree.now }
    requires classes { AreClasses tree.now pairs.now class.items }
    requires pairs_in { (i j : ℕ) → Contains pairs.now (i, j) → (i < tree.now.count) × (j < tree.now.count) }
    ensures { IfOk result (λ shape. (lines : List Line) → IsNaming lines tree.now → ArePairs lines tree.now pairs.now →
        IsShapeOf lines shape) }
{
    let class = closed(alloc, tree, pairs, class)?;
    quotient(alloc, tree, pairs, &class)
}

// The graph of the classes of the tree's nodes.
fn quotient(
    alloc: Global,
    tree: &Tree,
    pairs: &[(u32, u32)],
    class: &[u32],
) -> Result<Shape, Memory>
    requires classes { AreClasses tree.now pairs.now class.now }
    requires closed { IsClosed tree.now pairs.now class.now }
    ensures { IfOk result (λ shape. (number : List ℕ) × IsNumbering class.now number shape.count × IsQuotient tree.now number shape) }
{
    let nodes = tree.count() as usize;
    prove!(class.len() == nodes);
    let (number, count) = numbered(alloc, class)?;
    numbered_shape(alloc, tree, &number, count)
}

// The graph of the numbers of the tree's nodes, so many.
fn numbered_shape(alloc: Global, tree: &Tree, number: &[u32], count: u32) -> Result<Shape, Memory>
    requires tree { IsTree tree.now }
    requires number { (class : List ℕ) × (length class ≡ tree.now.count) × AreStepsOne tree.now class × IsNumbering class number.now count }
    ensures { IfOk result (λ shape. (shape.count ≡ count) × IsQuotient tree.now number.now shape) }
{
    let bases = bases_of(alloc, tree, number)?;
    let edges = edges_of(alloc, tree, number)?;
    Ok(Shape::from_parts(count, bases, edges))
}

// Numbers for the classes, from 0 in the order in which they first stand: the number of each node's class, and how many
// classes there are.
fn numbered(alloc: Global, class: &[u32]) -> Result<(Vec<u32>, u32), Memory>
    requires few { length class.now < 2 ^ 32 }
    requires within { All (λ c. c < length class.now) class.now }
    ensures { IfOk result (λ r. IsNumbering class.now r.0.items r.1) }
{
    let mut known = vec![in alloc; None; class.len()]?;
    let mut numbers = Vec::with_capacity(alloc, class.len())?;
    let mut count = 0;
    for c in class {
        let number = number_of(&mut known, &mut count, *c);
        numbers.push(number)?;
    }
    Ok((numbers, count))
}

// The number of a class: the next one, where it has none.
fn number_of(known: &mut Vec<Option<u32>>, count: &mut u32, class: u32) -> u32
    requires known { class < length known.old.items }
    requires few { count.old + 1 < 2 ^ 32 }
    ensures { IsNumberOf class known.old.items count.old result known.new.items count.new }
{
    match known[class as usize] {
        Some(number) => number,
        None => {
            let number = *count;
            known[class as usize] = Some(number);
            *count += 1;
            number
        }
    }
}

// The numbers of the bases' nodes.
fn bases_of(alloc: Global, tree: &Tree, number: &[u32]) -> Result<IndexMap<Base, u32>, Memory>
    requires { length number.now ≡ tree.now.count }
    ensures { IfOk result (λ bases. AreBasesOf tree.now number.now bases.entries) }
{
    let mut bases = IndexMap::new(alloc);
    for i in 0..tree.base_count() {
        let (base, node) = tree.base(i);
        bases.insert(base, number[node as usize])?;
    }
    Ok(bases)
}

// The edges between the numbers.
fn edges_of(
    alloc: Global,
    tree: &Tree,
    number: &[u32],
) -> Result<IndexMap<(u32, Label), u32>, Memory>
    requires each { length number.now ≡ tree.now.count }
    requires one { AreStepsOne tree.now number.now }
    ensures { IfOk result (λ edges. AreEdgesOf tree.now number.now edges.entries) }
{
    let mut edges = IndexMap::new(alloc);
    for i in 0..tree.edge_count() {
        let (from, label, to) = tree.edge(i);
        edges.insert((number[from as usize], label), number[to as usize])?;
    }
    Ok(edges)
}
