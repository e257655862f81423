// The nodes of a shape at which counts above nought matter.
ghost use Rattle.std.specs.Prelude.{◌≡◌, ◌<◌, ◌⊎◌, List, true, length, IsTrue, IfOk, OnOk};
ghost use Rattle.rt_lines.specs.declared.variable.Dtv.{Dtv as Variable};
ghost use Rattle.rt_shape.specs.Graphs.{Graph};
ghost use Rattle.rt_named.specs.Nodes.{AreNodesOf};
ghost use Rattle.rt_sat.specs.Mattering.{AreMarked, AreMattering, IsKeptAt, mark_at};

use crate::closing::no_numbers;
use crate::pushing::numbers_at;
use rt_base::{Memory, Sequence};
use rt_named::nodes::is_flip;
use rt_shape::Shape;
use std::alloc::Global;

// The nodes at or below which one has a load and a store, found in time linear in the shape. No marks at all say that all
// nodes are marked.
pub(crate) fn marks(alloc: Global, shape: &Shape) -> Result<Vec<bool>, Memory>
    ensures { IfOk result (λ marks. AreMarked shape.now marks.items) }
{
    let before = before(alloc, shape)?;
    let mut marks = no_marks(alloc, shape.node_count())?;
    let mut todo = Vec::new(alloc);
    for node in 0..shape.node_count() {
        if is_flip(shape, Some(node)) {
            mark(&mut marks, &mut todo, node)?;
        }
    }
    spread(&before, &mut marks, &mut todo)?;
    if are_kept(shape, &marks) {
        return Ok(marks);
    }
    Ok(Vec::new(alloc))
}

// For each node those with an edge to it.
fn before(alloc: Global, shape: &Shape) -> Result<Vec<Sequence<u32>>, Memory> {
    let mut before = no_numbers(alloc, shape.node_count() as usize)?;
    for i in 0..shape.edge_count() {
        let (from, _, to) = shape.edge(i);
        before[to as usize].push(from)?;
    }
    Ok(before)
}

// No mark at any of so many nodes.
fn no_marks(alloc: Global, count: u32) -> Result<Vec<bool>, Memory> {
    let mut marks = Vec::new(alloc);
    for _ in 0..count {
        marks.push(false)?;
    }
    Ok(marks)
}

// Marks a node, and notes it if it wasn't marked.
fn mark(marks: &mut [bool], todo: &mut Vec<u32>, node: u32) -> Result<(), Memory> {
    let node_index = node as usize;
    if node_index < marks.len() && !marks[node_index] {
        marks[node_index] = true;
        todo.push(node)?;
    }
    Ok(())
}

// Marks what has an edge to a noted node, and so on. Each node is noted once.
fn spread(before: &[Sequence<u32>], marks: &mut [bool], todo: &mut Vec<u32>) -> Result<(), Memory> {
    for _ in 0..before.len() {
        let Some(node) = todo.pop() else {
            return Ok(());
        };
        for earlier in numbers_at(before, node) {
            mark(marks, todo, *earlier)?;
        }
    }
    Ok(())
}

// Whether a node is marked, as those past the end are.
pub(crate) fn is_marked(marks: &[bool], node: Option<u32>) -> bool
    ensures { result ≡ mark_at marks.now node }
{
    match node {
        Some(node) => match marks.get(node as usize) {
            Some(mark) => *mark,
            None => true,
        },
        None => false,
    }
}

// For each node of a list whether it is marked.
pub(crate) fn matters(
    alloc: Global,
    nodes: &[Option<u32>],
    marks: &[bool],
) -> Result<Vec<bool>, Memory>
    ensures { IfOk result (λ matters. (graph : Graph) (named : List Variable) → AreNodesOf graph named nodes.now →
        AreMattering graph marks.now named matters.items) }
{
    let mut matters = Vec::new(alloc);
    for node in nodes {
        matters.push(is_marked(marks, *node))?;
    }
    Ok(matters)
}

// Whether each edge keeps to the marks.
fn are_kept(shape: &Shape, marks: &[bool]) -> bool
    ensures { IsTrue result → AreMarked shape.now marks.now }
{
    for i in 0..shape.edge_count() {
        if !is_kept(shape, marks, i) {
            return false;
        }
    }
    true
}

// Whether an edge keeps to the marks.
fn is_kept(shape: &Shape, marks: &[bool], i: usize) -> bool
    requires { i < length shape.now.edges }
    ensures { IsTrue result → IsKeptAt shape.now marks.now i }
{
    let (from, _, to) = shape.edge(i);
    let flips = is_flip(shape, Some(from));
    let below = is_marked(marks, Some(to));
    let above = is_marked(marks, Some(from));
    follows(flips, below, above)
}

// Whether a mark is there, where one is wanted.
fn follows(flips: bool, below: bool, above: bool) -> bool
    ensures { IsTrue result → (flips ≡ true) ⊎ (below ≡ true) → above ≡ true }
{
    above || (!flips && !below)
}
