// Graphs that grow by what the pointers of a tree lead to.
ghost use Rattle.std.specs.Prelude.{◌≡◌, ◌+◌, ◌<◌, ◌≤◌, ◌^◌, IfOk, OnErr, OnOk, None, [], length};
ghost use Rattle.rt_tree.specs.Trees.{joined, step_of};
ghost use Rattle.rt_erase.specs.Rows.{IsRow, label_of};
ghost use Rattle.rt_erase.specs.Erasures.{AreExtremes, HasErased, HasGrown, HasNames, HasNamesAt, target_of};
ghost use Rattle.rt_erase.specs.Inside.Erasing.{HasLeaves, HasRoom, IsErasing, KeepsBelow};

use crate::extremes::Extremes;
use crate::row::{Row, fields, pointee, scalar};
use rt_base::Memory;
use rt_lines::Label;
use rt_tree::{Graph, Tree};
use std::alloc::Global;

/// The graph of so many names alone: a node for each, with its number for its lower mark and 1 for its upper one. The
/// error is out of memory.
pub(crate) fn names(alloc: Global, count: u16) -> Result<Graph, Memory>
    ensures { IfOk result (λ graph. HasNames count graph) }
{
    let mut graph = Graph::new(alloc);
    for name in 0..count {
        graph.grow(name, 1)?;
    }
    Ok(graph)
}

// Adds nodes without edges; the result is the number of the first.
fn add_nodes(graph: &mut Graph, count: u32) -> Result<u32, Memory>
    ensures grown { HasGrown graph.old graph.new }
    ensures start { IfOk result (λ start. start ≡ length graph.old) }
    ensures leaves { OnOk result (HasLeaves (length graph.old) count graph.new) }
    ensures numbered { OnOk result (length graph.new ≤ 2 ^ 32) }
{
    let start = graph.size();
    for _ in 0..count {
        graph.grow(0, 0)?;
    }
    Ok(start)
}

// The number of the node that a field leads to: that of what it points to, or that of the name of its scalar.
fn target(tree: &Tree, extremes: Extremes, start: u32, row: Row) -> u32
    requires room { HasRoom extremes start tree.now }
    requires row { row.node < length tree.now }
    ensures target { result ≡ target_of extremes start tree.now row }
    ensures within { result < start + length tree.now }
{
    match pointee(tree, row.node) {
        Some(node) if row.bits == 32 => start + node,
        _ => u32::from(scalar(tree, row.node, extremes)),
    }
}

// Adds the edge of a field of a node.
fn add_field(
    graph: &mut Graph,
    tree: &Tree,
    extremes: Extremes,
    start: u32,
    node: u32,
    row: Row,
) -> Result<(), Memory>
    requires room { HasRoom extremes start tree.now }
    requires within { start + length tree.now ≤ length graph.old }
    requires node { node < length tree.now }
    requires row { IsRow (length tree.now) row }
    requires free { step_of graph.old (start + node) (label_of row) ≡ None }
    ensures ok { OnOk result (graph.new
        ≡ joined graph.old (start + node) (label_of row) (target_of extremes start tree.now row)) }
    ensures err { OnErr result (graph.new ≡ graph.old) }
{
    let label = Label::Field(row.bits, row.offset as i32);
    let to = target(tree, extremes, start, row);
    graph.edge(start + node, &label, to)
}

// Adds the edges of the fields of a node.
fn add_fields(
    alloc: Global,
    graph: &mut Graph,
    tree: &Tree,
    extremes: Extremes,
    start: u32,
    node: u32,
) -> Result<(), Memory>
    requires room { HasRoom extremes start tree.now }
    requires within { start + length tree.now ≤ length graph.old }
    requires node { node < length tree.now }
    requires erasing { IsErasing extremes start tree.now node [] graph.old }
    ensures kept { KeepsBelow start graph.old graph.new }
    ensures erasing { OnOk result (IsErasing extremes start tree.now (node + 1) [] graph.new) }
{
    let rows = fields(alloc, tree, node)?;
    for row in &rows {
        add_field(graph, tree, extremes, start, node, *row)?;
    }
    Ok(())
}

/// Adds what the pointers of a tree lead to; the result is the number of the node that stands for the tree's root, and
/// the others follow. The error is out of memory, or of numbers of 32 bits.
pub(crate) fn add_tree(
    alloc: Global,
    graph: &mut Graph,
    tree: &Tree,
    extremes: Extremes,
) -> Result<u32, Memory>
    requires extremes { AreExtremes extremes }
    requires names { HasNames extremes.count graph.old }
    requires marks { HasNamesAt extremes.count tree.now }
    ensures grown { HasGrown graph.old graph.new }
    ensures start { IfOk result (λ start. start ≡ length graph.old) }
    ensures erased { IfOk result (λ start. HasErased extremes graph.new start tree.now) }
{
    let start = add_nodes(graph, tree.size())?;
    for node in 0..tree.size() {
        add_fields(alloc, graph, tree, extremes, start, node)?;
    }
    Ok(start)
}
