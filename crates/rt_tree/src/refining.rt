// Classes of nodes: which nodes have the same words and marks after them.
ghost use Rattle.std.specs.Prelude.{◌≡◌, ℕ, ◌++◌, ◌∷◌, [], All, IfOk, OnOk, None, Some, List, if◌then◌else◌};
ghost use Rattle.std.specs.Prelude.{length, unwrap_or, slice_index};
ghost use Rattle.std.specs.List.{AllByRecursion};
ghost use Rattle.std.specs.Str.{bytes_eq};
ghost use Rattle.rt_lines.specs.Words.{IsLabel};
ghost use Rattle.rt_tree.specs.Kinds.{rank_of, number_of};
ghost use Rattle.rt_tree.specs.Trees.{IsEdge, IsNode};
ghost use Rattle.rt_tree.specs.Partitions.{AreClassesOf, AreFinerClasses, AreToldNodes, slot_of, row_of, number_at};

use crate::entry::Entry;
use crate::order::{number, rank};
use rt_base::Memory;
use rt_lines::Label;
use std::alloc::Global;
use std::collections::BTreeMap;

// The first node with each row so far.
type Rows = BTreeMap<Vec<usize>, usize>;

/// The number in a label's text, counted from the least number of 32 bits on.
pub(crate) fn slot(label: Label) -> usize
    requires { IsLabel label }
    ensures { result ≡ slot_of (number_of label) }
{
    (number(label) as i64 + 0x8000_0000) as usize
}

// Adds to a row the kind and the number of a label, and the class of an edge's end.
fn add_edge(row: &mut Vec<usize>, label: Label, end: usize) -> Result<(), Memory>
    requires { IsLabel label }
    ensures { OnOk result (row.new.items ≡ row.old.items ++ rank_of label ∷ slot_of (number_of label) ∷ end ∷ []) }
{
    row.push(rank(label) as usize)?;
    row.push(slot(label))?;
    row.push(end)?;
    Ok(())
}

// A node's row: its marks, its class, and its edges' labels and the classes of their ends.
fn row_of(alloc: Global, node: &Entry, own: usize, class: &[usize]) -> Result<Vec<usize>, Memory>
    requires { AllByRecursion (IsEdge (length class.now)) node.now.edges }
    ensures { IfOk result (λ row. row.items ≡ row_of class.now own node.now) }
{
    let (low, up) = node.mark();
    let mut row = Vec::new(alloc);
    row.push(low as usize)?;
    row.push(up as usize)?;
    row.push(own)?;
    for (label, to) in node.edges() {
        add_edge(&mut row, *label, class[*to as usize])?;
    }
    Ok(row)
}

/// The first node with a row, which is this one where there was none.
pub(crate) fn first_with(rows: &mut Rows, row: Vec<usize>, x: usize) -> Result<usize, Memory>
    ensures first { IfOk result (λ first. first ≡ unwrap_or (number_at rows.old row.items) x) }
    ensures noted { IfOk result (λ first. (other : List ℕ)
        → number_at rows.new other
        ≡ (if bytes_eq row.items other then Some first else number_at rows.old other)) }
{
    if let Some(first) = rows.get(&row) {
        return Ok(*first);
    }
    rows.insert(row, x)?;
    Ok(x)
}

/// Classes that are finer by one label, in time near linear in the edges. The error is out of memory.
pub(crate) fn finer(alloc: Global, nodes: &[Entry], class: &[usize]) -> Result<Vec<usize>, Memory>
    requires nodes { All (IsNode (length nodes.now)) nodes.now }
    requires class { length class.now ≡ length nodes.now }
    ensures { IfOk result (λ finer. AreFinerClasses nodes.now class.now finer.items) }
{
    let mut rows = BTreeMap::new(alloc);
    let mut finer = Vec::with_capacity(alloc, nodes.len())?;
    for x in 0..nodes.len() {
        let row = row_of(alloc, &nodes[x], class[x], class)?;
        finer.push(first_with(&mut rows, row, x)?)?;
    }
    Ok(finer)
}

/// The first node for each of so many nodes. The error is out of memory.
pub(crate) fn one_class(alloc: Global, count: usize) -> Result<Vec<usize>, Memory>
    ensures each { IfOk result (λ class. length class.items ≡ count) }
    ensures one { IfOk result (λ class. (x : ℕ) → slice_index class.items x ≡ 0) }
{
    let mut class = Vec::with_capacity(alloc, count)?;
    for _ in 0..count {
        class.push(0)?;
    }
    Ok(class)
}

/// The classes of nodes that have the same words and marks after them, each named by its first node: classes that keep no like
/// nodes apart are made finer by one label after another until that changes none. The error is out of memory.
pub(crate) fn refined(alloc: Global, nodes: &[Entry], told: &[usize]) -> Result<Vec<usize>, Memory>
    requires nodes { All (IsNode (length nodes.now)) nodes.now }
    requires each { length told.now ≡ length nodes.now }
    requires told { AreToldNodes nodes.now told.now }
    ensures { IfOk result (λ class. AreClassesOf nodes.now class.items) }
{
    let mut class = finer(alloc, nodes, told)?;
    loop {
        let next = finer(alloc, nodes, &class)?;
        if next == class {
            return Ok(class);
        }
        class = next;
    }
}
