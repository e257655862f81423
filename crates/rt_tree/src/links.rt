// The edges of nodes as items of their own, each of which leads to one node.
ghost use Rattle.std.specs.Prelude.{◌≡◌, ℕ, ◌+◌, ◌<◌, ◌≤◌, ◌^◌, ◌++◌, ◌∷◌, [], All, IfOk, OnOk};
ghost use Rattle.std.specs.Prelude.{length, map, slice_index_or};
ghost use Rattle.rt_lines.specs.Words.{IsLabel};
ghost use Rattle.rt_tree.specs.Inside.Splits.{AreFirstLabels, AreInto, label_row, link_of, links_of};

use crate::entry::Entry;
use crate::order::rank;
use crate::refining::{first_with, slot};
use rt_base::{Memory, Sequence};
use rt_lines::Label;
use std::alloc::Global;
use std::collections::BTreeMap;

/// An edge: the node where it begins, its label, and the node where it ends.
#[derive(Clone, Copy)]
pub(crate) struct Link {
    pub(crate) from: usize,
    pub(crate) label: Label,
    pub(crate) to: usize,
}

/// The edges of all nodes, those of a node in order, nodes by their numbers. The error is out of memory.
pub(crate) fn links_of(alloc: Global, nodes: &[Entry]) -> Result<Vec<Link>, Memory>
    ensures { IfOk result (λ links. links.items ≡ links_of nodes.now) }
{
    let mut links = Vec::new(alloc);
    for x in 0..nodes.len() {
        add_links(&mut links, x, nodes[x].edges())?;
    }
    Ok(links)
}

// Adds the edges of a node.
fn add_links(links: &mut Vec<Link>, from: usize, edges: &[(Label, u32)]) -> Result<(), Memory>
    ensures { OnOk result (links.new.items ≡ links.old.items ++ map (link_of from) edges.now) }
{
    for (label, to) in edges {
        let link = Link {
            from,
            label: *label,
            to: *to as usize,
        };
        links.push(link)?;
    }
    Ok(())
}

/// So many empty rows. The error is out of memory.
pub(crate) fn empty_rows(alloc: Global, count: usize) -> Result<Vec<Sequence<usize>>, Memory>
    ensures length { IfOk result (λ rows. length rows.items ≡ count) }
    ensures empty { IfOk result (λ rows. (v : ℕ) → slice_index_or rows.items v [] ≡ []) }
{
    let mut rows = Vec::new(alloc);
    for _ in 0..count {
        rows.push(Sequence::new(alloc))?;
    }
    Ok(rows)
}

/// What leads to each item: to a node the edges that end there, to an edge the node where it begins. The number of an edge comes
/// after those of so many nodes.
pub(crate) fn into_of(
    alloc: Global,
    count: usize,
    links: &[Link],
) -> Result<Vec<Sequence<usize>>, Memory>
    requires few { count < 2 ^ 32 }
    requires ends { All (λ link. (link.from < count) × (link.to < count)) links.now }
    ensures { IfOk result (λ into. AreInto count links.now into.items) }
{
    let mut into = empty_rows(alloc, count + links.len())?;
    for j in 0..links.len() {
        let link = links[j];
        into[link.to].push(count + j)?;
        into[count + j].push(link.from)?;
    }
    Ok(into)
}

// A label's row.
fn label_row(alloc: Global, label: Label) -> Result<Vec<usize>, Memory>
    requires { IsLabel label }
    ensures { IfOk result (λ row. row.items ≡ label_row label) }
{
    let mut row = Vec::new(alloc);
    row.push(rank(label) as usize)?;
    row.push(slot(label))?;
    Ok(row)
}

/// For each edge the first one with its label. The error is out of memory.
pub(crate) fn first_labels(alloc: Global, links: &[Link]) -> Result<Vec<usize>, Memory>
    requires { All (λ link. IsLabel link.label) links.now }
    ensures { IfOk result (λ first. AreFirstLabels links.now first.items) }
{
    let mut rows = BTreeMap::new(alloc);
    let mut first = Vec::with_capacity(alloc, links.len())?;
    for j in 0..links.len() {
        let row = label_row(alloc, links[j].label)?;
        first.push(first_with(&mut rows, row, j)?)?;
    }
    Ok(first)
}
