// Classes of the nodes of arcs.
ghost use Rattle.std.specs.Prelude.{◌≡◌, ℕ, ◌<◌, true, Option as Maybe, length, slice_index_or, IfOk, OnOk};
ghost use Rattle.rt_outline.specs.Arcs.{HasArc, Leads, allows};
ghost use Rattle.rt_outline.specs.Together.{ArePairsBelow, AreTogetherBy, HasMorePairs, IsOpenTo};

use crate::arc::Arc;
use crate::grouping::{Classes, together};
use crate::spreading::{is_open, leaving};
use rt_base::{Memory, Sequence};
use std::alloc::Global;

// The classes of the nodes: two are in one exactly where arcs of lines that stand and pushed arcs lead both ways.
pub(crate) fn classes(
    alloc: Global,
    arcs: &[Sequence<Arc>],
    stands: &[bool],
) -> Result<Classes, Memory>
    requires few { length arcs.now < 4294967296 }
    requires within { (v w : ℕ) (line : Maybe ℕ) → HasArc arcs.now v w line → w < length arcs.now }
    ensures classes { IfOk result (λ classes. AreTogetherBy (Leads arcs.now stands.now true) (length arcs.now) classes.numbers.items) }
    ensures few { IfOk result (λ classes. (v : ℕ) → v < length arcs.now → slice_index_or classes.numbers.items v 0 < classes.count) }
{
    let pairs = open_pairs(alloc, arcs, stands)?;
    let classes = together(alloc, arcs.len(), &pairs)?;
    Ok(classes)
}

// The pairs of nodes that such arcs lead between.
fn open_pairs(
    alloc: Global,
    arcs: &[Sequence<Arc>],
    stands: &[bool],
) -> Result<Vec<(u32, u32)>, Memory>
    requires few { length arcs.now < 4294967296 }
    ensures { IfOk result (λ pairs. ArePairsBelow (Leads arcs.now stands.now true) (length arcs.now) pairs.items) }
{
    let mut pairs = Vec::new(alloc);
    for node in 0..arcs.len() as u32 {
        add_pairs(&mut pairs, stands, node, leaving(arcs, node))?;
    }
    Ok(pairs)
}

// Adds the pairs of a node and what such arcs lead to from it.
fn add_pairs(
    pairs: &mut Vec<(u32, u32)>,
    stands: &[bool],
    node: u32,
    arcs: &[Arc],
) -> Result<(), Memory>
    ensures { OnOk result (HasMorePairs node (IsOpenTo stands.now arcs.now) pairs.old.items pairs.new.items) }
{
    for arc in arcs {
        add_pair(pairs, stands, node, *arc)?;
    }
    Ok(())
}

// Adds the pair of a node and what an arc leads to, where it may be followed.
fn add_pair(pairs: &mut Vec<(u32, u32)>, stands: &[bool], node: u32, arc: Arc) -> Result<(), Memory>
    ensures { OnOk result (HasMorePairs node
        (λ (w : ℕ). (arc.to ≡ w) × (allows stands.now true arc.line ≡ true)) pairs.old.items pairs.new.items) }
{
    if is_open(stands, true, arc.line) {
        pairs.push((node, arc.to))?;
    }
    Ok(())
}
