// Edges by the states that they leave.
ghost use Rattle.std.specs.Prelude.{◌≡◌, ℕ, ◌<◌, [], length, slice_index_or, IfOk, OnOk};
ghost use Rattle.rt_sat.specs.Searches.{IsEntered, IsIndexed};

use crate::reached::key;
use crate::state::Edge;
use rt_base::{Memory, Sequence};
use std::alloc::Global;

// By the key of each state the indices of the edges that leave it.
pub(crate) fn indexed(alloc: Global, edges: &[Edge]) -> Result<Vec<Sequence<usize>>, Memory>
    ensures { IfOk result (λ out. IsIndexed edges.now out.items) }
{
    let mut out = Vec::new(alloc);
    for i in 0..edges.len() {
        enter(alloc, &mut out, key(edges[i].from), i)?;
    }
    Ok(out)
}

// Puts an index behind the others of a key.
pub(crate) fn enter(
    alloc: Global,
    out: &mut Vec<Sequence<usize>>,
    key: usize,
    index: usize,
) -> Result<(), Memory>
    ensures { OnOk result (IsEntered key index out.old.items out.new.items) }
{
    widen(alloc, out, key)?;
    out[key].push(index)?;
    Ok(())
}

// Makes room for the indices of a key.
fn widen(alloc: Global, out: &mut Vec<Sequence<usize>>, key: usize) -> Result<(), Memory>
    ensures room { OnOk result (key < length out.new.items) }
    ensures same { OnOk result ((n : ℕ) → slice_index_or out.new.items n [] ≡ slice_index_or out.old.items n []) }
{
    while out.len() <= key {
        out.push(Sequence::new(alloc))?;
    }
    Ok(())
}
