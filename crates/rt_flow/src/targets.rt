// Where one comes from block to block.
ghost use Rattle.std.specs.Prelude.{IfOk};
ghost use Rattle.rt_flow.specs.Blocks.{AreBlocks, AreTargets};

use crate::blocks::Blocks;
use crate::graph::Graph;
use crate::lists::empty_lists;
use rt_base::{Memory, Sequence};
use std::alloc::Global;

/// For each block those to whose first site an edge leads from it. The error is out of memory.
pub(crate) fn targets(
    alloc: Global,
    graph: &Graph,
    blocks: &Blocks,
) -> Result<Vec<Sequence<u32>>, Memory>
    requires { AreBlocks graph.now blocks.now.block.items blocks.now.firsts.items }
    ensures { IfOk result (λ targets. AreTargets graph.now blocks.now.block.items blocks.now.firsts.items targets.items) }
{
    let mut targets = empty_lists(alloc, blocks.count())?;
    for (from, to) in graph.edges() {
        let block = blocks.block(*to);
        if blocks.first(block) == *to {
            let from_block = blocks.block(*from) as usize;
            targets[from_block].push(block)?;
        }
    }
    Ok(targets)
}
