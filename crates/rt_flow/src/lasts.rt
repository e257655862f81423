// The last definition of a location in a range of sites.
ghost use Rattle.std.specs.Prelude.{IfOk};
ghost use Rattle.std.specs.List.Sorted.{IsStrictlyIncreasing};
ghost use Rattle.rt_flow.specs.Blocks.{AreLasts, IsLastOf};

use crate::blocks::Blocks;
use rt_base::Memory;
use std::alloc::Global;

/// The last of ascending sites that is in a range, found in time logarithmic in how many there are.
pub(crate) fn last_within(sites: &[u32], from: u32, end: u32) -> Option<u32>
    requires { IsStrictlyIncreasing sites.now }
    ensures { IsLastOf sites.now from end result }
{
    let before = sites.partition_point(|site| *site < end);
    if before == 0 {
        return None;
    }
    let last = sites[before - 1];
    if last < from { None } else { Some(last) }
}

/// The last of ascending sites in each block, if it has one. The error is out of memory.
pub(crate) fn lasts(
    alloc: Global,
    blocks: &Blocks,
    sites: &[u32],
) -> Result<Vec<Option<u32>>, Memory>
    requires { IsStrictlyIncreasing sites.now }
    ensures { IfOk result (λ lasts. AreLasts blocks.now.firsts.items sites.now lasts.items) }
{
    let mut lasts = Vec::with_capacity(alloc, blocks.count())?;
    for block in 0..blocks.count() {
        let from = blocks.firsts()[block];
        let end = blocks.firsts()[block + 1];
        lasts.push(last_within(sites, from, end))?;
    }
    Ok(lasts)
}
