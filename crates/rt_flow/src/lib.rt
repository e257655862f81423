//! Which definitions of a location reach a site of a body: reaching definitions over a graph of sites.
#![tactic(auto)]

ghost use Rattle.std.specs.Prelude.{IfOk};
ghost use Rattle.rt_flow.specs.Reaching.{IsReachOf};

mod blocks;
mod def;
mod graph;
mod lasts;
mod lists;
mod locations;
mod reach;
mod rows;
mod source;
mod tables;
mod targets;

use blocks::Blocks;
pub use def::Def;
pub use graph::Graph;
use lists::Lists;
pub use reach::Reach;
use rt_base::Memory;
pub use source::Source;
use std::alloc::Global;

/// Which definitions reach the sites of a graph. The answer is linear in sites and definitions, in classes of locations times
/// blocks of sites, and in the different lists of definitions that reach blocks; the time is linear in these, but for
/// logarithms, in edges, and in how many definitions of each class reach each block. The error is out of memory.
pub fn reaching(alloc: Global, graph: &Graph) -> Result<Reach, Memory>
    ensures { IfOk result (IsReachOf graph.now) }
{
    let blocks = Blocks::of(alloc, graph)?;
    let targets = targets::targets(alloc, graph, &blocks)?;
    let (locations, classes) = locations::classes(alloc, graph)?;
    let entry = blocks.block(graph.entry());
    let mut sets = Lists::new(alloc);
    let tables = tables::tables(alloc, &blocks, &targets, entry, &classes, &mut sets)?;
    let own = reach::own(alloc, graph.sites())?;
    Ok(Reach {
        blocks,
        locations,
        classes,
        tables,
        sets,
        own,
    })
}
