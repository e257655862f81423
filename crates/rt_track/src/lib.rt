//! Values of registers: what each use and each definition of a register holds, over all ways through a body. A use takes what the
//! definitions that reach it gave; uses that share a list of definitions share a node of a graph, and nodes are visited until
//! each has what its inputs give it.
#![tactic(auto)]

ghost use Rattle.std.specs.Prelude.{◌≡◌, IfOk};
ghost use Rattle.rt_flow.specs.Reaching.{sites_of};
ghost use Rattle.rt_track.specs.Operations.{ops_sites};
ghost use Rattle.rt_track.specs.Tracked.{AreValuesOf};

mod changes;
mod graph;
mod nodes;
mod op;
mod ops;
mod solve;
mod uses;
mod value;
mod values;

pub use op::Op;
pub use ops::Ops;
use rt_base::Memory;
use rt_flow::Reach;
use std::alloc::Global;
pub use value::Value;
pub use values::Values;

/// The values of registers, where these definitions reach sites, and definitions have these operations. The time is linear, but
/// for logarithms, in sites times registers and in the members of the shared lists of registers that sites use; the answer is
/// linear in definitions and in how often the definitions that reach change from site to site. The error is out of memory.
pub fn track(alloc: Global, reach: &Reach, ops: &Ops) -> Result<Values, Memory>
    requires { ops_sites ops.now ≡ sites_of reach.now }
    ensures { IfOk result (AreValuesOf reach.now ops.now) }
{
    let mut joins = Vec::new(alloc);
    let uses = uses::uses(alloc, reach, ops, &mut joins)?;
    let nodes = graph::nodes(alloc, ops, &uses, &joins)?;
    let states = solve::solve(alloc, &nodes)?;
    let use_values = values::use_values(alloc, &uses, &states)?;
    let definitions = values::definition_values(alloc, ops, &states)?;
    Ok(Values {
        sites: reach.sites(),
        uses: use_values,
        definitions,
    })
}
