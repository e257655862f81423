//! Groups of procedures that call each other, callees first, and which group calls which.
#![tactic(auto)]

ghost use Rattle.std.specs.Prelude.{IfOk};
ghost use Rattle.rt_calls.specs.Calls.{AreGroupsOf};

mod callees;
mod edges;
pub mod laws;

pub use callees::callees_of;
use rt_base::Memory;
pub use rt_components::Groups;
use rt_proc::Procs;
use std::alloc::Global;

/// The groups of procedures, by their numbers. Two procedures are in one group exactly if they are equal or each reaches
/// the other by calls and tail calls. A group comes when all groups that its members call have come; among groups that
/// may come next, the one with the least member comes first. Members rise.
///
/// A callee that is none of the procedures counts for nothing. Time is linear in the procedures and their sites, but for a
/// logarithm for each group. The error is out of memory, which also comes where 32 bits don't number the procedures.
pub fn groups_of(alloc: Global, procs: &Procs) -> Result<Groups, Memory>
    ensures { IfOk result (AreGroupsOf procs.now) }
{
    let graph = edges::call_graph(alloc, procs)?;
    rt_components::groups(alloc, &graph)
}
