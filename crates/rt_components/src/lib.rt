//! Groups of the nodes of a directed graph: nodes that reach each other are in one group, and a group comes after those
//! that it leads to (strongly connected components, in an order of their own). It knows nothing of what the nodes are.
#![tactic(auto)]

ghost use Rattle.std.specs.Prelude.{IfOk, length};
ghost use Rattle.rt_components.specs.Graphs.{HasEdge};
ghost use Rattle.rt_components.specs.Groups.{AreGroups};

mod classes;
mod graph;
pub mod laws;
mod order;
mod walk;

pub use graph::Graph;
use rt_base::{Memory, Sequence};
use std::alloc::Global;

/// Groups of nodes, each with its members ascending.
pub type Groups = Sequence<Sequence<u32>>;

/// The groups of the nodes of a graph. Two nodes are in one group exactly if they are equal or each reaches the other. A
/// group comes when all groups that its members lead to have come; among groups that may come next, the one with the
/// least member comes first.
///
/// Time is linear in the number of nodes and edges, but for a logarithm for each group, and memory is linear. The error
/// is out of memory.
pub fn groups(alloc: Global, graph: &Graph) -> Result<Groups, Memory>
    ensures { IfOk result (AreGroups (length graph.now) (HasEdge graph.now)) }
{
    let classes = walk::classes_of(alloc, graph)?;
    let members = classes::members_of(alloc, &classes)?;
    let successors = classes::successors_of(alloc, graph, &classes)?;
    let order = order::order_of(alloc, &classes, &members, &successors)?;
    classes::arranged(alloc, &members, &order)
}
