// Classes of nodes: their members, and the classes that edges lead to.
ghost use Rattle.std.specs.Prelude.{◌≡◌, ◌^◌, ◌<◌, All, IfOk, OnOk, length, map};
ghost use Rattle.rt_components.specs.Inside.Classes.{AddsOthers, AreMembers, AreSuccessors};
ghost use Rattle.rt_components.specs.Groups.{group_at};

use crate::Groups;
use crate::graph::{Graph, empty_lists};
use rt_base::{Memory, Sequence};
use std::alloc::Global;

/// Classes of nodes, numbered from 0.
#[derive(Drop)]
pub(crate) struct Classes {
    /// The class of each node.
    pub class: Vec<usize>,
    /// How many classes there are.
    pub count: usize,
}

/// The members of each class, ascending. The error is out of memory.
pub(crate) fn members_of(alloc: Global, classes: &Classes) -> Result<Vec<Sequence<u32>>, Memory>
    requires classes { All (λ k. k < classes.now.count) classes.now.class.items }
    requires nodes { length classes.now.class.items < 2 ^ 32 }
    ensures { IfOk result
        (λ members. AreMembers classes.now.class.items classes.now.count (length classes.now.class.items) members.items) }
{
    let mut members = empty_lists(alloc, classes.count)?;
    for node in 0..classes.class.len() as u32 {
        members[classes.class[node as usize]].push(node)?;
    }
    Ok(members)
}

// Adds the other classes that edges of a node lead to.
fn add_successors(
    classes: &Classes,
    class: usize,
    nodes: &[u32],
    successors: &mut Sequence<usize>,
) -> Result<(), Memory>
    requires { All (λ node. node < length classes.now.class.items) nodes.now }
    ensures { OnOk result (AddsOthers classes.now.class.items class nodes.now successors.old successors.new) }
{
    for node in nodes {
        let other = classes.class[*node as usize];
        if other != class {
            successors.push(other)?;
        }
    }
    Ok(())
}

/// For each class, the other classes that edges of its members lead to. The error is out of memory.
pub(crate) fn successors_of(
    alloc: Global,
    graph: &Graph,
    classes: &Classes,
) -> Result<Vec<Sequence<usize>>, Memory>
    requires classes { All (λ k. k < classes.now.count) classes.now.class.items }
    requires nodes { length classes.now.class.items ≡ length graph.now }
    ensures { IfOk result (λ others. AreSuccessors graph.now classes.now.class.items classes.now.count (length graph.now) others.items) }
{
    let mut successors = empty_lists(alloc, classes.count)?;
    for node in 0..graph.count() {
        let class = classes.class[node as usize];
        let nodes = graph.successors(node);
        add_successors(classes, class, nodes, &mut successors[class])?;
    }
    Ok(successors)
}

/// The classes in an order, each by its members. The error is out of memory.
pub(crate) fn arranged(
    alloc: Global,
    members: &[Sequence<u32>],
    order: &[usize],
) -> Result<Groups, Memory>
    requires { All (λ k. k < length members.now) order.now }
    ensures { IfOk result (λ groups. groups ≡ map (group_at members.now) order.now) }
{
    let mut groups = Sequence::new(alloc);
    for class in order {
        let group = members[*class].items().to_vec(alloc)?;
        groups.push(Sequence::from_vec(group))?;
    }
    Ok(groups)
}
