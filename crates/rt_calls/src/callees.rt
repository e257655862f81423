// Which group calls which.
ghost use Rattle.std.specs.Prelude.{◌≡◌, ℕ, ◌<◌, ◌↔◌, ◌^◌, All, Contains, IfOk, OnOk, length};
ghost use Rattle.std.specs.List.Sorted.{IsStrictlyIncreasing};
ghost use Rattle.rt_calls.specs.Calls.{AreGroupsOf};
ghost use Rattle.rt_calls.specs.Callees.{AreCalleesOf};
ghost use Rattle.rt_calls.specs.Inside.Places.{AddsPlaces, ArePlaces, ArePlacesOf, GivesPlace};

use crate::{Groups, edges};
use rt_base::{Memory, Sequence};
use rt_components::Graph;
use rt_proc::Procs;
use std::alloc::{AllocError, Global};

// Gives the members of a group its place.
fn give_place(places: &mut [u32], members: &[u32], place: u32)
    requires { All (λ member. member < length places.old) members.now }
    ensures { GivesPlace members.now place places.old places.new }
{
    for member in members {
        places[*member as usize] = place;
    }
}

// The place of each procedure's group. The error is out of memory.
fn places_of(alloc: Global, procs: &Procs, groups: &Groups) -> Result<Vec<u32>, Memory>
    requires groups { AreGroupsOf procs.now groups.now }
    requires numbered { length groups.now < 2 ^ 32 }
    ensures { IfOk result (λ places. ArePlaces groups.now (length procs.now) (length groups.now) places.items) }
{
    let mut places = vec![in alloc; 0; procs.len()]?;
    for place in 0..groups.len() as u32 {
        give_place(&mut places, groups.items()[place as usize].items(), place);
    }
    Ok(places)
}

// Adds the places of nodes other than a group's own. The error is out of memory.
fn add_others(places: &[u32], own: u32, nodes: &[u32], others: &mut Vec<u32>) -> Result<(), Memory>
    requires { All (λ node. node < length places.now) nodes.now }
    ensures { OnOk result (AddsPlaces places.now own nodes.now others.old.items others.new.items) }
{
    for node in nodes {
        let place = places[*node as usize];
        if place != own {
            others.push(place)?;
        }
    }
    Ok(())
}

// The numbers, ascending, each once.
fn ascending(mut numbers: Vec<u32>) -> Vec<u32>
    ensures ascending { IsStrictlyIncreasing result.items }
    ensures same { (n : ℕ) → Contains result.items n ↔ Contains numbers.items n }
{
    numbers.sort_unstable();
    numbers.dedup();
    numbers
}

// The places other than a group's own that edges of its members lead to, ascending, each once. The error is out of
// memory.
fn others_of(
    alloc: Global,
    graph: &Graph,
    places: &[u32],
    own: u32,
    members: &[u32],
) -> Result<Sequence<u32>, Memory>
    requires places { length places.now ≡ length graph.now }
    requires members { All (λ member. member < length graph.now) members.now }
    ensures ascending { IfOk result IsStrictlyIncreasing }
    ensures found { IfOk result (ArePlacesOf graph.now places.now own members.now) }
{
    let mut others = Vec::new(alloc);
    for member in members {
        add_others(places, own, graph.successors(*member), &mut others)?;
    }
    Ok(Sequence::from_vec(ascending(others)))
}

/// For each group, the places of the other groups that its members call or go on in for good, ascending, each once. The
/// error is out of memory, which also comes where 32 bits don't number the procedures.
///
/// Time is linear in the procedures and their sites, but for a logarithm.
///
/// Condition: the groups are those of the procedures.
pub fn callees_of(alloc: Global, procs: &Procs, groups: &Groups) -> Result<Groups, Memory>
    requires { AreGroupsOf procs.now groups.now }
    ensures { IfOk result (λ callees. AreCalleesOf procs.now groups.now callees) }
{
    let Ok(count) = u32::try_from(groups.len()) else {
        return Err(AllocError);
    };
    let graph = edges::call_graph(alloc, procs)?;
    let places = places_of(alloc, procs, groups)?;
    let mut callees = Sequence::new(alloc);
    for place in 0..count {
        let members = groups.items()[place as usize].items();
        callees.push(others_of(alloc, &graph, &places, place, members)?)?;
    }
    Ok(callees)
}
