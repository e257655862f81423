// The classes of nodes that reach each other, by one walk along all edges.
ghost use Rattle.std.specs.Prelude.{◌≡◌, ◌≢◌, ℕ, ◌+◌, ◌^◌, ◌<◌, ◌≤◌, ◌↔◌, List, OnOk, IfOk, IsTrue, Contains, length, slice_index, take};
ghost use Rattle.rt_components.specs.declared.walk.State.TheVariants.{Unseen};
ghost use Rattle.rt_components.specs.Inside.Classes.{AreClasses};
ghost use Rattle.rt_components.specs.Inside.Walks.{state_of, AllReach, AreInClasses, AreNumbersOf, AreOnPath};
ghost use Rattle.rt_components.specs.Inside.Walks.{IsClosedFrom, IsAtRest, IsFrontUpTo, IsLast, IsMetLast, IsWalk};
ghost use Rattle.rt_components.specs.Inside.Walks.{KeepsSeen, MayEnter, MayLeave, MayReach, MayStep, MayVisit, Rises, work};

use crate::classes::Classes;
use crate::graph::Graph;
use rt_base::Memory;
use std::alloc::Global;

// How far the walk is with a node.
#[derive(Clone, Copy)]
pub(crate) enum State {
    // It hasn't come to the node.
    Unseen,
    // The node stands on the path, at this place.
    OnPath(usize),
    // The node's class is whole, and has this number.
    InClass(usize),
}

// A walk on its way. The nodes on its path are split into components, each of which begins at a place. Nodes of one
// component reach each other, and each component reaches the next one. An edge that was followed leads to the node's own
// component, to a later one, or to a class that is whole. Where an edge leads back, the components from there on are
// made one; where the last component has no edge left to follow, it is a class. (Gabow, Path-based depth-first search for
// strong and biconnected components, 2000.)
#[derive(Drop)]
pub(crate) struct Walk {
    state: Vec<State>,
    // For each node, how many of its edges were followed.
    followed: Vec<usize>,
    path: Vec<u32>,
    // The places at which the components begin.
    starts: Vec<usize>,
    // The places of nodes that may have edges left to follow, each beginning of a component among them.
    pending: Vec<usize>,
    // A node of each class that is whole.
    heads: Vec<u32>,
}

// Makes one component of those from the one of a place on.
fn merge(starts: &mut Vec<usize>, place: usize)
    requires { Rises starts.old.items }
    ensures { IsFrontUpTo starts.old.items starts.new.items place }
{
    while let Some(start) = starts.last().copied() {
        if start <= place {
            return;
        }
        starts.pop();
    }
}

// Brings the nodes of a path from a place on into a class.
fn close(path: &[u32], state: &mut [State], place: usize, class: usize)
    requires places { AreOnPath state.old path.now }
    requires within { place ≤ length path.now }
    ensures { IsClosedFrom state.old state.new place class }
{
    for node in &path[place..] {
        state[*node as usize] = State::InClass(class);
    }
}

impl Walk {
    // A walk that has come to no node of so many.
    fn new(alloc: Global, count: usize) -> Result<Walk, Memory>
        ensures { IfOk result (λ walk. (graph : List (List ℕ)) → length graph ≡ count → IsAtRest graph walk) }
    {
        Ok(Walk {
            state: vec![in alloc; State::Unseen; count]?,
            followed: vec![in alloc; 0; count]?,
            path: Vec::new(alloc),
            starts: Vec::new(alloc),
            pending: Vec::new(alloc),
            heads: Vec::new(alloc),
        })
    }

    // Puts a node at the end of the path, as a component of its own.
    fn enter(&mut self, node: u32) -> Result<(), Memory>
        ghost graph: { List (List ℕ) }
        requires { MayEnter graph self.old node }
        ensures walk { OnOk result (IsWalk graph self.new) }
        ensures met { OnOk result (IsMetLast self.new node) }
        ensures seen { OnOk result (KeepsSeen self.old self.new) }
        ensures followed { OnOk result (self.new.followed.items ≡ self.old.followed.items) }
        ensures pending { OnOk result (length self.new.pending.items ≡ length self.old.pending.items + 1) }
    {
        let place = self.path.len();
        self.path.push(node)?;
        self.starts.push(place)?;
        self.pending.push(place)?;
        self.state[node as usize] = State::OnPath(place);
        Ok(())
    }

    // Comes to a node that each node on the path reaches.
    fn reach(&mut self, node: u32) -> Result<(), Memory>
        ghost graph: { List (List ℕ) }
        requires { MayReach graph self.old node }
        ensures walk { OnOk result (IsWalk graph self.new) }
        ensures met { OnOk result (IsMetLast self.new node) }
        ensures seen { OnOk result (KeepsSeen self.old self.new) }
        ensures followed { OnOk result (self.new.followed.items ≡ self.old.followed.items) }
        ensures pending { OnOk result (length self.new.pending.items ≤ length self.old.pending.items + 1) }
    {
        match self.state[node as usize] {
            State::Unseen => self.enter(node),
            State::OnPath(place) => {
                merge(&mut self.starts, place);
                Ok(())
            }
            State::InClass(_) => Ok(()),
        }
    }

    // Whether the last component begins at a place.
    fn begins_last(&self, place: usize) -> bool
        ensures { IsTrue result ↔ IsLast self.now.starts.items place }
    {
        self.starts.last() == Some(&place)
    }

    // Leaves the last node that may have edges left to follow, as it has none. If the last component begins there, it is a
    // class.
    fn leave(&mut self, place: usize) -> Result<(), Memory>
        ghost graph: { List (List ℕ) }
        requires { MayLeave graph self.old place }
        ensures walk { OnOk result (IsWalk graph self.new) }
        ensures seen { OnOk result (KeepsSeen self.old self.new) }
        ensures followed { OnOk result (self.new.followed.items ≡ self.old.followed.items) }
        ensures pending { OnOk result (length self.new.pending.items + 1 ≡ length self.old.pending.items) }
    {
        self.pending.pop();
        if self.begins_last(place) {
            self.starts.pop();
            let class = self.heads.len();
            self.heads.push(self.path[place])?;
            close(&self.path, &mut self.state, place, class);
            self.path.truncate(place);
        }
        Ok(())
    }

    // Follows an edge of the last node that may have edges left to follow, or leaves it. What the graph is has a name of
    // its own, for the calls that are not handed the graph.
    fn step(&mut self, graph: &Graph, place: usize) -> Result<(), Memory>
        ghost edges: { List (List ℕ) }
        requires same { edges ≡ graph.now }
        requires may { MayStep edges self.old place }
        ensures walk { OnOk result (IsWalk graph.now self.new) }
        ensures seen { OnOk result (KeepsSeen self.old self.new) }
        ensures work { OnOk result (work graph.now self.new < work graph.now self.old) }
    {
        let node = self.path[place];
        let edge = self.followed[node as usize];
        match graph.successors(node).get(edge) {
            Some(to) => {
                self.reach(*to)?;
                self.followed[node as usize] = edge + 1;
                Ok(())
            }
            None => self.leave(place),
        }
    }

    // Goes on until each node that it has come to is in a class.
    fn run(&mut self, graph: &Graph) -> Result<(), Memory>
        requires { IsWalk graph.now self.old }
        ensures rest { OnOk result (IsAtRest graph.now self.new) }
        ensures seen { OnOk result (KeepsSeen self.old self.new) }
    {
        while let Some(place) = self.pending.last().copied() {
            self.step(graph, place)?;
        }
        Ok(())
    }

    // Comes to a node, if it hasn't, and goes on until it is at rest again. What the graph is has a name of its own.
    fn visit(&mut self, graph: &Graph, node: u32) -> Result<(), Memory>
        ghost edges: { List (List ℕ) }
        requires same { edges ≡ graph.now }
        requires may { MayVisit edges self.old node }
        ensures rest { OnOk result (IsAtRest graph.now self.new) }
        ensures seen { OnOk result (KeepsSeen self.old self.new) }
        ensures node { OnOk result (state_of self.new.state.items node ≢ Unseen) }
    {
        if let State::Unseen = self.state[node as usize] {
            self.enter(node)?;
            self.run(graph)?;
        }
        Ok(())
    }
}

// The number of the class of each node.
fn numbers(alloc: Global, state: &[State]) -> Result<Vec<usize>, Memory>
    requires { AreInClasses state.now }
    ensures { IfOk result (λ class. AreNumbersOf state.now class.items) }
{
    let mut class = Vec::with_capacity(alloc, state.len())?;
    for node in state {
        match node {
            State::InClass(number) => class.push(*number)?,
            _ => unreachable!(),
        }
    }
    Ok(class)
}

/// The classes of nodes that reach each other. An edge leads to a class of the same number or of a lower one. The error
/// is out of memory.
pub(crate) fn classes_of(alloc: Global, graph: &Graph) -> Result<Classes, Memory>
    ensures classes { IfOk result (λ classes. AreClasses graph.now classes.class.items classes.count) }
    ensures numbered { IfOk result (λ classes. length classes.class.items < 2 ^ 32) }
{
    let mut walk = Walk::new(alloc, graph.count() as usize)?;
    for node in 0..graph.count() {
        walk.visit(graph, node)?;
    }
    Ok(Classes {
        class: numbers(alloc, &walk.state)?,
        count: walk.heads.len(),
    })
}
