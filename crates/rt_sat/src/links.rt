// Which states that stand in classes lead to states that don't, and from them.
ghost use Rattle.std.specs.Prelude.{◌≡◌, ◌⊎◌, ℕ, [], List, Bool, Contains, IfOk, OnOk, slice_index_or};
ghost use Rattle.rt_lines.specs.declared.variable.Dtv.{Dtv as Variable};
ghost use Rattle.rt_sat.specs.declared.state.Edge.{Edge as Arrow};
ghost use Rattle.rt_sat.specs.declared.state.State.{State as Place};
ghost use Rattle.rt_sat.specs.Inside.Links.{noted_at, number_of, AreLinked};
ghost use Rattle.rt_sat.specs.Hints.{IsFamily, IsTold};

use crate::family::Family;
use crate::state::{Edge, State};
use rt_base::{Memory, Sequence};
use std::alloc::Global;

// Edges of count nought between states that stand in classes and states that don't.
#[derive(Drop)]
pub(crate) struct Links {
    // For each state that stands in no class, two for each variable, those from which edges lead to it.
    pub(crate) before: Vec<Sequence<State>>,
    // And those to which edges lead from it.
    pub(crate) behind: Vec<Sequence<State>>,
}

impl Links {
    // The links among edges between so many variables. The error is out of memory.
    pub(crate) fn of(
        alloc: Global,
        edges: &[Edge],
        family: &Family,
        count: usize,
    ) -> Result<Links, Memory>
        requires { (number : ℕ) × IsFamily number family.now }
        ensures { IfOk result (λ links. (known : List Variable) (flips : List Bool) (lines : List Arrow) →
            ((e : Arrow) → Contains edges.now e → Contains lines e) → AreLinked known flips lines links) }
    {
        let states = count.saturating_add(count);
        let mut links = Links {
            before: no_states(alloc, states)?,
            behind: no_states(alloc, states)?,
        };
        for edge in edges {
            links.enter(family, edge)?;
        }
        Ok(links)
    }

    // Notes an edge, if its count is nought, and one of its states stands in a class.
    fn enter(&mut self, family: &Family, edge: &Edge) -> Result<(), Memory>
        requires { (number : ℕ) × IsFamily number family.now }
        ensures { OnOk result ((known : List Variable) (flips : List Bool) (lines : List Arrow) →
            IsTold known flips lines edge.now.from edge.now.to edge.now.count → AreLinked known flips lines self.old →
            AreLinked known flips lines self.new) }
    {
        if edge.count.capped() != 0 {
            return Ok(());
        }
        match (family.home(edge.from), family.home(edge.to)) {
            (Some(_), None) => note(&mut self.before, edge.to, edge.from),
            (None, Some(_)) => note(&mut self.behind, edge.from, edge.to),
            (Some(_), Some(_)) | (None, None) => Ok(()),
        }
    }
}

// So many lists without states.
fn no_states(alloc: Global, count: usize) -> Result<Vec<Sequence<State>>, Memory>
    ensures { IfOk result (λ none. (v : ℕ) → slice_index_or none.items v [] ≡ []) }
{
    let mut none = Vec::new(alloc);
    while none.len() < count {
        none.push(Sequence::new(alloc))?;
    }
    Ok(none)
}

// Notes a state at another one.
fn note(near: &mut Vec<Sequence<State>>, at: State, state: State) -> Result<(), Memory>
    ensures { OnOk result ((other s : Place) → Contains (noted_at near.new.items other) s →
        Contains (noted_at near.old.items other) s ⊎ ((other ≡ at) × (s ≡ state))) }
{
    let number = number(at);
    if number < near.len() {
        near[number].push(state)?;
    }
    Ok(())
}

// The states that are noted at one.
pub(crate) fn states_at(near: &[Sequence<State>], at: State) -> &[State]
    ensures { result.now ≡ noted_at near.now at }
{
    match near.get(number(at)) {
        Some(states) => states.items(),
        None => &[],
    }
}

// A number for a state.
fn number(state: State) -> usize
    ensures { result ≡ number_of state }
{
    let first = 2 * state.variable as usize;
    if state.contra { first + 1 } else { first }
}
