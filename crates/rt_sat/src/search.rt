// Least counts from a state along edges.
ghost use Rattle.std.specs.Prelude.{◌≡◌, ◌+◌, ◌++◌, ◌∷◌, ◌↔◌, [], List, IsTrue, IfOk, OnOk, length};
ghost use Rattle.rt_sat.specs.Searches.{Allows, AreFallen, AreNoted, AreRelaxed, IsFollowed, IsIndexed, IsOffered, IsSearch, IsWithin, leaving_of, turned};
ghost use Rattle.rt_sat.specs.declared.state.State.{State as Place};

use crate::count::Count;
use crate::reached::{Reached, key};
use crate::state::{Edge, State};
use rt_base::{Memory, Sequence};
use std::alloc::{AllocError, Global};

// More rounds than there are states.
const ROUNDS: u64 = 0xff_ffff_ffff;

// The least count of a way to each state that a way leads to from the start, or, where a bound is given, of each state
// whose least count is no greater. With the bound nought no turn is followed. The edges that leave a state are given by
// their indices. What was found before is forgotten.
pub(crate) fn search(
    alloc: Global,
    edges: &[Edge],
    out: &[Sequence<usize>],
    start: State,
    most: Option<u32>,
    found: &mut Reached,
) -> Result<(), Memory>
    requires { IsIndexed edges.now out.now }
    ensures { OnOk result (IsSearch most edges.now start found.new) }
{
    found.clear();
    found.insert(start, Count::small(alloc, 0))?;
    settle(alloc, most, edges, out, found, start)?;
    Ok(())
}

// Puts down a count of a state, and goes on from there to states whose counts fall.
pub(crate) fn go_on(
    alloc: Global,
    edges: &[Edge],
    out: &[Sequence<usize>],
    to: State,
    count: Count,
    most: Option<u32>,
    found: &mut Reached,
) -> Result<(), Memory>
    requires { IsIndexed edges.now out.now }
    ensures { OnOk result (IsWithin found.new to count) }
{
    found.insert(to, count)?;
    settle(alloc, most, edges, out, found, to)?;
    Ok(())
}

// Goes on from a state until no count falls any more. Each round goes on from the states whose counts fell in the one
// before.
fn settle(
    alloc: Global,
    most: Option<u32>,
    edges: &[Edge],
    out: &[Sequence<usize>],
    found: &mut Reached,
    from: State,
) -> Result<(), Memory>
    requires { IsIndexed edges.now out.now }
    ensures walks { OnOk result ((start : Place) → AreNoted most edges.now start found.old →
        AreNoted most edges.now start found.new) }
    ensures fallen { OnOk result (AreFallen found.old found.new) }
    ensures relaxed { OnOk result (AreRelaxed most edges.now found.old (from ∷ []) → AreRelaxed most edges.now found.new []) }
{
    let mut active = Vec::new(alloc);
    active.push(from)?;
    for _ in 0..ROUNDS {
        if active.is_empty() {
            return Ok(());
        }
        active = round(alloc, most, edges, out, found, &active)?;
    }
    Err(AllocError)
}

// Goes on from each active state, and gives those whose counts fell.
fn round(
    alloc: Global,
    most: Option<u32>,
    edges: &[Edge],
    out: &[Sequence<usize>],
    found: &mut Reached,
    active: &[State],
) -> Result<Vec<State>, Memory>
    requires { IsIndexed edges.now out.now }
    ensures walks { OnOk result ((start : Place) → AreNoted most edges.now start found.old →
        AreNoted most edges.now start found.new) }
    ensures fallen { OnOk result (AreFallen found.old found.new) }
    ensures relaxed { IfOk result (λ next. AreRelaxed most edges.now found.old active.now →
        AreRelaxed most edges.now found.new next.items) }
{
    let mut next = Vec::new(alloc);
    for state in active {
        visit(alloc, most, edges, out, found, &mut next, *state)?;
    }
    Ok(next)
}

// Goes on from a state, and notes those whose counts fell.
fn visit(
    alloc: Global,
    most: Option<u32>,
    edges: &[Edge],
    out: &[Sequence<usize>],
    found: &mut Reached,
    next: &mut Vec<State>,
    state: State,
) -> Result<(), Memory>
    requires { IsIndexed edges.now out.now }
    ensures walks { OnOk result ((start : Place) → AreNoted most edges.now start found.old →
        AreNoted most edges.now start found.new) }
    ensures fallen { OnOk result (AreFallen found.old found.new) }
    ensures relaxed { OnOk result ((rest : List Place) → AreRelaxed most edges.now found.old (next.old.items ++ state ∷ rest) →
        AreRelaxed most edges.now found.new (next.new.items ++ rest)) }
{
    let Some(known) = found.get(state) else {
        return Ok(());
    };
    let count = known.copy(alloc)?;
    let turn = Count::small(alloc, 1).plus(alloc, &count)?;
    let other = State {
        variable: state.variable,
        contra: !state.contra,
    };
    offer(alloc, most, found, next, other, turn)?;
    follow(alloc, most, edges, out, found, next, state, &count)?;
    Ok(())
}

// The indices of the edges that leave a state.
fn leaving(out: &[Sequence<usize>], state: State) -> &[usize]
    ensures { result.now ≡ leaving_of out.now state }
{
    match out.get(key(state)) {
        Some(indices) => indices.items(),
        None => &[],
    }
}

// Goes on along the edges that leave the state, of which a count is known.
fn follow(
    alloc: Global,
    most: Option<u32>,
    edges: &[Edge],
    out: &[Sequence<usize>],
    found: &mut Reached,
    next: &mut Vec<State>,
    state: State,
    count: &Count,
) -> Result<(), Memory>
    requires { IsIndexed edges.now out.now }
    ensures { OnOk result (IsFollowed most edges.now (leaving_of out.now state) found.old found.new next.old.items
        next.new.items state count.now (length (leaving_of out.now state))) }
{
    for index in leaving(out, state) {
        let edge = &edges[*index];
        go_along(alloc, most, found, next, edge, count)?;
    }
    Ok(())
}

// Goes on along an edge, of whose start a count is known. The sum is no less than that count, so where one that is as small
// is known of the end already, no sum is made.
fn go_along(
    alloc: Global,
    most: Option<u32>,
    found: &mut Reached,
    next: &mut Vec<State>,
    edge: &Edge,
    count: &Count,
) -> Result<(), Memory>
    ensures { OnOk result (IsOffered most found.old found.new next.old.items next.new.items edge.now.to
        (edge.now.count + count.now)) }
{
    if is_near(found, edge.to, count) {
        return Ok(());
    }
    let sum = edge.count.plus(alloc, count)?;
    offer(alloc, most, found, next, edge.to, sum)?;
    Ok(())
}

// Whether a count of a state is known that is no greater.
fn is_near(found: &Reached, state: State, count: &Count) -> bool
    ensures { IsTrue result ↔ IsWithin found.now state count.now }
{
    match found.get(state) {
        Some(known) => !count.is_less(known),
        None => false,
    }
}

// Notes a count of a state, where it is asked for and none that is as small is known.
fn offer(
    alloc: Global,
    most: Option<u32>,
    found: &mut Reached,
    next: &mut Vec<State>,
    to: State,
    count: Count,
) -> Result<(), Memory>
    ensures { OnOk result (IsOffered most found.old found.new next.old.items next.new.items to count) }
{
    if !allows(alloc, most, &count) {
        return Ok(());
    }
    if is_near(found, to, &count) {
        return Ok(());
    }
    found.insert(to, count)?;
    next.push(to)?;
    Ok(())
}

// Whether a count is asked for, where those up to a bound are, or all.
pub(crate) fn allows(alloc: Global, most: Option<u32>, count: &Count) -> bool
    ensures { IsTrue result ↔ Allows most count.now }
{
    match most {
        Some(bound) => !Count::small(alloc, bound).is_less(count),
        None => true,
    }
}
