// What nodes have: they are visited until each has what its inputs give it.
ghost use Rattle.std.specs.Prelude.{◌≡◌, ℕ, ◌<◌, ◌++◌, Contains, IfOk, MatchOption, OnOk, length, slice_get, slice_index_or};
ghost use Rattle.rt_track.specs.Inside.Nodes.{AreReaders, Covers, IsRisen, IsSolved, Notes, NotesBoth, NotesNode, Visits};

use crate::nodes::{Input, Node};
use crate::value::Value;
use rt_base::{Memory, Sequence};
use std::alloc::Global;

// Numbers from 0, so many.
fn numbers(alloc: Global, count: usize) -> Result<Vec<usize>, Memory>
    ensures all { IfOk result (λ numbers. (k : ℕ) → k < count → Contains numbers.items k) }
    ensures within { IfOk result (λ numbers. (k : ℕ) → Contains numbers.items k → k < count) }
{
    let mut numbers = Vec::with_capacity(alloc, count)?;
    for number in 0..count {
        numbers.push(number)?;
    }
    Ok(numbers)
}

// Adds each of some numbers.
fn add_all(numbers: &mut Vec<usize>, more: &[usize]) -> Result<(), Memory>
    ensures { OnOk result (numbers.new.items ≡ numbers.old.items ++ more.now) }
{
    for number in more {
        numbers.push(*number)?;
    }
    Ok(())
}

// Adds a node to those that take the value of a node that it takes.
fn note(readers: &mut Vec<Sequence<usize>>, input: Input, reader: usize) -> Result<(), Memory>
    ensures { OnOk result (Notes readers.old.items input reader readers.new.items) }
{
    if let Input::Node(number) = input {
        if number < readers.len() {
            readers[number].push(reader)?;
        }
    }
    Ok(())
}

// The same for two inputs.
fn note_both(
    readers: &mut Vec<Sequence<usize>>,
    left: Input,
    right: Input,
    reader: usize,
) -> Result<(), Memory>
    ensures { OnOk result (NotesBoth readers.old.items left right reader readers.new.items) }
{
    note(readers, left, reader)?;
    note(readers, right, reader)?;
    Ok(())
}

// The same for each input of a node.
fn note_inputs(readers: &mut Vec<Sequence<usize>>, node: Node, reader: usize) -> Result<(), Memory>
    ensures { OnOk result (NotesNode readers.old.items node reader readers.new.items) }
{
    match node {
        Node::Fixed(_) => Ok(()),
        Node::AddI(input, _) => note(readers, input, reader),
        Node::Join(left, right) => note_both(readers, left, right, reader),
        Node::Add(left, right, _, _) => note_both(readers, left, right, reader),
    }
}

// For each node those that take its value.
fn readers(alloc: Global, nodes: &[Node]) -> Result<Vec<Sequence<usize>>, Memory>
    ensures { IfOk result (λ readers. AreReaders nodes.now readers.items) }
{
    let mut readers = Vec::with_capacity(alloc, nodes.len())?;
    for _node in nodes {
        readers.push(Sequence::new(alloc))?;
    }
    for (reader, node) in nodes.iter().enumerate() {
        note_inputs(&mut readers, *node, reader)?;
    }
    Ok(readers)
}

// What a node has next, if it doesn't take the value in.
fn risen(old: Option<Value>, value: Value) -> Option<Value>
    ensures { MatchOption result (Covers old value) (IsRisen old value) }
{
    match old {
        None => Some(value),
        Some(old) if old.is(value) || old.is(Value::Multi) => None,
        Some(_) => Some(Value::Multi),
    }
}

// Visits a node: where it rises, those that take its value are to be visited.
fn visit(
    node: usize,
    nodes: &[Node],
    readers: &[Sequence<usize>],
    states: &mut Vec<Option<Value>>,
    work: &mut Vec<usize>,
) -> Result<(), Memory>
    requires within { node < length nodes.now }
    requires states { length states.old.items ≡ length nodes.now }
    requires readers { length readers.now ≡ length nodes.now }
    ensures { OnOk result (Visits nodes.now readers.now node states.old.items work.old.items states.new.items work.new.items) }
{
    let Some(value) = nodes[node].given(states) else {
        return Ok(());
    };
    let Some(value) = risen(states[node], value) else {
        return Ok(());
    };
    states[node] = Some(value);
    add_all(work, readers[node].items())
}

/// What each node has, if it has a value: the one that it may have, or several. The time is linear in nodes, since each rises
/// twice at most. The error is out of memory.
pub(crate) fn solve(alloc: Global, nodes: &[Node]) -> Result<Vec<Option<Value>>, Memory>
    ensures { IfOk result (λ states. IsSolved nodes.now states.items) }
{
    let readers = readers(alloc, nodes)?;
    let mut states = vec![in alloc; None; nodes.len()]?;
    let mut work = numbers(alloc, nodes.len())?;
    while let Some(node) = work.pop() {
        visit(node, nodes, &readers, &mut states, &mut work)?;
    }
    Ok(states)
}
