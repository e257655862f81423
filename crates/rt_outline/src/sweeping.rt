// Searches for the nearest nodes behind a letter.
ghost use Rattle.std.specs.Prelude.{◌≡◌, ℕ, ◌<◌, [], true, length, slice_index_or, Contains, Some, None, IfOk, OnOk};
ghost use Rattle.rt_lines.specs.Words.{label_variance};
ghost use Rattle.rt_named.specs.Numbers.{IsLeft};
ghost use Rattle.rt_outline.specs.Arcs.{Leads};
ghost use Rattle.rt_outline.specs.Frames.{IsFrame, IsMade, IsPushed};
ghost use Rattle.rt_outline.specs.Inside.Sweeps.{AreFollowed, IsDoneAt, IsNotedFrom, IsEnd, IsSwept, end_of, side_of};

use crate::arc::Arc;
use crate::found::Found;
use crate::frame::Frame;
use crate::seeking::{Known, missing};
use crate::spreading::{NUMBERS, leave};
use rt_base::{Memory, Sequence};
use rt_lines::{Label, Variance};
use std::alloc::{AllocError, Global};

// What searches use again: what one finds, the ends of it, and what ways of pushed arcs lead to from the node at hand.
#[derive(Drop)]
pub(crate) struct Room {
    found: Found,
    ends: Found,
    known: Known,
}

impl Room {
    // For so many nodes.
    pub(crate) fn new(alloc: Global, count: usize) -> Result<Room, Memory> {
        let found = Found::new(alloc, count)?;
        let ends = Found::new(alloc, count)?;
        let known = Known::new(alloc, count)?;
        Ok(Room { found, ends, known })
    }
}

// What a node that is made so is pushed to where no way of pushed arcs leads, the nearest alone. Where a search ends as it did
// when none was missing, none is missing now.
pub(crate) fn ends(
    alloc: Global,
    frame: &Frame,
    stands: &[bool],
    room: &mut Room,
    reached: &mut Vec<Sequence<u32>>,
    node: u32,
    origin: (u32, Label),
) -> Result<Vec<u32>, Memory>
    requires frame { IsFrame frame.now.origins.items frame.now.steps frame.now.arcs.items frame.now.back.items }
    requires made { IsMade frame.now.origins.items node origin.0 origin.1 }
    requires followed { AreFollowed reached.old.items frame.now.arcs.items }
    ensures pushed { IfOk result (λ fresh. (w : ℕ) → Contains fresh.items w →
        IsPushed frame.now.origins.items (Leads frame.now.arcs.items stands.now true) node w) }
    ensures done { IfOk result (λ fresh. fresh.items ≡ [] →
        IsDoneAt frame.now.origins.items frame.now.steps frame.now.arcs.items stands.now node) }
    ensures followed { OnOk result (AreFollowed reached.new.items frame.now.arcs.items) }
{
    let arcs = side(frame, origin.1);
    sweep(frame, arcs, stands, origin, room)?;
    if reached_from(reached, node) == room.ends.numbers() {
        return Ok(Vec::new(alloc));
    }
    let fresh = missing(alloc, &frame.arcs, &room.ends, &mut room.known, node)?;
    if !fresh.is_empty() {
        return Ok(fresh);
    }
    note(alloc, reached, node, room.ends.numbers())?;
    Ok(fresh)
}

// What is noted as reached from a node.
fn reached_from(reached: &[Sequence<u32>], node: u32) -> &[u32]
    ensures { result.now ≡ slice_index_or reached.now node [] }
{
    match reached.get(node as usize) {
        Some(numbers) => numbers.items(),
        None => &[],
    }
}

// Notes what is reached from a node.
fn note(
    alloc: Global,
    reached: &mut Vec<Sequence<u32>>,
    node: u32,
    numbers: &[u32],
) -> Result<(), Memory>
    ensures { OnOk result (IsNotedFrom node numbers.now reached.old.items reached.new.items) }
{
    widen(alloc, reached, node)?;
    reached[node as usize] = Sequence::from_vec(numbers.to_vec(alloc)?);
    Ok(())
}

// Makes room for what is reached from a node.
fn widen(alloc: Global, reached: &mut Vec<Sequence<u32>>, node: u32) -> Result<(), Memory>
    ensures same { (n : ℕ) → slice_index_or reached.new.items n [] ≡ slice_index_or reached.old.items n [] }
    ensures room { OnOk result (node < length reached.new.items) }
{
    while reached.len() <= node as usize {
        reached.push(Sequence::new(alloc))?;
    }
    Ok(())
}

// The arcs, or the same the other way, by the sign of a letter.
fn side(frame: &Frame, label: Label) -> &[Sequence<Arc>]
    ensures { result.now ≡ side_of (label_variance label) frame.now.arcs.items frame.now.back.items }
{
    match label.variance() {
        Variance::Co => &frame.arcs,
        Variance::Contra => &frame.back,
    }
}

// Finds what arcs lead to from a node. Where something is behind the letter the search ends, and that is one of its ends.
fn sweep(
    frame: &Frame,
    arcs: &[Sequence<Arc>],
    stands: &[bool],
    origin: (u32, Label),
    room: &mut Room,
) -> Result<(), Memory>
    ensures swept { OnOk result (IsSwept (Leads arcs.now stands.now true) (end_of frame.now.steps origin.0 origin.1)
        (Contains room.new.ends) origin.0 room.new.found) }
    ensures ends { OnOk result ((w : ℕ) → Contains room.new.ends w →
        IsEnd (Leads arcs.now stands.now true) frame.now.steps origin.0 origin.1 w) }
{
    room.ends.clear();
    room.found.clear();
    room.found.insert(origin.0)?;
    for i in 0..NUMBERS {
        let Some(next) = room.found.get(i) else {
            return Ok(());
        };
        visit(frame, arcs, stands, origin, next, room)?;
    }
    Err(AllocError)
}

// Notes the end of a search at a node, or adds what arcs lead to from it.
fn visit(
    frame: &Frame,
    arcs: &[Sequence<Arc>],
    stands: &[bool],
    origin: (u32, Label),
    next: u32,
    room: &mut Room,
) -> Result<(), Memory>
    ensures found { OnOk result (IsLeft (λ (w : ℕ). (end_of frame.now.steps origin.0 origin.1 next ≡ None) ×
        Leads arcs.now stands.now true next w)
        room.old.found room.new.found) }
    ensures ends { OnOk result (IsLeft (λ (w : ℕ). end_of frame.now.steps origin.0 origin.1 next ≡ Some w)
        room.old.ends room.new.ends) }
{
    match end(frame, origin, next) {
        Some(end) => {
            room.ends.insert(end)?;
            Ok(())
        }
        None => {
            leave(arcs, stands, true, &mut room.found, next)?;
            Ok(())
        }
    }
}

// Where a search ends: at what is behind the letter of a node, unless it began there.
fn end(frame: &Frame, origin: (u32, Label), node: u32) -> Option<u32>
    ensures { result ≡ end_of frame.now.steps origin.0 origin.1 node }
{
    if node == origin.0 {
        return None;
    }
    frame.step(node, origin.1)
}
