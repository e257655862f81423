// Arcs with all that is pushed from their ways.
ghost use Rattle.std.specs.Prelude.{◌≡◌, ℕ, ◌<◌, false, [], Contains, IfOk, OnOk, length};
ghost use Rattle.rt_outline.specs.Frames.{AreKept, AreMore, IsClosed, IsFrame, IsPushedMore};
ghost use Rattle.rt_outline.specs.Inside.Sweeps.{AreFollowed, IsDoneAt};

use crate::arc::Arc;
use crate::frame::Frame;
use crate::sweeping::{Room, ends};
use rt_base::{Memory, Sequence};
use std::alloc::{AllocError, Global};

// More passes than can be made.
const PASSES: u64 = 0xff_ffff_ffff;

// Adds pushed arcs until ways of them lead wherever something is pushed from a way of arcs. A pass adds arcs of a node to the
// nearest of these alone: where ways of pushed arcs lead there need be none.
pub(crate) fn close(alloc: Global, frame: &mut Frame, stands: &[bool]) -> Result<(), Memory>
    requires { IsFrame frame.old.origins.items frame.old.steps frame.old.arcs.items frame.old.back.items }
    ensures frame { OnOk result (IsFrame frame.new.origins.items frame.new.steps frame.new.arcs.items frame.new.back.items) }
    ensures origins { OnOk result (frame.new.origins.items ≡ frame.old.origins.items) }
    ensures more { OnOk result (IsPushedMore frame.old.origins.items stands.now frame.old.arcs.items frame.new.arcs.items) }
    ensures closed { OnOk result (IsClosed frame.new.origins.items frame.new.arcs.items stands.now) }
{
    let mut reached = Vec::new(alloc);
    close_on(alloc, frame, stands, &mut reached)
}

// The same, where it is noted of some nodes what pushed arcs lead to.
pub(crate) fn close_on(
    alloc: Global,
    frame: &mut Frame,
    stands: &[bool],
    reached: &mut Vec<Sequence<u32>>,
) -> Result<(), Memory>
    requires frame { IsFrame frame.old.origins.items frame.old.steps frame.old.arcs.items frame.old.back.items }
    requires followed { AreFollowed reached.old.items frame.old.arcs.items }
    ensures frame { OnOk result (IsFrame frame.new.origins.items frame.new.steps frame.new.arcs.items frame.new.back.items) }
    ensures origins { OnOk result (frame.new.origins.items ≡ frame.old.origins.items) }
    ensures more { OnOk result (IsPushedMore frame.old.origins.items stands.now frame.old.arcs.items frame.new.arcs.items) }
    ensures closed { OnOk result (IsClosed frame.new.origins.items frame.new.arcs.items stands.now) }
    ensures followed { OnOk result (AreFollowed reached.new.items frame.new.arcs.items) }
{
    for _round in 0..PASSES {
        let added = pass(alloc, frame, stands, reached)?;
        if !added {
            return Ok(());
        }
    }
    Err(AllocError)
}

// Adds what is pushed to the nearest nodes from each node, those first of which others are made. Whether there was any. Of some
// nodes it is noted what pushed arcs lead to.
pub(crate) fn pass(
    alloc: Global,
    frame: &mut Frame,
    stands: &[bool],
    reached: &mut Vec<Sequence<u32>>,
) -> Result<bool, Memory>
    requires frame { IsFrame frame.old.origins.items frame.old.steps frame.old.arcs.items frame.old.back.items }
    requires followed { AreFollowed reached.old.items frame.old.arcs.items }
    ensures frame { OnOk result (IsFrame frame.new.origins.items frame.new.steps frame.new.arcs.items frame.new.back.items) }
    ensures origins { OnOk result (frame.new.origins.items ≡ frame.old.origins.items) }
    ensures more { OnOk result (IsPushedMore frame.old.origins.items stands.now frame.old.arcs.items frame.new.arcs.items) }
    ensures closed { IfOk result (λ added. added ≡ false → IsClosed frame.new.origins.items frame.new.arcs.items stands.now) }
    ensures followed { OnOk result (AreFollowed reached.new.items frame.new.arcs.items) }
{
    let count = frame.origins.len();
    let mut room = Room::new(alloc, count)?;
    let mut added = false;
    for node in 0..count as u32 {
        if push_node(alloc, frame, stands, &mut room, reached, node)? {
            added = true;
        }
    }
    Ok(added)
}

// Adds what is pushed to the nearest nodes from one node. Whether there was any.
fn push_node(
    alloc: Global,
    frame: &mut Frame,
    stands: &[bool],
    room: &mut Room,
    reached: &mut Vec<Sequence<u32>>,
    node: u32,
) -> Result<bool, Memory>
    requires frame { IsFrame frame.old.origins.items frame.old.steps frame.old.arcs.items frame.old.back.items }
    requires node { node < length frame.old.origins.items }
    requires followed { AreFollowed reached.old.items frame.old.arcs.items }
    ensures frame { OnOk result (IsFrame frame.new.origins.items frame.new.steps frame.new.arcs.items frame.new.back.items) }
    ensures origins { OnOk result (frame.new.origins.items ≡ frame.old.origins.items) }
    ensures steps { frame.new.steps ≡ frame.old.steps }
    ensures more { OnOk result (IsPushedMore frame.old.origins.items stands.now frame.old.arcs.items frame.new.arcs.items) }
    ensures done { IfOk result (λ added. added ≡ false → (frame.new.arcs.items ≡ frame.old.arcs.items) ×
        IsDoneAt frame.old.origins.items frame.old.steps frame.old.arcs.items stands.now node) }
    ensures followed { OnOk result (AreFollowed reached.new.items frame.new.arcs.items) }
{
    match frame.origins[node as usize] {
        Some(origin) => {
            let fresh = ends(alloc, frame, stands, room, reached, node, origin)?;
            enter(frame, node, &fresh)?;
            Ok(!fresh.is_empty())
        }
        None => Ok(false),
    }
}

// Adds pushed arcs from a node.
fn enter(frame: &mut Frame, node: u32, fresh: &[u32]) -> Result<(), Memory>
    requires frame { IsFrame frame.old.origins.items frame.old.steps frame.old.arcs.items frame.old.back.items }
    requires node { node < length frame.old.origins.items }
    requires within { (w : ℕ) → Contains fresh.now w → w < length frame.old.origins.items }
    ensures frame { OnOk result (IsFrame frame.new.origins.items frame.new.steps frame.new.arcs.items frame.new.back.items) }
    ensures origins { frame.new.origins.items ≡ frame.old.origins.items }
    ensures steps { frame.new.steps ≡ frame.old.steps }
    ensures kept { OnOk result (AreKept frame.old.arcs.items frame.new.arcs.items) }
    ensures more { OnOk result (AreMore (λ v w. (v ≡ node) × Contains fresh.now w) frame.old.arcs.items frame.new.arcs.items) }
    ensures none { fresh.now ≡ [] → frame.new.arcs.items ≡ frame.old.arcs.items }
{
    for target in fresh {
        frame.join(
            node,
            Arc {
                to: *target,
                line: None,
            },
        )?;
    }
    Ok(())
}
