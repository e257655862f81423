// Nodes below those that may have a common lower variable.
ghost use Rattle.std.specs.Prelude.{◌≡◌, ℕ, ◌<◌, ◌≤◌, true, Some, IfOk, OnOk, length, slice_get};
ghost use Rattle.std.specs.Map.{lookup};
ghost use Rattle.rt_lines.specs.declared.label.Label.{Label as Letter};
ghost use Rattle.rt_shape.specs.Graphs.{letter_eq};
ghost use Rattle.rt_outline.specs.Frames.{IsFrame, IsMade, IsStepped};
ghost use Rattle.rt_outline.specs.Hubs.{AreHubs, AreHubsKept, HasAccess, HasHubAt, HasLower, HasLowest, HaveHubs, IsGrownBy, IsLower};
ghost use Rattle.rt_outline.specs.Hubs.{common_of, key_of};

use crate::arc::Arc;
use crate::frame::Frame;
use crate::spreading::{is_standing, leaving};
use crate::turning::has_access;
use indexmap::IndexMap;
use rt_base::Memory;
use rt_lines::Label;
use std::alloc::Global;

// Adds load and store of each variable that can be read and written through, unless an arc leads to it from one before it that
// can be, or from a node that has both.
pub(crate) fn enter_lowest(alloc: Global, frame: &mut Frame, flips: &[bool]) -> Result<(), Memory>
    requires frame { IsFrame frame.old.origins.items frame.old.steps frame.old.arcs.items frame.old.back.items }
    requires flips { length flips.now ≤ length frame.old.origins.items }
    ensures frame { OnOk result (IsFrame frame.new.origins.items frame.new.steps frame.new.arcs.items frame.new.back.items) }
    ensures more { OnOk result (IsStepped frame.old.origins.items frame.old.arcs.items frame.new.origins.items frame.new.arcs.items) }
    ensures all { OnOk result ((n : ℕ) → slice_get flips.now n ≡ Some true → HasLowest frame.new.origins.items frame.new.arcs.items n) }
{
    for node in 0..flips.len() {
        if flips[node] {
            enter_lower(alloc, frame, flips, node as u32)?;
        }
    }
    Ok(())
}

// Adds load and store of a node, unless an arc leads to it from such a one.
fn enter_lower(alloc: Global, frame: &mut Frame, flips: &[bool], node: u32) -> Result<(), Memory>
    requires frame { IsFrame frame.old.origins.items frame.old.steps frame.old.arcs.items frame.old.back.items }
    requires node { node < length frame.old.origins.items }
    requires before { (n : ℕ) → n < node → slice_get flips.now n ≡ Some true → HasLowest frame.old.origins.items frame.old.arcs.items n }
    ensures frame { OnOk result (IsFrame frame.new.origins.items frame.new.steps frame.new.arcs.items frame.new.back.items) }
    ensures more { OnOk result (IsStepped frame.old.origins.items frame.old.arcs.items frame.new.origins.items frame.new.arcs.items) }
    ensures lowest { OnOk result (HasLowest frame.new.origins.items frame.new.arcs.items node) }
{
    if has_lower(frame, flips, node) {
        return Ok(());
    }
    enter_access(alloc, frame, node)?;
    Ok(())
}

// Whether an arc leads to a node from one before it that can be read and written through, or from one that has a load and a store.
fn has_lower(frame: &Frame, flips: &[bool], node: u32) -> bool
    requires frame { IsFrame frame.now.origins.items frame.now.steps frame.now.arcs.items frame.now.back.items }
    ensures { result ≡ true → HasLower frame.now.origins.items frame.now.arcs.items flips.now node }
{
    for arc in leaving(&frame.back, node) {
        if is_lower(frame, flips, node, arc.to) {
            return true;
        }
    }
    false
}

// Whether a node is before another one and can be read and written through, or has a load and a store.
fn is_lower(frame: &Frame, flips: &[bool], node: u32, other: u32) -> bool
    requires frame { IsFrame frame.now.origins.items frame.now.steps frame.now.arcs.items frame.now.back.items }
    ensures { result ≡ true → IsLower frame.now.origins.items flips.now node other }
{
    if has_access(frame, other) {
        return true;
    }
    other < node && is_standing(flips, other as usize)
}

// Adds load and store of a node.
fn enter_access(alloc: Global, frame: &mut Frame, node: u32) -> Result<(), Memory>
    requires frame { IsFrame frame.old.origins.items frame.old.steps frame.old.arcs.items frame.old.back.items }
    requires node { node < length frame.old.origins.items }
    ensures frame { OnOk result (IsFrame frame.new.origins.items frame.new.steps frame.new.arcs.items frame.new.back.items) }
    ensures more { OnOk result (IsStepped frame.old.origins.items frame.old.arcs.items frame.new.origins.items frame.new.arcs.items) }
    ensures access { OnOk result (HasAccess frame.new.origins.items node) }
{
    frame.stepped(alloc, node, Label::Load)?;
    frame.stepped(alloc, node, Label::Store)?;
    Ok(())
}

// Adds a hub for each class and letter, or pointer letters of what can be read and written through, behind which there are
// variables that can be read and written through, with an arc to each of these; and load and store of each other variable that can
// be read and written through.
pub(crate) fn enter_hubs(
    alloc: Global,
    frame: &mut Frame,
    classes: &[Option<u32>],
    flips: &[bool],
) -> Result<(), Memory>
    requires frame { IsFrame frame.old.origins.items frame.old.steps frame.old.arcs.items frame.old.back.items }
    requires flips { length flips.now ≤ length frame.old.origins.items }
    requires classes { length classes.now ≡ length flips.now }
    requires below { (n p : ℕ) (l : Letter) → n < length flips.now → IsMade frame.old.origins.items n p l → p < n }
    ensures frame { OnOk result (IsFrame frame.new.origins.items frame.new.steps frame.new.arcs.items frame.new.back.items) }
    ensures more { OnOk result (IsGrownBy frame.old.origins.items frame.old.arcs.items frame.new.origins.items frame.new.arcs.items) }
    ensures hubs { OnOk result (HaveHubs frame.new.origins.items frame.new.arcs.items classes.now flips.now) }
{
    let mut hubs = IndexMap::new(alloc);
    for node in 0..flips.len() {
        if flips[node] {
            enter_below(alloc, frame, classes, flips, &mut hubs, node as u32)?;
        }
    }
    Ok(())
}

// Adds an arc from the hub of a node to it, or its load and store where it has no hub.
fn enter_below(
    alloc: Global,
    frame: &mut Frame,
    classes: &[Option<u32>],
    flips: &[bool],
    hubs: &mut IndexMap<(u32, Label), u32>,
    node: u32,
) -> Result<(), Memory>
    requires frame { IsFrame frame.old.origins.items frame.old.steps frame.old.arcs.items frame.old.back.items }
    requires flips { length flips.now ≤ length frame.old.origins.items }
    requires classes { length classes.now ≡ length flips.now }
    requires below { (n p : ℕ) (l : Letter) → n < length flips.now → IsMade frame.old.origins.items n p l → p < n }
    requires node { node < length flips.now }
    requires hubs { AreHubs frame.old.origins.items hubs.old.entries }
    ensures frame { OnOk result (IsFrame frame.new.origins.items frame.new.steps frame.new.arcs.items frame.new.back.items) }
    ensures more { OnOk result (IsGrownBy frame.old.origins.items frame.old.arcs.items frame.new.origins.items frame.new.arcs.items) }
    ensures hubs { OnOk result (AreHubs frame.new.origins.items hubs.new.entries) }
    ensures kept { OnOk result (AreHubsKept hubs.old.entries hubs.new.entries) }
    ensures joined { OnOk result (HasHubAt frame.new.origins.items frame.new.arcs.items classes.now flips.now hubs.new.entries node) }
{
    match hub_key(frame, classes, flips, node) {
        Some(key) => {
            let hub = hub_of(alloc, frame, hubs, key)?;
            frame.join(
                hub,
                Arc {
                    to: node,
                    line: None,
                },
            )?;
            Ok(())
        }
        None => {
            enter_access(alloc, frame, node)?;
            Ok(())
        }
    }
}

// The class of what a node is made of, and the letter, or one letter for those of pointers if that can be read and written
// through.
fn hub_key(
    frame: &Frame,
    classes: &[Option<u32>],
    flips: &[bool],
    node: u32,
) -> Option<(u32, Label)>
    requires classes { length classes.now ≡ length flips.now }
    requires node { node < length frame.now.origins.items }
    requires below { (p : ℕ) (l : Letter) → IsMade frame.now.origins.items node p l → p < length flips.now }
    ensures { result ≡ key_of frame.now.origins.items classes.now flips.now node }
{
    match frame.origins[node as usize] {
        Some((parent, label)) => match classes[parent as usize] {
            Some(class) => Some((class, common(flips[parent as usize], label))),
            None => None,
        },
        None => None,
    }
}

// One letter for those of pointers.
fn common(flips: bool, label: Label) -> Label
    ensures { result ≡ common_of flips label }
{
    match label {
        Label::Store if flips => Label::Load,
        _ => label,
    }
}

// The hub of a key, with its load and store, made where there is none.
fn hub_of(
    alloc: Global,
    frame: &mut Frame,
    hubs: &mut IndexMap<(u32, Label), u32>,
    key: (u32, Label),
) -> Result<u32, Memory>
    requires frame { IsFrame frame.old.origins.items frame.old.steps frame.old.arcs.items frame.old.back.items }
    requires hubs { AreHubs frame.old.origins.items hubs.old.entries }
    ensures frame { OnOk result (IsFrame frame.new.origins.items frame.new.steps frame.new.arcs.items frame.new.back.items) }
    ensures more { OnOk result (IsStepped frame.old.origins.items frame.old.arcs.items frame.new.origins.items frame.new.arcs.items) }
    ensures hubs { OnOk result (AreHubs frame.new.origins.items hubs.new.entries) }
    ensures kept { OnOk result (AreHubsKept hubs.old.entries hubs.new.entries) }
    ensures found { IfOk result (λ hub. lookup (letter_eq key) hubs.new.entries ≡ Some hub) }
{
    if let Some(hub) = hubs.get(&key) {
        return Ok(*hub);
    }
    let hub = frame.enter(alloc, None)?;
    enter_access(alloc, frame, hub)?;
    hubs.insert(key, hub)?;
    Ok(hub)
}
