// Arcs that tell common lower nodes and common upper ones apart.
ghost use Rattle.std.specs.Prelude.{◌≡◌, ℕ, ◌<◌, false, true, IfOk, IfSome, OnOk, length};
ghost use Rattle.rt_lines.specs.declared.label.Label.{Label as Letter};
ghost use Rattle.rt_outline.specs.Arcs.{Leads};
ghost use Rattle.rt_outline.specs.Built.{AreNamed, AreOuterArcs, IsCrossed, IsLaid, IsSorted};
ghost use Rattle.rt_outline.specs.Frames.{AreDistinct, HavePointers, IsFrame, IsMade};
ghost use Rattle.rt_outline.specs.Hubs.{IsGrownBy};
ghost use Rattle.rt_outline.specs.Turning.{AreTurning};

use crate::arc::Arc;
use crate::closing::{close_on, pass};
use crate::entering::{enter_lines, enter_pointers};
use crate::frame::Frame;
use crate::hubs::enter_lowest;
use crate::meeting::{Hub, first_hubs, widen};
use crate::sorting::Sorts;
use crate::turning::are_turning;
use rt_base::Memory;
use rt_lines::{Label, Line};
use rt_named::Named;
use rt_named::nodes::{flips, nodes};
use std::alloc::Global;

// How often hubs are added at most once arcs are closed.
const ROUNDS: usize = 8;

// How often arcs are pushed before hubs are looked for the first time.
const AHEAD: usize = 2;

// Nodes of the variables and of hubs, with the arcs of the lines and of hubs, closed under what is pushed from ways of them, if
// hubs were found that tell common lower nodes and common upper ones apart.
pub(crate) fn crossed(alloc: Global, lines: &[Line], named: &Named) -> Result<Option<Frame>, Memory>
    requires { AreNamed lines.now named.now }
    ensures frame { IfOk result (λ found. IfSome found (λ frame.
        IsFrame frame.origins.items frame.steps frame.arcs.items frame.back.items)) }
    ensures outer { IfOk result (λ found. IfSome found (λ frame.
        AreOuterArcs lines.now named.now frame.origins.items frame.arcs.items)) }
{
    let sorts = sorted(alloc, lines, named)?;
    let mut hubs = hubs_of(alloc, named, &sorts)?;
    let stands = vec![in alloc; true; lines.len()]?;
    let found = crossed_by(alloc, lines, named, &sorts, &stands, &mut hubs)?;
    Ok(found)
}

// What is known of the classes of variables, by the shape of the lines.
fn sorted(alloc: Global, lines: &[Line], named: &Named) -> Result<Sorts, Memory>
    requires { AreNamed lines.now named.now }
    ensures { IfOk result (λ sorts. IsSorted lines.now named.now sorts.classes.items sorts.flips.items) }
{
    let shape = rt_shape::of(alloc, lines)?;
    let classes = nodes(alloc, named, &shape)?;
    let flips = flips(alloc, &shape, &classes)?;
    let sorts = sorts_of(alloc, named, classes, flips)?;
    Ok(sorts)
}

// What is known of the classes of variables, of which some can be read and written through.
fn sorts_of(
    alloc: Global,
    named: &Named,
    classes: Vec<Option<u32>>,
    flips: Vec<bool>,
) -> Result<Sorts, Memory>
    requires { AreDistinct named.now }
    ensures classes { IfOk result (λ sorts. sorts.classes.items ≡ classes.items) }
    ensures flips { IfOk result (λ sorts. sorts.flips.items ≡ flips.items) }
{
    let frame = Frame::of(alloc, named)?;
    let sorts = Sorts::of(alloc, &frame, classes, flips)?;
    Ok(sorts)
}

// The first hubs, for classes of the variables.
fn hubs_of(alloc: Global, named: &Named, sorts: &Sorts) -> Result<Vec<Hub>, Memory>
    requires { AreDistinct named.now }
{
    let frame = Frame::of(alloc, named)?;
    let hubs = first_hubs(alloc, &frame, sorts)?;
    Ok(hubs)
}

// The same for classes of the variables, with hubs to which others are added.
fn crossed_by(
    alloc: Global,
    lines: &[Line],
    named: &Named,
    sorts: &Sorts,
    stands: &[bool],
    hubs: &mut Vec<Hub>,
) -> Result<Option<Frame>, Memory>
    requires named { AreNamed lines.now named.now }
    requires flips { length sorts.now.flips.items ≡ length named.now }
    ensures frame { IfOk result (λ found. IfSome found (λ frame.
        IsFrame frame.origins.items frame.steps frame.arcs.items frame.back.items)) }
    ensures crossed { IfOk result (λ found. IfSome found (λ frame. IsCrossed lines.now named.now sorts.now.flips.items stands.now
        frame.origins.items frame.arcs.items)) }
    ensures turning { IfOk result (λ found. IfSome found (λ frame. AreTurning frame.origins.items
        (Leads frame.arcs.items stands.now true) sorts.now.classes.items sorts.now.flips.items sorts.now.marks.items
        (length sorts.now.classes.items))) }
{
    let mut frame = framed_with(alloc, lines, named, sorts, hubs)?;
    let mut reached = Vec::new(alloc);
    for _ in 0..AHEAD {
        pass(alloc, &mut frame, stands, &mut reached)?;
    }
    add_hubs(alloc, &mut frame, sorts, stands, hubs)?;
    close_on(alloc, &mut frame, stands, &mut reached)?;
    for _ in 0..ROUNDS {
        if !add_hubs(alloc, &mut frame, sorts, stands, hubs)? {
            return if_turning(alloc, frame, sorts, stands);
        }
        close_on(alloc, &mut frame, stands, &mut reached)?;
    }
    Ok(None)
}

// Adds hubs for what ways of arcs show. Whether there was one.
fn add_hubs(
    alloc: Global,
    frame: &mut Frame,
    sorts: &Sorts,
    stands: &[bool],
    hubs: &mut Vec<Hub>,
) -> Result<bool, Memory>
    requires frame { IsFrame frame.old.origins.items frame.old.steps frame.old.arcs.items frame.old.back.items }
    requires pointers { HavePointers frame.old.origins.items frame.old.arcs.items }
    ensures frame { OnOk result (IsFrame frame.new.origins.items frame.new.steps frame.new.arcs.items frame.new.back.items) }
    ensures more { OnOk result (IsGrownBy frame.old.origins.items frame.old.arcs.items frame.new.origins.items frame.new.arcs.items) }
    ensures pointers { OnOk result (HavePointers frame.new.origins.items frame.new.arcs.items) }
    ensures same { IfOk result (λ any. any ≡ false → (frame.new.origins.items ≡ frame.old.origins.items) ×
        (frame.new.arcs.items ≡ frame.old.arcs.items)) }
{
    let known = hubs.len();
    if !widen(alloc, frame, sorts, stands, hubs)? {
        return Ok(false);
    }
    let added = hubs.get(known..).unwrap_or(&[]);
    enter_hubs(alloc, frame, added)?;
    Ok(true)
}

// The nodes and arcs, if they tell common lower nodes and common upper ones apart.
fn if_turning(
    alloc: Global,
    frame: Frame,
    sorts: &Sorts,
    stands: &[bool],
) -> Result<Option<Frame>, Memory>
    requires frame { IsFrame frame.origins.items frame.steps frame.arcs.items frame.back.items }
    ensures same { IfOk result (λ found. IfSome found (λ same. same ≡ frame)) }
    ensures turning { IfOk result (λ found. IfSome found (λ same. AreTurning frame.origins.items
        (Leads frame.arcs.items stands.now true) sorts.now.classes.items sorts.now.flips.items sorts.now.marks.items
        (length sorts.now.classes.items))) }
{
    if are_turning(alloc, &frame, sorts, stands)? {
        return Ok(Some(frame));
    }
    Ok(None)
}

// Nodes of the variables and of hubs, with the arcs of the lines and of the hubs.
fn framed_with(
    alloc: Global,
    lines: &[Line],
    named: &Named,
    sorts: &Sorts,
    hubs: &[Hub],
) -> Result<Frame, Memory>
    requires named { AreNamed lines.now named.now }
    requires flips { length sorts.now.flips.items ≡ length named.now }
    ensures frame { IfOk result (λ frame. IsFrame frame.origins.items frame.steps frame.arcs.items frame.back.items) }
    ensures laid { IfOk result (λ frame. IsLaid lines.now named.now sorts.now.flips.items frame.origins.items frame.arcs.items) }
{
    let mut frame = Frame::of(alloc, named)?;
    enter_lines(named, lines, &mut frame)?;
    enter_pointers(&mut frame)?;
    enter_hubs(alloc, &mut frame, hubs)?;
    enter_lowest(alloc, &mut frame, &sorts.flips)?;
    enter_pointers(&mut frame)?;
    Ok(frame)
}

// Adds hubs, with an arc to each of their nodes, or from each, and one from store to load of each.
fn enter_hubs(alloc: Global, frame: &mut Frame, hubs: &[Hub]) -> Result<(), Memory>
    requires frame { IsFrame frame.old.origins.items frame.old.steps frame.old.arcs.items frame.old.back.items }
    requires pointers { HavePointers frame.old.origins.items frame.old.arcs.items }
    ensures frame { OnOk result (IsFrame frame.new.origins.items frame.new.steps frame.new.arcs.items frame.new.back.items) }
    ensures more { OnOk result (IsGrownBy frame.old.origins.items frame.old.arcs.items frame.new.origins.items frame.new.arcs.items) }
    ensures pointers { OnOk result (HavePointers frame.new.origins.items frame.new.arcs.items) }
{
    for hub in hubs {
        enter_hub(alloc, frame, hub)?;
    }
    Ok(())
}

// Adds a hub, with a load and a store if it lies below its nodes.
fn enter_hub(alloc: Global, frame: &mut Frame, hub: &Hub) -> Result<(), Memory>
    requires frame { IsFrame frame.old.origins.items frame.old.steps frame.old.arcs.items frame.old.back.items }
    requires pointers { HavePointers frame.old.origins.items frame.old.arcs.items }
    ensures frame { OnOk result (IsFrame frame.new.origins.items frame.new.steps frame.new.arcs.items frame.new.back.items) }
    ensures more { OnOk result (IsGrownBy frame.old.origins.items frame.old.arcs.items frame.new.origins.items frame.new.arcs.items) }
    ensures pointers { OnOk result (HavePointers frame.new.origins.items frame.new.arcs.items) }
{
    let node = hub_node(alloc, frame, hub.is_lower)?;
    for member in hub.members.items() {
        join(frame, node, *member, hub.is_lower)?;
    }
    Ok(())
}

// Adds the node of a hub, with a load and a store and an arc between these, if it lies below others.
fn hub_node(alloc: Global, frame: &mut Frame, is_lower: bool) -> Result<u32, Memory>
    requires frame { IsFrame frame.old.origins.items frame.old.steps frame.old.arcs.items frame.old.back.items }
    requires pointers { HavePointers frame.old.origins.items frame.old.arcs.items }
    ensures frame { OnOk result (IsFrame frame.new.origins.items frame.new.steps frame.new.arcs.items frame.new.back.items) }
    ensures more { OnOk result (IsGrownBy frame.old.origins.items frame.old.arcs.items frame.new.origins.items frame.new.arcs.items) }
    ensures pointers { OnOk result (HavePointers frame.new.origins.items frame.new.arcs.items) }
    ensures node { IfOk result (λ node. node < length frame.new.origins.items) }
{
    let node = frame.enter(alloc, None)?;
    if is_lower {
        enter_both(alloc, frame, node)?;
    }
    Ok(node)
}

// Adds load and store of a node of which nothing is made, and an arc between these.
fn enter_both(alloc: Global, frame: &mut Frame, node: u32) -> Result<(), Memory>
    requires frame { IsFrame frame.old.origins.items frame.old.steps frame.old.arcs.items frame.old.back.items }
    requires node { node < length frame.old.origins.items }
    requires none { (n : ℕ) (l : Letter) → IsMade frame.old.origins.items n node l → ⊥ }
    requires pointers { HavePointers frame.old.origins.items frame.old.arcs.items }
    ensures frame { OnOk result (IsFrame frame.new.origins.items frame.new.steps frame.new.arcs.items frame.new.back.items) }
    ensures more { OnOk result (IsGrownBy frame.old.origins.items frame.old.arcs.items frame.new.origins.items frame.new.arcs.items) }
    ensures pointers { OnOk result (HavePointers frame.new.origins.items frame.new.arcs.items) }
{
    let load = frame.enter(alloc, Some((node, Label::Load)))?;
    let store = frame.enter(alloc, Some((node, Label::Store)))?;
    frame.join(
        store,
        Arc {
            to: load,
            line: None,
        },
    )?;
    Ok(())
}

// Adds a pushed arc from a hub to another node, if there is that, or the other way.
fn join(frame: &mut Frame, hub: u32, node: u32, is_lower: bool) -> Result<(), Memory>
    requires frame { IsFrame frame.old.origins.items frame.old.steps frame.old.arcs.items frame.old.back.items }
    requires hub { hub < length frame.old.origins.items }
    ensures frame { OnOk result (IsFrame frame.new.origins.items frame.new.steps frame.new.arcs.items frame.new.back.items) }
    ensures origins { OnOk result (frame.new.origins.items ≡ frame.old.origins.items) }
    ensures more { OnOk result (IsGrownBy frame.old.origins.items frame.old.arcs.items frame.new.origins.items frame.new.arcs.items) }
{
    if node as usize >= frame.origins.len() {
        return Ok(());
    }
    let (from, to) = if is_lower { (hub, node) } else { (node, hub) };
    frame.join(from, Arc { to, line: None })?;
    Ok(())
}
