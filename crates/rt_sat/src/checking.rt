// Variables whose ways are pushed, as tables of bytes show: no search is needed for these.
ghost use Rattle.std.specs.Prelude.{◌≡◌, ◌*◌, ◌<◌, ℕ, List, true, length, IfOk, IfSome};
ghost use Rattle.rt_lines.specs.declared.label.Label.{Label as Letter};
ghost use Rattle.rt_sat.specs.declared.state.State.{State as Place};
ghost use Rattle.rt_sat.specs.declared.state.Edge.{Edge as Arrow};
ghost use Rattle.rt_sat.specs.Inside.Checks.{AreComplete, AreWalked};
ghost use Rattle.rt_sat.specs.Inside.Flags.{IsCovered, IsCoveredAt, IsCoveredRow, IsCoveredTo};
ghost use Rattle.rt_sat.specs.Hints.{IsFamily};
ghost use Rattle.rt_sat.specs.Numbered.{AreDistinct};
ghost use Rattle.rt_sat.specs.Pushes.{asked_of, pushed_of, AreChildren, AreDone, AreIndexed, HasWalk, IsChildOf, IsClosedFrom};

use crate::building::built;
use crate::complete::is_complete;
use crate::ends::child_of;
use crate::family::Family;
use crate::filling::filled;
use crate::halving::between;
use crate::hints::{MANY, above, below, group_nodes, groups, member_state};
use crate::layers::Layers;
use crate::pushing::{Frame, flag, numbers_at};
use crate::state::State;
use rt_base::Memory;
use rt_grid::NONE;
use rt_lines::Label;
use std::alloc::Global;

// A child to which its parent's ways are pushed.
#[derive(Clone, Copy)]
struct Target {
    child: State,
    // The letter that the child has more.
    letter: Label,
    // Whether the parent can be read and written through.
    flip: bool,
    // Whether counts above nought matter at the child.
    matters: bool,
}

// For each variable whether tables show that whatever is pushed from its ways has a way along the pushed edges. No flag where
// there are few lines. The tables that the pushed edges come from spare to make most of the others anew.
pub(crate) fn checked(
    alloc: Global,
    frame: &Frame,
    layers: &Layers,
    family: Option<&Family>,
) -> Result<Vec<bool>, Memory>
    requires children { AreChildren frame.now.named frame.now.children.items }
    requires distinct { AreDistinct frame.now.named }
    requires nodes { length frame.now.nodes.items ≡ length frame.now.named }
    requires indexed { AreIndexed layers.now }
    requires family { IfSome family (λ f. IsFamily (length frame.now.named) f.now) }
    ensures { IfOk result (λ done. AreDone frame.now.named frame.now.flips.items frame.now.matters.items layers.now.edges.items
        (pushed_of layers.now) done.items) }
{
    if layers.lines < MANY {
        return Ok(Vec::new(alloc));
    }
    let above = above(alloc, frame)?;
    let ways = match family {
        Some(family) => filled(alloc, frame, &layers.edges, &above, family)?,
        None => built(alloc, &frame.nodes, &layers.edges, &above)?,
    };
    if !is_complete(&ways, &layers.edges) {
        return Ok(Vec::new(alloc));
    }
    let below = below(alloc, frame)?;
    let groups = groups(alloc, frame, &ways)?;
    let nodes = group_nodes(alloc, &groups, frame.named.len())?;
    let pushed = built(alloc, &nodes, &layers.edges[layers.lines..], &below)?;
    let done = flags(alloc, frame, &ways, &pushed)?;
    Ok(done)
}

// For each variable whether whatever is pushed from its ways has a way in the tables of pushed edges.
fn flags(alloc: Global, frame: &Frame, ways: &Family, pushed: &Family) -> Result<Vec<bool>, Memory>
    requires children { AreChildren frame.now.named frame.now.children.items }
    requires distinct { AreDistinct frame.now.named }
    requires ways { IsFamily (length frame.now.named) ways.now }
    requires pushed { IsFamily (length frame.now.named) pushed.now }
    ensures { IfOk result (λ done. (edges more : List Arrow) → AreComplete ways.now edges → AreWalked pushed.now more →
        AreDone frame.now.named frame.now.flips.items frame.now.matters.items edges more done.items) }
{
    let mut done = Vec::new(alloc);
    for number in 0..frame.named.len() {
        let yes = is_number_covered(frame, ways, pushed, number as u32);
        done.push(yes)?;
    }
    Ok(done)
}

// Whether whatever is pushed from a variable's ways has a way, at both signs.
fn is_number_covered(frame: &Frame, ways: &Family, pushed: &Family, number: u32) -> bool
    requires children { AreChildren frame.now.named frame.now.children.items }
    requires distinct { AreDistinct frame.now.named }
    requires ways { IsFamily (length frame.now.named) ways.now }
    requires pushed { IsFamily (length frame.now.named) pushed.now }
    ensures { result ≡ true → (edges more : List Arrow) → AreComplete ways.now edges → AreWalked pushed.now more →
        (child parent : Place) (l : Letter) → parent.variable ≡ number → IsChildOf frame.now.named child parent l →
        IsClosedFrom frame.now.named frame.now.flips.items frame.now.matters.items edges more child parent l }
{
    let forth = State {
        variable: number,
        contra: false,
    };
    let back = State {
        variable: number,
        contra: true,
    };
    is_parent_covered(frame, ways, pushed, forth) && is_parent_covered(frame, ways, pushed, back)
}

// Whether whatever is pushed from a state's ways to its children has a way.
fn is_parent_covered(frame: &Frame, ways: &Family, pushed: &Family, parent: State) -> bool
    requires children { AreChildren frame.now.named frame.now.children.items }
    requires distinct { AreDistinct frame.now.named }
    requires ways { IsFamily (length frame.now.named) ways.now }
    requires pushed { IsFamily (length frame.now.named) pushed.now }
    ensures { result ≡ true → (edges more : List Arrow) → AreComplete ways.now edges → AreWalked pushed.now more →
        (child : Place) (l : Letter) → IsChildOf frame.now.named child parent l →
        IsClosedFrom frame.now.named frame.now.flips.items frame.now.matters.items edges more child parent l }
{
    for child in numbers_at(&frame.children, parent.variable) {
        if !is_child_covered(frame, ways, pushed, parent, *child) {
            return false;
        }
    }
    true
}

// Whether whatever is pushed from a state's ways to its child of a number has a way, if it has one.
fn is_child_covered(
    frame: &Frame,
    ways: &Family,
    pushed: &Family,
    parent: State,
    number: u32,
) -> bool
    requires children { AreChildren frame.now.named frame.now.children.items }
    requires distinct { AreDistinct frame.now.named }
    requires ways { IsFamily (length frame.now.named) ways.now }
    requires pushed { IsFamily (length frame.now.named) pushed.now }
    ensures { result ≡ true → (edges more : List Arrow) → AreComplete ways.now edges → AreWalked pushed.now more →
        (child : Place) (l : Letter) → child.variable ≡ number → IsChildOf frame.now.named child parent l →
        IsClosedFrom frame.now.named frame.now.flips.items frame.now.matters.items edges more child parent l }
{
    let Some((child, letter)) = child_of(frame, parent, number) else {
        return true;
    };
    let Some(home) = ways.home(parent) else {
        return false;
    };
    let target = Target {
        child,
        letter,
        flip: flag(&frame.flips, parent.variable),
        matters: flag(&frame.matters, number),
    };
    let members = ways.members[home.class].items();
    let row = ways.grids[home.class].row(home.index);
    is_row_covered(frame, pushed, &target, members, row)
}

// Whether whatever is pushed from the counts of a row to a child has a way.
fn is_row_covered(
    frame: &Frame,
    pushed: &Family,
    target: &Target,
    members: &[u32],
    row: &[u8],
) -> bool
    requires children { AreChildren frame.now.named frame.now.children.items }
    requires distinct { AreDistinct frame.now.named }
    requires pushed { IsFamily (length frame.now.named) pushed.now }
    requires row { length row.now ≡ 2 * length members.now }
    ensures { result ≡ true → (more : List Arrow) → AreWalked pushed.now more →
        IsCoveredRow frame.now.named target.now.flip (asked_of target.now.matters) more target.now.child target.now.letter
        members.now row.now }
{
    for index in 0..row.len() {
        let other = member_state(members, index);
        if !is_place_covered(frame, pushed, target, other, row[index]) {
            return false;
        }
    }
    true
}

// Whether whatever is pushed from a count to a state has a way, if that is known.
fn is_place_covered(
    frame: &Frame,
    pushed: &Family,
    target: &Target,
    other: State,
    count: u8,
) -> bool
    requires children { AreChildren frame.now.named frame.now.children.items }
    requires distinct { AreDistinct frame.now.named }
    requires pushed { IsFamily (length frame.now.named) pushed.now }
    ensures { result ≡ true → (more : List Arrow) → AreWalked pushed.now more → count < 255 →
        IsCoveredTo frame.now.named target.now.flip (asked_of target.now.matters) more target.now.child target.now.letter
        other count }
{
    count == NONE || is_covered_to(frame, pushed, target, other, count)
}

// Whether whatever is pushed from a count to a state, to children of it, has a way.
fn is_covered_to(frame: &Frame, pushed: &Family, target: &Target, other: State, count: u8) -> bool
    requires children { AreChildren frame.now.named frame.now.children.items }
    requires distinct { AreDistinct frame.now.named }
    requires pushed { IsFamily (length frame.now.named) pushed.now }
    requires count { count < 255 }
    ensures { result ≡ true → (more : List Arrow) → AreWalked pushed.now more →
        IsCoveredTo frame.now.named target.now.flip (asked_of target.now.matters) more target.now.child target.now.letter
        other count }
{
    for end in numbers_at(&frame.children, other.variable) {
        if !is_covered_at(frame, pushed, target, other, count, *end) {
            return false;
        }
    }
    true
}

// Whether whatever is pushed from a count to a state, to its child of a number, has a way, if it has one.
fn is_covered_at(
    frame: &Frame,
    pushed: &Family,
    target: &Target,
    other: State,
    count: u8,
    number: u32,
) -> bool
    requires distinct { AreDistinct frame.now.named }
    requires pushed { IsFamily (length frame.now.named) pushed.now }
    requires count { count < 255 }
    ensures { result ≡ true → (more : List Arrow) → AreWalked pushed.now more →
        IsCoveredAt frame.now.named target.now.flip (asked_of target.now.matters) more target.now.child target.now.letter
        other count number }
{
    let Some((end, letter)) = child_of(frame, other, number) else {
        return true;
    };
    is_covered(pushed, target, end, letter, count)
}

// Whether what is pushed from a count between parents to two children has a way.
fn is_covered(pushed: &Family, target: &Target, end: State, letter: Label, count: u8) -> bool
    requires pushed { (number : ℕ) × IsFamily number pushed.now }
    requires count { count < 255 }
    ensures { result ≡ true → (more : List Arrow) → AreWalked pushed.now more →
        IsCovered target.now.flip (asked_of target.now.matters) more target.now.child target.now.letter end letter count }
{
    let child = target.child;
    let Some(least) = between(
        target.flip,
        target.letter,
        letter,
        count,
        child.contra,
        end.contra,
    ) else {
        return true;
    };
    if least > 0 && !target.matters {
        return true;
    }
    is_near(pushed, child, end, least)
}

// Whether a way between states is no longer.
fn is_near(pushed: &Family, from: State, to: State, count: u8) -> bool
    requires { (number : ℕ) × IsFamily number pushed.now }
    ensures { result ≡ true → (more : List Arrow) → AreWalked pushed.now more → HasWalk more from to count }
{
    if from == to {
        return true;
    }
    let Some(left) = pushed.home(from) else {
        return false;
    };
    let Some(right) = pushed.home(to) else {
        return false;
    };
    if left.class != right.class {
        return false;
    }
    let way = pushed.grids[left.class].row(left.index)[right.index];
    way < NONE && way <= count
}
