// The ends of groups: the states of variables with a letter more than members, and where they stand.
ghost use Rattle.std.specs.Prelude.{◌≡◌, ◌⊎◌, ◌<◌, ◌≤◌, ℕ, List, Contains, Some, None, IfOk, IfSome, OnOk};
ghost use Rattle.std.specs.Prelude.{length};
ghost use Rattle.rt_lines.specs.declared.label.Label.{Label as Letter};
ghost use Rattle.rt_sat.specs.declared.gathering.End.{End as Stop};
ghost use Rattle.rt_sat.specs.declared.state.State.{State as Place};
ghost use Rattle.rt_sat.specs.declared.state.Edge.{Edge as Arrow};
ghost use Rattle.rt_sat.specs.Inside.Links.{noted_at, AreBefore, AreBehind, AreReady, AreSources, AreTargets};
ghost use Rattle.rt_sat.specs.Inside.Links.{IsReady};
ghost use Rattle.rt_sat.specs.Hints.{AreEnds, AreGroups, AreKids};
ghost use Rattle.rt_sat.specs.Hints.{IsAtOrBehind, IsFamily, IsGroup};
ghost use Rattle.rt_sat.specs.Numbered.{AreDistinct};
ghost use Rattle.rt_sat.specs.Pushes.{IsChildOf};

use crate::family::{Family, Home, place};
use crate::gathering::{End, Group, Kid, Ready};
use crate::links::{Links, states_at};
use crate::pushing::{Frame, flag, is_pointer, sign, turns};
use crate::state::State;
use crate::stepping::Spots;
use rt_base::{Memory, Sequence};
use rt_lines::Label;
use rt_named::Origin;
use std::alloc::Global;
use std::slice;

// The ends of groups.
pub(crate) fn readied(
    alloc: Global,
    frame: &Frame,
    groups: &[Group],
    links: &Links,
    dead: &[Vec<bool>],
    family: &Family,
) -> Result<Vec<Ready>, Memory>
    requires distinct { AreDistinct frame.now.named }
    requires family { (count : ℕ) × IsFamily count family.now }
    requires groups { AreGroups family.now groups.now }
    ensures { IfOk result (λ all. AreReady frame.now.named frame.now.flips.items family.now links.now all.items) }
{
    let mut all = Vec::with_capacity(alloc, groups.len())?;
    for group in groups {
        let ready = ready_of(alloc, frame, group, links, dead, family)?;
        all.push(ready)?;
    }
    Ok(all)
}

// The ends of a group.
fn ready_of(
    alloc: Global,
    frame: &Frame,
    group: &Group,
    links: &Links,
    dead: &[Vec<bool>],
    family: &Family,
) -> Result<Ready, Memory>
    requires distinct { AreDistinct frame.now.named }
    requires family { (count : ℕ) × IsFamily count family.now }
    requires group { IsGroup family.now group.now }
    ensures { IfOk result (λ ready. IsReady frame.now.named frame.now.flips.items family.now links.now ready) }
{
    let members = family.members[group.class].items();
    let kids = group.kids.items();
    let sources = ends(alloc, frame, members, kids, &links.before, dead, family)?;
    let targets = ends(alloc, frame, members, kids, &links.behind, dead, family)?;
    let leading = those(alloc, &targets, true)?;
    let others = those(alloc, &targets, false)?;
    let leading_spots = Spots::of(alloc, &leading)?;
    let other_spots = Spots::of(alloc, &others)?;
    Ok(Ready {
        class: group.class,
        sources,
        leading,
        others,
        leading_spots,
        other_spots,
    })
}

// The ends from which something leads on, or the others.
fn those(alloc: Global, ends: &[End], lead_on: bool) -> Result<Vec<End>, Memory>
    ensures { IfOk result (λ those. (end : Stop) → Contains those.items end → Contains ends.now end) }
{
    let mut those = Vec::new(alloc);
    for end in ends {
        if end.leads_on == lead_on {
            those.push(*end)?;
        }
    }
    Ok(those)
}

// The states of variables with a letter more than members' states, as far as they stand in a class of a family, or states that
// are noted at them do.
pub(crate) fn ends(
    alloc: Global,
    frame: &Frame,
    members: &[u32],
    kids: &[Kid],
    near: &[Sequence<State>],
    dead: &[Vec<bool>],
    into: &Family,
) -> Result<Vec<End>, Memory>
    requires distinct { AreDistinct frame.now.named }
    requires members { length members.now ≤ 6000 }
    requires kids { AreKids members.now kids.now }
    requires into { (count : ℕ) × IsFamily count into.now }
    ensures ends { IfOk result (λ ends. AreEnds frame.now.named frame.now.flips.items members.now into.now ends.items) }
    ensures before { IfOk result (λ ends. (lines : List Arrow) → AreBefore frame.now.named frame.now.flips.items lines near.now →
        AreSources frame.now.named frame.now.flips.items lines ends.items) }
    ensures behind { IfOk result (λ ends. (lines : List Arrow) → AreBehind frame.now.named frame.now.flips.items lines near.now →
        AreTargets frame.now.named frame.now.flips.items lines ends.items) }
{
    let mut ends = Vec::new(alloc);
    for kid in kids {
        for turned in 0..2 {
            add_kid(
                frame,
                members,
                *kid,
                turned == 1,
                near,
                dead,
                into,
                &mut ends,
            )?;
        }
    }
    Ok(ends)
}

// Adds the state of a variable with a letter more than a member's state, as far as it stands in a class of a family, or states
// that are noted at it do.
fn add_kid(
    frame: &Frame,
    members: &[u32],
    kid: Kid,
    contra: bool,
    near: &[Sequence<State>],
    dead: &[Vec<bool>],
    into: &Family,
    ends: &mut Vec<End>,
) -> Result<(), Memory>
    requires distinct { AreDistinct frame.now.named }
    requires members { length members.now ≤ 6000 }
    requires kid { kid.parent < length members.now }
    requires into { (count : ℕ) × IsFamily count into.now }
    ensures ends { OnOk result (AreEnds frame.now.named frame.now.flips.items members.now into.now ends.old.items →
        AreEnds frame.now.named frame.now.flips.items members.now into.now ends.new.items) }
    ensures before { OnOk result ((lines : List Arrow) → AreBefore frame.now.named frame.now.flips.items lines near.now →
        AreSources frame.now.named frame.now.flips.items lines ends.old.items →
        AreSources frame.now.named frame.now.flips.items lines ends.new.items) }
    ensures behind { OnOk result ((lines : List Arrow) → AreBehind frame.now.named frame.now.flips.items lines near.now →
        AreTargets frame.now.named frame.now.flips.items lines ends.old.items →
        AreTargets frame.now.named frame.now.flips.items lines ends.new.items) }
{
    let root = State {
        variable: members[kid.parent],
        contra,
    };
    let Some((parent, pointed)) = parent_of(frame, root, kid.through) else {
        return Ok(());
    };
    let Some((child, letter)) = child_of(frame, parent, kid.variable) else {
        return Ok(());
    };
    for stand in stands(near, &child, into) {
        if let Some(home) = into.home(*stand) {
            ends.push(End {
                place: place(kid.parent, contra),
                root,
                pointed,
                root_flip: flag(&frame.flips, root.variable),
                parent,
                child,
                letter,
                stand: *stand,
                home,
                flip: flag(&frame.flips, parent.variable),
                matters: flag(&frame.matters, child.variable),
                pointer: is_pointer(letter),
                turned: turns(letter.variance().times(sign(child.contra))),
                leads_on: leads_on(*stand, child, dead, home),
            })?;
        }
    }
    Ok(())
}

// The state of a variable that has the letter of a pointer more than a state's, and the letter; the state itself, if there is no such
// variable.
fn parent_of(frame: &Frame, root: State, through: Option<u32>) -> Option<(State, Option<Label>)>
    requires { AreDistinct frame.now.named }
    ensures { IfSome result (λ parent. IsAtOrBehind frame.now.named root parent.0 parent.1) }
{
    let Some(number) = through else {
        return Some((root, None));
    };
    let (parent, letter) = child_of(frame, root, number)?;
    Some((parent, Some(letter)))
}

// Whether something leads on from where a state stands, but what is pushed to it and to others.
fn leads_on(stand: State, state: State, dead: &[Vec<bool>], home: Home) -> bool {
    if stand != state {
        return true;
    }
    let Some(flags) = dead.get(home.class) else {
        return true;
    };
    match flags.get(home.index) {
        Some(flag) => !*flag,
        None => true,
    }
}

// The state, if it stands in a class of a family, else those that are noted at it.
fn stands<'a>(near: &'a [Sequence<State>], state: &'a State, into: &Family) -> &'a [State]
    requires { (count : ℕ) × IsFamily count into.now }
    ensures { (s : Place) → Contains result.now s → (s ≡ state.now) ⊎ Contains (noted_at near.now state.now) s }
{
    if into.home(*state).is_some() {
        return slice::from_ref(state);
    }
    states_at(near, *state)
}

// The state of a variable, if that has a letter more than a state's, and the letter.
pub(crate) fn child_of(frame: &Frame, parent: State, number: u32) -> Option<(State, Label)>
    requires distinct { AreDistinct frame.now.named }
    ensures child { IfSome result (λ child. IsChildOf frame.now.named child.0 parent child.1) }
    ensures number { IfSome result (λ child. child.0.variable ≡ number) }
    ensures none { result ≡ None → (child : Place) (l : Letter) → child.variable ≡ number →
        IsChildOf frame.now.named child parent l → ⊥ }
{
    if number as usize >= frame.named.len() {
        return None;
    }
    match frame.named.origin(number) {
        Origin::Longer(above, letter) => {
            if above != parent.variable {
                return None;
            }
            let state = State {
                variable: number,
                contra: turns(letter.variance().times(sign(parent.contra))),
            };
            Some((state, letter))
        }
        Origin::Bare(_) => None,
    }
}
