// Pushes from ways between variables to edges between those with a letter more.
ghost use Rattle.std.specs.Prelude.{◌≡◌, ℕ, ◌<◌, ◌↔◌, [], List, Bool, false, true, None};
ghost use Rattle.std.specs.Prelude.{length, slice_index_or, IsTrue, IfOk, IfSome, OnOk};
ghost use Rattle.rt_lines.specs.declared.label.Label.{Label as Letter};
ghost use Rattle.rt_lines.specs.Words.{label_variance, times};
ghost use Rattle.rt_bridge.specs.Counted.{IsPointer};
ghost use Rattle.rt_sat.specs.declared.state.State.{State as Place};
ghost use Rattle.rt_sat.specs.declared.state.Edge.{Edge as Arrow};
ghost use Rattle.rt_sat.specs.Numbered.{AreDistinct, is_contra, sign_of};
ghost use Rattle.rt_sat.specs.Pushes.{asked_of, needed_of, AreChildren, IsChildOf, IsClosedIn, IsDoneAt, IsDoneOn, IsDoneTo, IsHalf};
ghost use Rattle.rt_sat.specs.Pushes.{AreGrown, AreIndexed, IsGrown, IsNeeding, IsNoted, IsPushed, IsPushedOn, IsPushedTo, IsStill, PushBy};
ghost use Rattle.rt_sat.specs.Counts.{IsLeastHalf};
ghost use Rattle.rt_sat.specs.Searches.{Allows, IsSearch, IsWithin};

use crate::count::Count;
use crate::layers::Layers;
use crate::reached::Reached;
use crate::search::allows;
use crate::state::{Edge, State};
use rt_base::{Memory, Sequence};
use rt_lines::{Label, Variance};
use rt_named::{Named, Origin};
use std::alloc::Global;

// Named variables, which of them can be read and written through, at which of them counts above nought matter, and the
// numbers of those with a letter more.
#[derive(Drop)]
pub(crate) struct Frame {
    pub(crate) named: Named,
    pub(crate) flips: Vec<bool>,
    pub(crate) matters: Vec<bool>,
    pub(crate) children: Vec<Sequence<u32>>,
    // The nodes of the variables in the shape.
    pub(crate) nodes: Vec<Option<u32>>,
}

// The sign of a state.
pub(crate) fn sign(contra: bool) -> Variance
    ensures { result ≡ sign_of contra }
{
    if contra {
        Variance::Contra
    } else {
        Variance::Co
    }
}

// Whether a sign turns the order round.
pub(crate) fn turns(variance: Variance) -> bool
    ensures { result ≡ is_contra variance }
{
    match variance {
        Variance::Co => false,
        Variance::Contra => true,
    }
}

// Whether a letter is that of a pointer.
pub(crate) fn is_pointer(label: Label) -> bool
    ensures { IsTrue result ↔ IsPointer label }
{
    match label {
        Label::Load | Label::Store => true,
        Label::In(_) | Label::Out(_) | Label::Field(_, _) => false,
    }
}

// Puts in an edge where its count is asked for and none that is as small is known of its end. What lies behind it along
// pushed edges is known from then on too.
fn note(
    alloc: Global,
    layers: &mut Layers,
    most: Option<u32>,
    known: &mut Reached,
    from: State,
    to: State,
    count: Count,
) -> Result<(), Memory>
    requires indexed { AreIndexed layers.old }
    ensures noted { OnOk result (IsNoted (λ (e : Arrow). (e.from ≡ from) × (e.to ≡ to) ×
        (e.count ≡ count)) layers.old layers.new known.old known.new) }
    ensures done { OnOk result (IsStill layers.old layers.new → Allows most count → IsWithin known.old to count) }
{
    if !allows(alloc, most, &count) {
        return Ok(());
    }
    if let Some(least) = known.get(to) {
        if !count.is_less(least) {
            return Ok(());
        }
    }
    let again = count.copy(alloc)?;
    layers.push(alloc, Edge { from, to, count })?;
    layers.go_on(alloc, to, again, most, known)?;
    Ok(())
}

// Puts in the count between two parents for children under one letter.
fn push_kept(
    alloc: Global,
    layers: &mut Layers,
    most: Option<u32>,
    known: &mut Reached,
    source: State,
    first: Label,
    target: State,
    second: Label,
    count: &Count,
) -> Result<(), Memory>
    requires indexed { AreIndexed layers.old }
    ensures noted { OnOk result (IsNoted (λ (e : Arrow). (e.from ≡ source) × (e.to ≡ target) × (first ≡ second) ×
        (count.now ≡ e.count)) layers.old layers.new known.old known.new) }
    ensures done { OnOk result (IsStill layers.old layers.new → first ≡ second → Allows most count.now →
        IsWithin known.old target count.now) }
{
    if first == second {
        let copy = count.copy(alloc)?;
        note(alloc, layers, most, known, source, target, copy)?;
    }
    Ok(())
}

// Puts in half the count between two parents, one of which can be read and written through, for children behind pointer letters.
fn push_half(
    alloc: Global,
    flip: bool,
    layers: &mut Layers,
    most: Option<u32>,
    known: &mut Reached,
    source: State,
    first: Label,
    target: State,
    second: Label,
    count: &Count,
) -> Result<(), Memory>
    requires indexed { AreIndexed layers.old }
    ensures noted { OnOk result (IsNoted (λ (e : Arrow). (e.from ≡ source) × (e.to ≡ target) ×
        IsHalf flip first second count.now (sign_of source.contra) (sign_of target.contra) e.count)
        layers.old layers.new known.old known.new) }
    ensures done { OnOk result (IsStill layers.old layers.new → (k : ℕ) →
        IsHalf flip first second count.now (sign_of source.contra) (sign_of target.contra) k → Allows most k →
        IsWithin known.old target k) }
{
    if flip && is_pointer(first) && is_pointer(second) {
        let half = half_between(alloc, source, first, target, second, count)?;
        note(alloc, layers, most, known, source, target, half)?;
    }
    Ok(())
}

// The least count of a half push between two children.
fn half_between(
    alloc: Global,
    source: State,
    first: Label,
    target: State,
    second: Label,
    count: &Count,
) -> Result<Count, Memory>
    ensures { IfOk result (λ half. IsLeastHalf count.now (times (label_variance first) (sign_of source.contra))
        (times (label_variance second) (sign_of target.contra)) (sign_of source.contra) (sign_of target.contra) half) }
{
    let a = sign(source.contra);
    let b = sign(target.contra);
    let left = first.variance().times(a);
    let right = second.variance().times(b);
    count.half_push(alloc, left, right, a, b)
}

// Puts in what the count between two parents gives between two children.
fn push_between(
    alloc: Global,
    flip: bool,
    layers: &mut Layers,
    most: Option<u32>,
    known: &mut Reached,
    source: State,
    first: Label,
    target: State,
    second: Label,
    count: &Count,
) -> Result<(), Memory>
    requires indexed { AreIndexed layers.old }
    ensures noted { OnOk result (IsNoted (λ (e : Arrow). (e.from ≡ source) × (e.to ≡ target) ×
        PushBy flip first second count.now (sign_of source.contra) (sign_of target.contra) e.count)
        layers.old layers.new known.old known.new) }
    ensures done { OnOk result (IsStill layers.old layers.new → (k : ℕ) →
        PushBy flip first second count.now (sign_of source.contra) (sign_of target.contra) k → Allows most k →
        IsWithin known.old target k) }
{
    push_kept(
        alloc, layers, most, known, source, first, target, second, count,
    )?;
    push_half(
        alloc, flip, layers, most, known, source, first, target, second, count,
    )?;
    Ok(())
}

// Puts in what the count between two parents gives between a child of the first and the children of the second.
fn push_to(
    alloc: Global,
    frame: &Frame,
    layers: &mut Layers,
    most: Option<u32>,
    known: &mut Reached,
    flip: bool,
    source: State,
    first: Label,
    other: State,
    count: &Count,
) -> Result<(), Memory>
    requires children { AreChildren frame.now.named frame.now.children.items }
    requires distinct { AreDistinct frame.now.named }
    requires indexed { AreIndexed layers.old }
    ensures noted { OnOk result (IsNoted (λ (e : Arrow). (e.from ≡ source) ×
        IsPushedTo frame.now.named flip first other count.now (sign_of source.contra) e.to e.count)
        layers.old layers.new known.old known.new) }
    ensures done { OnOk result (IsStill layers.old layers.new →
        IsDoneTo frame.now.named flip first other count.now (sign_of source.contra) most known.old) }
{
    for child in numbers_at(&frame.children, other.variable) {
        push_child(
            alloc, frame, layers, most, known, flip, source, first, other, count, *child,
        )?;
    }
    Ok(())
}

// The numbers that are noted at one, none past the end.
pub(crate) fn numbers_at(lists: &[Sequence<u32>], number: u32) -> &[u32]
    ensures { result.now ≡ slice_index_or lists.now number [] }
{
    match lists.get(number as usize) {
        Some(numbers) => numbers.items(),
        None => &[],
    }
}

// Puts in what the count between two parents gives between a child of the first and one of the second, if it is that.
fn push_child(
    alloc: Global,
    frame: &Frame,
    layers: &mut Layers,
    most: Option<u32>,
    known: &mut Reached,
    flip: bool,
    source: State,
    first: Label,
    other: State,
    count: &Count,
    child: u32,
) -> Result<(), Memory>
    requires child { child < length frame.now.named }
    requires distinct { AreDistinct frame.now.named }
    requires indexed { AreIndexed layers.old }
    ensures noted { OnOk result (IsNoted (λ (e : Arrow). (e.from ≡ source) ×
        IsPushedTo frame.now.named flip first other count.now (sign_of source.contra) e.to e.count)
        layers.old layers.new known.old known.new) }
    ensures done { OnOk result (IsStill layers.old layers.new →
        IsDoneAt frame.now.named flip first other count.now (sign_of source.contra) most known.old child) }
{
    match frame.named.origin(child) {
        Origin::Longer(parent, second) => {
            if parent != other.variable {
                return Ok(());
            }
            let contra = turns(second.variance().times(sign(other.contra)));
            let target = State {
                variable: child,
                contra,
            };
            push_between(
                alloc, flip, layers, most, known, source, first, target, second, count,
            )?;
            Ok(())
        }
        Origin::Bare(_) => Ok(()),
    }
}

// Puts in what is pushed from the ways of a state to edges of its children, as far as no way along pushed edges is as
// short. Children that need the same bound share one search.
pub(crate) fn push_below(
    alloc: Global,
    frame: &Frame,
    layers: &mut Layers,
    parent: State,
    reached: &mut Reached,
    known: &mut Reached,
) -> Result<(), Memory>
    requires children { AreChildren frame.now.named frame.now.children.items }
    requires distinct { AreDistinct frame.now.named }
    requires indexed { AreIndexed layers.old }
    ensures grown { OnOk result (AreGrown frame.now.named frame.now.flips.items layers.old layers.new) }
    ensures done { OnOk result (IsStill layers.old layers.new → (child : Place) (l : Letter) →
        IsChildOf frame.now.named child parent l →
        IsClosedIn frame.now.named frame.now.flips.items frame.now.matters.items layers.old child parent l) }
{
    push_bound(alloc, frame, layers, parent, None, reached, known)?;
    push_bound(alloc, frame, layers, parent, Some(0), reached, known)?;
    push_bound(alloc, frame, layers, parent, Some(1), reached, known)?;
    Ok(())
}

// Puts in what is pushed from the ways of a state to edges of those of its children that need a bound.
fn push_bound(
    alloc: Global,
    frame: &Frame,
    layers: &mut Layers,
    parent: State,
    bound: Option<u32>,
    reached: &mut Reached,
    known: &mut Reached,
) -> Result<(), Memory>
    requires children { AreChildren frame.now.named frame.now.children.items }
    requires distinct { AreDistinct frame.now.named }
    requires indexed { AreIndexed layers.old }
    ensures grown { OnOk result (IsGrown (IsPushed frame.now.named frame.now.flips.items layers.old.edges.items)
        layers.old layers.new) }
    ensures done { OnOk result (IsStill layers.old layers.new → (child : Place) (l : Letter) →
        IsChildOf frame.now.named child parent l →
        IsNeeding frame.now.named frame.now.flips.items frame.now.matters.items bound parent.variable child.variable l →
        IsClosedIn frame.now.named frame.now.flips.items frame.now.matters.items layers.old child parent l) }
{
    if !is_needed(frame, parent.variable, bound) {
        return Ok(());
    }
    layers.search(alloc, parent, bound, reached)?;
    for child in numbers_at(&frame.children, parent.variable) {
        push_child_of(alloc, frame, layers, parent, bound, reached, *child, known)?;
    }
    Ok(())
}

// Whether a child of a variable needs a bound.
fn is_needed(frame: &Frame, parent: u32, bound: Option<u32>) -> bool
    requires children { AreChildren frame.now.named frame.now.children.items }
    requires distinct { AreDistinct frame.now.named }
    ensures { result ≡ false → (child : ℕ) (l : Letter) →
        IsNeeding frame.now.named frame.now.flips.items frame.now.matters.items bound parent child l → ⊥ }
{
    for child in numbers_at(&frame.children, parent) {
        if needing(frame, parent, *child, bound).is_some() {
            return true;
        }
    }
    false
}

// The letter of a child of a variable, if it is that and needs a bound.
fn needing(frame: &Frame, parent: u32, child: u32, bound: Option<u32>) -> Option<Label>
    requires child { child < length frame.now.named }
    requires distinct { AreDistinct frame.now.named }
    ensures some { IfSome result (λ l.
        IsNeeding frame.now.named frame.now.flips.items frame.now.matters.items bound parent child l) }
    ensures none { result ≡ None → (l : Letter) →
        IsNeeding frame.now.named frame.now.flips.items frame.now.matters.items bound parent child l → ⊥ }
{
    let Origin::Longer(above, first) = frame.named.origin(child) else {
        return None;
    };
    if above != parent {
        return None;
    }
    if needed(
        flag(&frame.matters, child),
        flag(&frame.flips, parent),
        first,
    ) != bound
    {
        return None;
    }
    Some(first)
}

// Puts in what is pushed from the ways of a state within a bound to edges of its child of a number, if it is that and
// needs the bound.
fn push_child_of(
    alloc: Global,
    frame: &Frame,
    layers: &mut Layers,
    parent: State,
    bound: Option<u32>,
    reached: &Reached,
    child: u32,
    known: &mut Reached,
) -> Result<(), Memory>
    requires children { AreChildren frame.now.named frame.now.children.items }
    requires distinct { AreDistinct frame.now.named }
    requires indexed { AreIndexed layers.old }
    requires child { child < length frame.now.named }
    ensures grown { OnOk result ((before : List Arrow) → IsSearch bound before parent reached.now →
        IsGrown (IsPushed frame.now.named frame.now.flips.items before) layers.old layers.new) }
    ensures done { OnOk result (IsStill layers.old layers.new → IsSearch bound layers.old.edges.items parent reached.now →
        (end : Place) (l : Letter) → end.variable ≡ child → IsChildOf frame.now.named end parent l →
        IsNeeding frame.now.named frame.now.flips.items frame.now.matters.items bound parent.variable child l →
        IsClosedIn frame.now.named frame.now.flips.items frame.now.matters.items layers.old end parent l) }
{
    let Some(first) = needing(frame, parent.variable, child, bound) else {
        return Ok(());
    };
    let source = State {
        variable: child,
        contra: turns(first.variance().times(sign(parent.contra))),
    };
    let flip = flag(&frame.flips, parent.variable);
    let most = asked(flag(&frame.matters, child));
    layers.search_pushed(alloc, source, most, known)?;
    push_reached(
        alloc, frame, layers, most, known, flip, source, first, reached,
    )?;
    Ok(())
}

// The bound of the counts that are asked for: none where counts matter, and nought elsewhere.
fn asked(matters: bool) -> Option<u32>
    ensures { result ≡ asked_of matters }
{
    if matters { None } else { Some(0) }
}

// A bound of the counts from which counts that are asked for are pushed: half pushes give nought from one.
fn needed(matters: bool, flip: bool, first: Label) -> Option<u32>
    ensures { result ≡ needed_of matters flip first }
{
    if matters {
        return None;
    }
    if flip && is_pointer(first) {
        return Some(1);
    }
    Some(0)
}

// The flag of a number, false past the end.
pub(crate) fn flag(flags: &[bool], number: u32) -> bool
    ensures { result ≡ slice_index_or flags.now number false }
{
    match flags.get(number as usize) {
        Some(flag) => *flag,
        None => false,
    }
}

// Puts in what counts from a parent give to its child.
fn push_reached(
    alloc: Global,
    frame: &Frame,
    layers: &mut Layers,
    most: Option<u32>,
    known: &mut Reached,
    flip: bool,
    source: State,
    first: Label,
    reached: &Reached,
) -> Result<(), Memory>
    requires children { AreChildren frame.now.named frame.now.children.items }
    requires distinct { AreDistinct frame.now.named }
    requires indexed { AreIndexed layers.old }
    ensures noted { OnOk result (IsNoted (λ (e : Arrow). (e.from ≡ source) ×
        IsPushedOn frame.now.named flip first (sign_of source.contra) reached.now e.to e.count)
        layers.old layers.new known.old known.new) }
    ensures done { OnOk result (IsStill layers.old layers.new →
        IsDoneOn frame.now.named flip first (sign_of source.contra) reached.now most known.old) }
{
    for i in 0..reached.len() {
        let Some(entry) = reached.at(i) else {
            unreachable!()
        };
        push_to(
            alloc, frame, layers, most, known, flip, source, first, entry.0, &entry.1,
        )?;
    }
    Ok(())
}
