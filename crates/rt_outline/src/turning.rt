// Whether closed arcs tell which nodes have a node below both, and which one above both.
ghost use Rattle.std.specs.Prelude.{◌≡◌, ◌↔◌, ◌<◌, ℕ, [], List, Bool, true, false, Contains, IsTrue, None, Some, IfOk, IfSome, OnOk, length, replicate};
ghost use Rattle.rt_lines.specs.declared.label.Label.{Label as Letter};
ghost use Rattle.rt_lines.specs.Words.{label_variance};
ghost use Rattle.rt_bridge.specs.Counted.{IsPointer};
ghost use Rattle.rt_outline.specs.Arcs.{HasArc, Leads};
ghost use Rattle.rt_outline.specs.Frames.{IsFrame, IsMade};
ghost use Rattle.rt_outline.specs.Hubs.{HasAccess};
ghost use Rattle.rt_outline.specs.Turning.{class_at, flag_at, AreTold, AreToldTo, AreTurning, HaveAbove, HaveBelow, HaveBoth};
ghost use Rattle.rt_outline.specs.Turning.{IsMarkedAt, IsToldAt};
ghost use Rattle.rt_outline.specs.Inside.Beside.{AreListed};
ghost use Rattle.rt_outline.specs.Inside.Sides.{AreSplitIn, AreWhole, IsReach, IsWhole};

use crate::arc::Arc;
use crate::beside::Beside;
use crate::found::Found;
use crate::frame::Frame;
use crate::sorting::Sorts;
use crate::spreading::{leaving, spread};
use rt_base::{Memory, Sequence};
use rt_lines::{Label, Variance};
use std::alloc::Global;

// What lies above something below a node and below something above it.
#[derive(Drop)]
pub(crate) struct Reach {
    // Those that have a node below both, with a load and a store if it needs them.
    low: Found,
    // Those that have one above both.
    high: Found,
}

// Whether nodes behind letters of nodes of one class have a node below both and one above both as these have, where counts
// matter.
pub(crate) fn are_turning(
    alloc: Global,
    frame: &Frame,
    sorts: &Sorts,
    stands: &[bool],
) -> Result<bool, Memory>
    requires frame { IsFrame frame.now.origins.items frame.now.steps frame.now.arcs.items frame.now.back.items }
    ensures { IfOk result (λ yes. yes ≡ true → AreTurning frame.now.origins.items (Leads frame.now.arcs.items stands.now true)
        sorts.now.classes.items sorts.now.flips.items sorts.now.marks.items (length sorts.now.classes.items)) }
{
    if !are_marked(frame, sorts) {
        return Ok(false);
    }
    let count = count(frame, sorts);
    let beside = Beside::of(alloc, frame, sorts, count)?;
    let mut known = nothing(alloc, frame.origins.len())?;
    for node in 0..count {
        if !is_told(alloc, frame, sorts, &beside, stands, &mut known, node)? {
            return Ok(false);
        }
    }
    Ok(true)
}

// Nothing, for so many nodes.
fn nothing(alloc: Global, count: usize) -> Result<Vec<Option<Reach>>, Memory>
    ensures { IfOk result (λ known. known.items ≡ replicate count None) }
{
    let mut known = Vec::with_capacity(alloc, count)?;
    for _ in 0..count {
        known.push(None)?;
    }
    Ok(known)
}

// All numbers with a class that are made of another one are less.
fn count(frame: &Frame, sorts: &Sorts) -> u32
    requires frame { IsFrame frame.now.origins.items frame.now.steps frame.now.arcs.items frame.now.back.items }
    ensures { (v p : ℕ) (l : Letter) → v < length sorts.now.classes.items → IsMade frame.now.origins.items v p l → v < result }
{
    sorts.classes.len().min(frame.origins.len()) as u32
}

// Whether the marks stand where a variable can be read and written through, and at what has a marked one behind a letter.
fn are_marked(frame: &Frame, sorts: &Sorts) -> bool
    ensures { result ≡ true → (v : ℕ) → v < length sorts.now.classes.items → IsMarkedAt frame.now.origins.items
        sorts.now.classes.items sorts.now.flips.items sorts.now.marks.items v }
{
    for node in 0..sorts.classes.len() {
        if !is_marked_at(frame, sorts, node) {
            return false;
        }
    }
    true
}

// Whether they stand so at a node.
fn is_marked_at(frame: &Frame, sorts: &Sorts, node: usize) -> bool
    ensures { result ≡ true → IsMarkedAt frame.now.origins.items
        sorts.now.classes.items sorts.now.flips.items sorts.now.marks.items node }
{
    if !sorts.is_marked(node) {
        return !sorts.is_flip(node);
    }
    match frame.origins.get(node) {
        Some(Some((parent, _))) => sorts.is_marked(*parent as usize),
        Some(None) | None => true,
    }
}

// Whether a node that is made of another one has with all others what they must have.
fn is_told(
    alloc: Global,
    frame: &Frame,
    sorts: &Sorts,
    beside: &Beside,
    stands: &[bool],
    known: &mut Vec<Option<Reach>>,
    node: u32,
) -> Result<bool, Memory>
    requires frame { IsFrame frame.now.origins.items frame.now.steps frame.now.arcs.items frame.now.back.items }
    requires beside { AreListed frame.now.origins.items sorts.now.classes.items (length sorts.now.classes.items) beside.now }
    requires known { AreWhole frame.now.origins.items (Leads frame.now.arcs.items stands.now true) known.old.items }
    ensures known { OnOk result (AreWhole frame.now.origins.items (Leads frame.now.arcs.items stands.now true) known.new.items) }
    ensures told { IfOk result (λ yes. yes ≡ true → IsToldAt frame.now.origins.items (Leads frame.now.arcs.items stands.now true)
        sorts.now.classes.items sorts.now.flips.items sorts.now.marks.items (length sorts.now.classes.items) node) }
{
    if !sorts.is_marked(node as usize) {
        return Ok(true);
    }
    let Some(Some((parent, label))) = frame.origins.get(node as usize) else {
        return Ok(true);
    };
    let Some(class) = sorts.class(*parent) else {
        return Ok(true);
    };
    let none = no_reach(alloc)?;
    if is_told_with_all(
        frame, sorts, beside, &none, None, stands, node, *parent, *label, class,
    ) {
        return Ok(true);
    }
    let told = is_told_by_sides(
        alloc, frame, sorts, beside, stands, known, node, *parent, *label, class,
    )?;
    Ok(told)
}

// Whether a node behind a letter has with all others behind letters of nodes of a class what they must have, as its sides tell,
// unless all nodes of the class have one node below all, and one above. Those of what it is made of are kept.
fn is_told_by_sides(
    alloc: Global,
    frame: &Frame,
    sorts: &Sorts,
    beside: &Beside,
    stands: &[bool],
    known: &mut Vec<Option<Reach>>,
    node: u32,
    parent: u32,
    label: Label,
    class: u32,
) -> Result<bool, Memory>
    requires frame { IsFrame frame.now.origins.items frame.now.steps frame.now.arcs.items frame.now.back.items }
    requires beside { AreListed frame.now.origins.items sorts.now.classes.items (length sorts.now.classes.items) beside.now }
    requires known { AreWhole frame.now.origins.items (Leads frame.now.arcs.items stands.now true) known.old.items }
    ensures known { OnOk result (AreWhole frame.now.origins.items (Leads frame.now.arcs.items stands.now true) known.new.items) }
    ensures told { IfOk result (λ yes. yes ≡ true → AreToldTo frame.now.origins.items (Leads frame.now.arcs.items stands.now true)
        sorts.now.classes.items sorts.now.flips.items node parent class label (length sorts.now.classes.items)) }
{
    if sorts.is_joined(class) {
        return Ok(false);
    }
    note(alloc, frame, stands, known, parent)?;
    match known.get(parent as usize) {
        Some(Some(parents)) => is_told_beside(
            alloc, frame, sorts, beside, stands, parents, node, parent, label, class,
        ),
        Some(None) | None => Ok(false),
    }
}

// Keeps what is known of a node that others are made of.
fn note(
    alloc: Global,
    frame: &Frame,
    stands: &[bool],
    known: &mut Vec<Option<Reach>>,
    parent: u32,
) -> Result<(), Memory>
    requires frame { IsFrame frame.now.origins.items frame.now.steps frame.now.arcs.items frame.now.back.items }
    requires known { AreWhole frame.now.origins.items (Leads frame.now.arcs.items stands.now true) known.old.items }
    ensures { OnOk result (AreWhole frame.now.origins.items (Leads frame.now.arcs.items stands.now true) known.new.items) }
{
    match known.get(parent as usize) {
        Some(None) => {
            let parents = reach_of(alloc, frame, stands, parent, false)?;
            known[parent as usize] = Some(parents);
            Ok(())
        }
        Some(Some(_)) | None => Ok(()),
    }
}

// The same, where that is given of what the node is made of. That alone may tell enough.
fn is_told_beside(
    alloc: Global,
    frame: &Frame,
    sorts: &Sorts,
    beside: &Beside,
    stands: &[bool],
    parents: &Reach,
    node: u32,
    parent: u32,
    label: Label,
    class: u32,
) -> Result<bool, Memory>
    requires frame { IsFrame frame.now.origins.items frame.now.steps frame.now.arcs.items frame.now.back.items }
    requires beside { AreListed frame.now.origins.items sorts.now.classes.items (length sorts.now.classes.items) beside.now }
    requires parents { IsWhole frame.now.origins.items (Leads frame.now.arcs.items stands.now true) false parent parents.now }
    ensures { IfOk result (λ yes. yes ≡ true → AreToldTo frame.now.origins.items (Leads frame.now.arcs.items stands.now true)
        sorts.now.classes.items sorts.now.flips.items node parent class label (length sorts.now.classes.items)) }
{
    if is_told_by_parents(
        alloc, frame, sorts, beside, stands, parents, node, parent, label, class,
    )? {
        return Ok(true);
    }
    let own = reach_of(alloc, frame, stands, node, sorts.is_flip(node as usize))?;
    Ok(is_told_with_all(
        frame,
        sorts,
        beside,
        &own,
        Some(parents),
        stands,
        node,
        parent,
        label,
        class,
    ))
}

// The same, where nothing is known of the node.
fn is_told_by_parents(
    alloc: Global,
    frame: &Frame,
    sorts: &Sorts,
    beside: &Beside,
    stands: &[bool],
    parents: &Reach,
    node: u32,
    parent: u32,
    label: Label,
    class: u32,
) -> Result<bool, Memory>
    requires frame { IsFrame frame.now.origins.items frame.now.steps frame.now.arcs.items frame.now.back.items }
    requires beside { AreListed frame.now.origins.items sorts.now.classes.items (length sorts.now.classes.items) beside.now }
    requires parents { IsWhole frame.now.origins.items (Leads frame.now.arcs.items stands.now true) false parent parents.now }
    ensures { IfOk result (λ yes. yes ≡ true → AreToldTo frame.now.origins.items (Leads frame.now.arcs.items stands.now true)
        sorts.now.classes.items sorts.now.flips.items node parent class label (length sorts.now.classes.items)) }
{
    let none = no_reach(alloc)?;
    Ok(is_told_with_all(
        frame,
        sorts,
        beside,
        &none,
        Some(parents),
        stands,
        node,
        parent,
        label,
        class,
    ))
}

// Nothing known.
fn no_reach(alloc: Global) -> Result<Reach, Memory>
    ensures low { IfOk result (λ reach. reach.low ≡ []) }
    ensures high { IfOk result (λ reach. reach.high ≡ []) }
{
    let low = Found::new(alloc, 0)?;
    let high = Found::new(alloc, 0)?;
    Ok(Reach { low, high })
}

// What has a node below, or above, it and a node.
fn reach_of(
    alloc: Global,
    frame: &Frame,
    stands: &[bool],
    node: u32,
    access: bool,
) -> Result<Reach, Memory>
    requires frame { IsFrame frame.now.origins.items frame.now.steps frame.now.arcs.items frame.now.back.items }
    ensures own { IfOk result (λ reach. IsReach frame.now.origins.items (Leads frame.now.arcs.items stands.now true) access
        node reach) }
    ensures whole { IfOk result (λ reach. IsWhole frame.now.origins.items (Leads frame.now.arcs.items stands.now true) access
        node reach) }
{
    let low = with_below(alloc, frame, stands, node, access)?;
    let high = with_above(alloc, frame, stands, node)?;
    Ok(Reach { low, high })
}

// The nodes that have a node below them and one, with a load and a store if it needs them.
fn with_below(
    alloc: Global,
    frame: &Frame,
    stands: &[bool],
    node: u32,
    access: bool,
) -> Result<Found, Memory>
    requires frame { IsFrame frame.now.origins.items frame.now.steps frame.now.arcs.items frame.now.back.items }
    ensures { IfOk result (λ found. (w : ℕ) → Contains found w ↔
        HaveBelow frame.now.origins.items (Leads frame.now.arcs.items stands.now true) access node w) }
{
    let mut lower = Found::new(alloc, frame.arcs.len())?;
    lower.insert(node)?;
    spread(&frame.back, stands, true, &mut lower)?;
    let mut found = accessed(alloc, frame, &lower, access)?;
    spread(&frame.arcs, stands, true, &mut found)?;
    Ok(found)
}

// Those of the nodes that have a load and a store, if they need them.
fn accessed(alloc: Global, frame: &Frame, nodes: &Found, access: bool) -> Result<Found, Memory>
    requires frame { IsFrame frame.now.origins.items frame.now.steps frame.now.arcs.items frame.now.back.items }
    ensures { IfOk result (λ found. (w : ℕ) → Contains found w ↔
        (Contains nodes.now w × (access ≡ true → HasAccess frame.now.origins.items w))) }
{
    let mut found = Found::new(alloc, frame.arcs.len())?;
    for node in nodes.numbers() {
        if !access || has_access(frame, *node) {
            found.insert(*node)?;
        }
    }
    Ok(found)
}

// Whether a node has a load and a store.
pub(crate) fn has_access(frame: &Frame, node: u32) -> bool
    requires frame { IsFrame frame.now.origins.items frame.now.steps frame.now.arcs.items frame.now.back.items }
    ensures { IsTrue result ↔ HasAccess frame.now.origins.items node }
{
    frame.step(node, Label::Load).is_some() && frame.step(node, Label::Store).is_some()
}

// The nodes that have a node above them and one.
fn with_above(alloc: Global, frame: &Frame, stands: &[bool], node: u32) -> Result<Found, Memory>
    requires frame { IsFrame frame.now.origins.items frame.now.steps frame.now.arcs.items frame.now.back.items }
    ensures { IfOk result (λ found. (w : ℕ) → Contains found w ↔
        HaveAbove (Leads frame.now.arcs.items stands.now true) node w) }
{
    let mut found = Found::new(alloc, frame.arcs.len())?;
    found.insert(node)?;
    spread(&frame.arcs, stands, true, &mut found)?;
    spread(&frame.back, stands, true, &mut found)?;
    Ok(found)
}

// Whether a node behind a letter of another one has with all others behind letters of nodes of a class what they must have.
fn is_told_with_all(
    frame: &Frame,
    sorts: &Sorts,
    beside: &Beside,
    own: &Reach,
    parents: Option<&Reach>,
    stands: &[bool],
    node: u32,
    parent: u32,
    label: Label,
    class: u32,
) -> bool
    requires frame { IsFrame frame.now.origins.items frame.now.steps frame.now.arcs.items frame.now.back.items }
    requires beside { AreListed frame.now.origins.items sorts.now.classes.items (length sorts.now.classes.items) beside.now }
    requires own { IsReach frame.now.origins.items (Leads frame.now.arcs.items stands.now true)
        (flag_at sorts.now.flips.items node) node own.now }
    requires parents { IfSome parents (λ p.
        IsWhole frame.now.origins.items (Leads frame.now.arcs.items stands.now true) false parent p.now) }
    ensures { result ≡ true → AreToldTo frame.now.origins.items (Leads frame.now.arcs.items stands.now true)
        sorts.now.classes.items sorts.now.flips.items node parent class label (length sorts.now.classes.items) }
{
    for other in beside.nodes(class, label) {
        if !is_told_with(
            frame, sorts, own, parents, stands, node, parent, label, class, *other,
        ) {
            return false;
        }
    }
    true
}

// Whether it has that with one.
fn is_told_with(
    frame: &Frame,
    sorts: &Sorts,
    own: &Reach,
    parents: Option<&Reach>,
    stands: &[bool],
    node: u32,
    parent: u32,
    label: Label,
    class: u32,
    other: u32,
) -> bool
    requires frame { IsFrame frame.now.origins.items frame.now.steps frame.now.arcs.items frame.now.back.items }
    requires own { IsReach frame.now.origins.items (Leads frame.now.arcs.items stands.now true)
        (flag_at sorts.now.flips.items node) node own.now }
    requires parents { IfSome parents (λ p.
        IsWhole frame.now.origins.items (Leads frame.now.arcs.items stands.now true) false parent p.now) }
    ensures { result ≡ true → (q : ℕ) (m : Letter) → IsMade frame.now.origins.items other q m →
        class_at sorts.now.classes.items q ≡ Some class →
        AreTold frame.now.origins.items (Leads frame.now.arcs.items stands.now true) sorts.now.flips.items parent q label m node other }
{
    let Some(Some((above, letter))) = frame.origins.get(other as usize) else {
        return true;
    };
    if sorts.class(*above) != Some(class) {
        return true;
    }
    let pointers = is_pointer(label) && is_pointer(*letter) && sorts.is_flip(parent as usize);
    if label != *letter && !pointers {
        return true;
    }
    if has_both(frame, node, other, sorts.is_flip(node as usize)) {
        return true;
    }
    match parents {
        Some(parents) => !pointers && is_split(own, parents, label, *above, other),
        None => false,
    }
}

// Whether a letter is that of a pointer.
pub(crate) fn is_pointer(label: Label) -> bool
    ensures { IsTrue result ↔ IsPointer label }
{
    match label {
        Label::Load | Label::Store => true,
        Label::In(_) | Label::Out(_) | Label::Field(_, _) => false,
    }
}

// Whether pushed arcs lead from a node to both, which has a load and a store if it needs them, and pushed arcs from both to a
// node.
fn has_both(frame: &Frame, node: u32, other: u32, access: bool) -> bool
    requires frame { IsFrame frame.now.origins.items frame.now.steps frame.now.arcs.items frame.now.back.items }
    ensures { result ≡ true → (stands : List Bool) →
        HaveBoth frame.now.origins.items (Leads frame.now.arcs.items stands true) access node other }
{
    has_hub(frame, &frame.back, node, other, access)
        && has_hub(frame, &frame.arcs, node, other, false)
}

// Whether pushed arcs lead from two nodes to one, which has a load and a store if it needs them.
fn has_hub(frame: &Frame, arcs: &[Sequence<Arc>], node: u32, other: u32, access: bool) -> bool
    requires frame { IsFrame frame.now.origins.items frame.now.steps frame.now.arcs.items frame.now.back.items }
    ensures { result ≡ true → (h : ℕ) × (access ≡ true → HasAccess frame.now.origins.items h) ×
        HasArc arcs.now node h None × HasArc arcs.now other h None }
{
    for arc in leaving(arcs, node) {
        if is_shared(frame, arcs, *arc, other, access) {
            return true;
        }
    }
    false
}

// Whether an arc is pushed, and one leads from another node to the same one, which has a load and a store if it needs them.
fn is_shared(frame: &Frame, arcs: &[Sequence<Arc>], arc: Arc, other: u32, access: bool) -> bool
    requires frame { IsFrame frame.now.origins.items frame.now.steps frame.now.arcs.items frame.now.back.items }
    ensures { result ≡ true → (arc.line ≡ None) × (access ≡ true → HasAccess frame.now.origins.items arc.to) ×
        HasArc arcs.now other arc.to None }
{
    if arc.line.is_some() {
        return false;
    }
    for second in leaving(arcs, other) {
        if second.to == arc.to && second.line.is_none() {
            return !access || has_access(frame, arc.to);
        }
    }
    false
}

// Whether a node has with another one what those have that they are made of, by the sign of a letter.
fn is_split(own: &Reach, parents: &Reach, label: Label, parent: u32, node: u32) -> bool
    ensures { result ≡ true → AreSplitIn (label_variance label) own.now parents.now parent node }
{
    let (below, above) = match label.variance() {
        Variance::Co => (&parents.low, &parents.high),
        Variance::Contra => (&parents.high, &parents.low),
    };
    (!below.contains(parent) || own.low.contains(node))
        && (!above.contains(parent) || own.high.contains(node))
}
