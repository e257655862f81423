// Classes by shape, and classes split by the lines of their members.
ghost use Rattle.std.specs.Prelude.{◌≡◌, ◌≢◌, ◌||◌, ℕ, ◌<◌, ◌⊎◌, ◌++◌, ◌∷◌, [], true, false, length, IfOk};
ghost use Rattle.std.specs.BTreeMap.{get};
ghost use Rattle.std.specs.BTreeSet.{contains};
ghost use Rattle.std.specs.Ordering.{nat_cmp};
ghost use Rattle.rt_polar.specs.Index.{has};
ghost use Rattle.rt_rules.specs.Put.{exist};
ghost use Rattle.rt_shape.specs.Graphs.{node_of};
ghost use Rattle.rt_shape.specs.Shapes.{IsShapeOf};
ghost use Rattle.rt_refine.specs.Groups.{AreListed, class_of, IsGrouped, node_key};
ghost use Rattle.rt_refine.specs.Numbers.{use_key};
ghost use Rattle.rt_refine.specs.Splits.{AreClasses, IsSplit};

use crate::grouping::{Classes, class_of, follow};
use crate::index::{Index, numbers_at, use_index};
use crate::listing::existentials;
use crate::sharing::{are_moved, sharing};
use crate::uses::Side;
use rt_base::Memory;
use rt_lines::{Base, Dtv, Line, Word};
use rt_shape::Shape;
use std::alloc::Global;
use std::collections::{BTreeMap, BTreeSet};

// What the existentials of one shape share: their node.
fn node_key(alloc: Global, shape: &Shape, existential: u32) -> Result<Vec<usize>, Memory>
    ensures { IfOk result (λ key. key.items ≡ node_key (node_of shape.now (exist existential)) existential) }
{
    let variable = Dtv {
        base: Base::Exist(existential),
        word: Word::empty(alloc),
    };
    match shape.node(&variable) {
        Some(node) => Ok(vec![in alloc; node as usize]?),
        None => Ok(vec![in alloc; 0, existential as usize]?),
    }
}

// Classes of the existentials that have one node in the shape of the lines.
fn node_classes(alloc: Global, lines: &[Line], shape: &Shape) -> Result<Classes, Memory>
    requires { IsShapeOf lines.now shape.now }
    ensures { IfOk result (λ classes. AreClasses lines.now (class_of (get nat_cmp classes))) }
{
    let mut pending = existentials(alloc, lines)?;
    let mut leaders = BTreeMap::new(alloc);
    let mut classes = BTreeMap::new(alloc);
    while let Some(existential) = pending.pop_first() {
        let key = node_key(alloc, shape, existential)?;
        follow(&mut leaders, &mut classes, key, existential)?;
    }
    Ok(classes)
}

/// Classes of the existentials of one shape. The error is out of memory.
pub fn shape_classes(alloc: Global, lines: &[Line]) -> Result<Classes, Memory>
    ensures { IfOk result (λ classes. AreClasses lines.now (class_of (get nat_cmp classes))) }
{
    let shape = rt_shape::of(alloc, lines)?;
    node_classes(alloc, lines, &shape)
}

// What the members of one class share that have the same on the one side: its numbers, and the class. One that is alone in
// its class needs no numbers.
fn use_key(
    alloc: Global,
    index: &Index,
    classes: &Classes,
    existential: u32,
    bound: usize,
) -> Result<Vec<usize>, Memory>
    requires { (k : ℕ) → has index.now existential k ≡ true → k < bound }
    ensures { IfOk result (λ key. key.items ≡ use_key (class_of (get nat_cmp classes.now)) bound (has index.now) existential) }
{
    let mut key = numbers_at(alloc, index, existential, bound)?;
    key.push(class_of(classes, existential) as usize)?;
    Ok(key)
}

// Whether one of the two is true.
pub(crate) fn either(left: bool, right: bool) -> bool
    ensures { result ≡ (left || right) }
{
    left || right
}

// Whether there was a change, or these two are apart.
fn is_changed(changed: bool, leader: u32, class: u32) -> bool
    ensures stays { result ≡ false → (changed ≡ false) × (leader ≡ class) }
    ensures differs { result ≡ true → (changed ≡ true) ⊎ (leader ≢ class) }
{
    changed || leader != class
}

// Classes of some existentials by their numbers and the classes that they had, and whether that gives one another class.
fn regrouped(
    alloc: Global,
    index: &Index,
    classes: &Classes,
    shared: BTreeSet<u32>,
    bound: usize,
) -> Result<(Classes, bool), Memory>
    requires { (n k : ℕ) → has index.now n k ≡ true → k < bound }
    ensures grouped { IfOk result (λ r. IsGrouped (use_key (class_of (get nat_cmp classes.now)) bound (has index.now))
        (λ n. contains nat_cmp shared n ≡ true) (class_of (get nat_cmp r.0))) }
    ensures stays { IfOk result (λ r. r.1 ≡ false → (n : ℕ) →
        (class_of (get nat_cmp r.0) n ≡ class_of (get nat_cmp classes.now) n) ⊎ (contains nat_cmp shared n ≡ true → ⊥)) }
    ensures differs { IfOk result (λ r. r.1 ≡ true → (n : ℕ) × (contains nat_cmp shared n ≡ true) ×
        (class_of (get nat_cmp r.0) n ≢ class_of (get nat_cmp classes.now) n)) }
{
    let mut pending = shared;
    let mut leaders = BTreeMap::new(alloc);
    let mut parts = BTreeMap::new(alloc);
    let mut changed = false;
    while let Some(existential) = pending.pop_first() {
        let key = use_key(alloc, index, classes, existential, bound)?;
        let leader = follow(&mut leaders, &mut parts, key, existential)?;
        changed = is_changed(changed, leader, class_of(classes, existential));
    }
    Ok((parts, changed))
}

/// The classes split by what stands beside their members on the side, by the classes of `moves`, and whether that gives
/// other classes. Members are the existentials that the lines name, which are given. The error is out of memory.
pub fn split(
    alloc: Global,
    lines: &[Line],
    named: &[u32],
    moves: &Classes,
    classes: &Classes,
    side: Side,
) -> Result<(Classes, bool), Memory>
    requires { AreListed lines.now named.now }
    ensures { IfOk result (λ r. IsSplit side lines.now (class_of (get nat_cmp moves.now)) (class_of (get nat_cmp classes.now))
        (class_of (get nat_cmp r.0)) r.1) }
{
    let shared = sharing(alloc, classes, named)?;
    let index = use_index(alloc, lines, moves, &shared, side)?;
    let moved = are_moved(classes, named, &shared);
    let (parts, changed) = regrouped(alloc, &index, classes, shared, lines.len())?;
    Ok((parts, either(moved, changed)))
}
