// Classes of nodes of which nothing is left to be made one.
ghost use Rattle.std.specs.Prelude.{◌≡◌, ℕ, ◌<◌, length, map, Contains, slice_index, Some, IfOk, IfSome, IfNone, MatchOption};
ghost use Rattle.rt_shape.specs.Inside.Classes.{AreApart, AreClasses, AreStepsOne, IsClosed, IsViolated, pointed, renamed_class};

use crate::tree::Tree;
use rt_base::Memory;
use rt_lines::Label;
use std::alloc::Global;
use std::collections::HashMap;

/// The label, but that a store counts as a load.
pub fn pointed(label: Label) -> Label
    ensures { result ≡ pointed label }
{
    match label {
        Label::Store => Label::Load,
        other => other,
    }
}

/// For each of so many nodes a class of its own. The error is out of memory.
pub fn own_classes(alloc: Global, count: u32) -> Result<Vec<u32>, Memory>
    ensures each { IfOk result (λ class. length class.items ≡ count) }
    ensures own { IfOk result (λ class. (i : ℕ) → i < count → slice_index class.items i ≡ i) }
{
    let mut class = Vec::with_capacity(alloc, count as usize)?;
    for node in 0..count {
        class.push(node)?;
    }
    Ok(class)
}

/// Classes of which nothing is left to be made one: while two nodes have to be one and are in two classes, one class is
/// renamed into the other. Each look for such nodes takes time linear in the tree. The error is out of memory.
pub fn closed(
    alloc: Global,
    tree: &Tree,
    pairs: &[(u32, u32)],
    mut class: Vec<u32>,
) -> Result<Vec<u32>, Memory>
    requires classes { AreClasses tree.now pairs.now class.items }
    requires pairs_in { (i j : ℕ) → Contains pairs.now (i, j) → (i < tree.now.count) × (j < tree.now.count) }
    ensures classes { IfOk result (λ class. AreClasses tree.now pairs.now class.items) }
    ensures closed { IfOk result (λ class. IsClosed tree.now pairs.now class.items) }
{
    while let Some((i, j)) = violation(alloc, tree, pairs, &class)? {
        rename(&mut class, i, j);
    }
    Ok(class)
}

// Two nodes that have to be one and are in two classes, if there are any.
fn violation(
    alloc: Global,
    tree: &Tree,
    pairs: &[(u32, u32)],
    class: &[u32],
) -> Result<Option<(u32, u32)>, Memory>
    requires classes { AreClasses tree.now pairs.now class.now }
    requires pairs_in { (i j : ℕ) → Contains pairs.now (i, j) → (i < tree.now.count) × (j < tree.now.count) }
    ensures { IfOk result (λ found. MatchOption found (IsClosed tree.now pairs.now class.now)
        (λ pair. IsViolated tree.now pairs.now class.now pair.0 pair.1)) }
{
    if let Some(pair) = pair_apart(pairs, class) {
        return Ok(Some(pair));
    }
    steps_apart(alloc, tree, class)
}

// A pair in two classes, if there is one.
fn pair_apart(pairs: &[(u32, u32)], class: &[u32]) -> Option<(u32, u32)>
    requires { (i j : ℕ) → Contains pairs.now (i, j) → (i < length class.now) × (j < length class.now) }
    ensures some { IfSome result
        (λ pair. Contains pairs.now pair × (slice_index class.now pair.0 ≡ slice_index class.now pair.1 → ⊥)) }
    ensures none { IfNone result ((i j : ℕ) → Contains pairs.now (i, j) → slice_index class.now i ≡ slice_index class.now j) }
{
    for (i, j) in pairs {
        if class[*i as usize] != class[*j as usize] {
            return Some((*i, *j));
        }
    }
    None
}

// Two nodes in two classes to which one label leads from one class, or a load and a store, if there are any.
fn steps_apart(alloc: Global, tree: &Tree, class: &[u32]) -> Result<Option<(u32, u32)>, Memory>
    requires { length class.now ≡ tree.now.count }
    ensures { IfOk result (λ found. MatchOption found (AreStepsOne tree.now class.now)
        (λ pair. AreApart tree.now class.now pair.0 pair.1)) }
{
    let mut first: HashMap<(u32, Label), u32> = HashMap::new(alloc);
    for i in 0..tree.edge_count() {
        let (from, label, to) = tree.edge(i);
        let letter = (class[from as usize], pointed(label));
        match first.get(&letter) {
            Some(other) => {
                if class[*other as usize] != class[to as usize] {
                    return Ok(Some((*other, to)));
                }
            }
            None => {
                first.insert(letter, to)?;
            }
        }
    }
    Ok(None)
}

// Renames the greater of two nodes' classes into the lesser.
fn rename(class: &mut [u32], i: u32, j: u32)
    requires first { i < length class.old }
    requires second { j < length class.old }
    ensures { class.new ≡ map (renamed_class (slice_index class.old i) (slice_index class.old j)) class.old }
{
    let lesser = class[i as usize].min(class[j as usize]);
    let greater = class[i as usize].max(class[j as usize]);
    for c in class.iter_mut() {
        if *c == greater {
            *c = lesser;
        }
    }
}
