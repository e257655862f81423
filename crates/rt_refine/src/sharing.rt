// Existentials that share their class with another one. One that is alone in its class can't be split from another.
ghost use Rattle.std.specs.Prelude.{◌≡◌, ◌≢◌, ℕ, ◌⊎◌, ◌++◌, ◌∷◌, [], List, Contains, MatchBool, true, false, IfOk, OnOk};
ghost use Rattle.std.specs.BTreeMap.{get};
ghost use Rattle.std.specs.BTreeSet.{contains};
ghost use Rattle.std.specs.Ordering.{nat_cmp};
ghost use Rattle.rt_refine.specs.Groups.{AreMet, AreShared, class_of};

use crate::grouping::{Classes, class_of};
use rt_base::Memory;
use std::alloc::Global;
use std::collections::{BTreeMap, BTreeSet};

// Notes an existential with the first one of its class, or as the first one.
fn note_class(
    firsts: &mut BTreeMap<u32, u32>,
    shared: &mut BTreeSet<u32>,
    class: u32,
    existential: u32,
) -> Result<(), Memory>
    ensures { OnOk result ((place : ℕ → ℕ) (met : List ℕ) → place existential ≡ class →
        AreMet place met (get nat_cmp firsts.old) (contains nat_cmp shared.old) →
        AreMet place (met ++ existential ∷ []) (get nat_cmp firsts.new) (contains nat_cmp shared.new)) }
{
    if let Some(first) = firsts.get(&class) {
        shared.insert(*first)?;
        shared.insert(existential)?;
        return Ok(());
    }
    firsts.insert(class, existential)?;
    Ok(())
}

/// Some of the existentials that are given, no two of which are equal: among them each that shares its class with another of them.
/// The error is out of memory.
pub(crate) fn sharing(
    alloc: Global,
    classes: &Classes,
    named: &[u32],
) -> Result<BTreeSet<u32>, Memory>
    ensures { IfOk result (λ shared. AreShared (Contains named.now) (class_of (get nat_cmp classes.now)) (contains nat_cmp shared)) }
{
    let mut firsts = BTreeMap::new(alloc);
    let mut shared = BTreeSet::new(alloc);
    for existential in named {
        note_class(
            &mut firsts,
            &mut shared,
            class_of(classes, *existential),
            *existential,
        )?;
    }
    Ok(shared)
}

// Whether an existential isn't one of those that share, and isn't the least of its class.
fn is_moved(classes: &Classes, shared: &BTreeSet<u32>, existential: u32) -> bool
    ensures { MatchBool result
        ((contains nat_cmp shared.now existential ≡ false) × (class_of (get nat_cmp classes.now) existential ≢ existential))
        ((contains nat_cmp shared.now existential ≡ true) ⊎ (class_of (get nat_cmp classes.now) existential ≡ existential)) }
{
    !shared.contains(&existential) && class_of(classes, existential) != existential
}

/// Whether one of some existentials isn't one of those that share, and isn't the least of its class.
pub(crate) fn are_moved(classes: &Classes, named: &[u32], shared: &BTreeSet<u32>) -> bool
    ensures stay { result ≡ false → (n : ℕ) → Contains named.now n →
        (contains nat_cmp shared.now n ≡ true) ⊎ (class_of (get nat_cmp classes.now) n ≡ n) }
    ensures moved { result ≡ true → (n : ℕ) × Contains named.now n × (contains nat_cmp shared.now n ≡ false) ×
        (class_of (get nat_cmp classes.now) n ≢ n) }
{
    for existential in named {
        if is_moved(classes, shared, *existential) {
            return true;
        }
    }
    false
}
