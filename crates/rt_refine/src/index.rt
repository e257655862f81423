// What stands beside existentials, by numbers.
ghost use Rattle.std.specs.Prelude.{◌≡◌, ℕ, ◌+◌, ◌<◌, ◌≤◌, List, [], ◌∷◌, ◌++◌, true, IfOk, MatchOption, OnOk, length};
ghost use Rattle.std.specs.BTreeMap.{get};
ghost use Rattle.std.specs.BTreeSet.{contains};
ghost use Rattle.std.specs.Ordering.{nat_cmp};
ghost use Rattle.rt_lines.specs.declared.line.Line.{Line as TheLine};
ghost use Rattle.rt_polar.specs.Index.{has};
ghost use Rattle.rt_refine.specs.Groups.{class_of};
ghost use Rattle.rt_refine.specs.Ranks.{rank_cmp};
ghost use Rattle.rt_refine.specs.Numbers.{HasNumber, IsIndexOf, IsNumbered, IsUseIndex, numbers_below};

use crate::grouping::Classes;
use crate::ranks::Rank;
use crate::uses::{Side, owner, use_ranks};
use rt_base::Memory;
use rt_lines::Line;
use std::alloc::Global;
use std::collections::{BTreeMap, BTreeSet};

/// Existentials with the numbers of what stands beside them.
pub type Index = BTreeSet<(u32, usize)>;

// The numbers of what stands beside existentials, by ranks.
type Numbers = BTreeMap<Vec<Rank>, usize>;

// The number that the ranks have, or else a fresh one, which they have then.
fn number_of(numbers: &mut Numbers, ranks: Vec<Rank>, fresh: usize) -> Result<usize, Memory>
    ensures { IfOk result (λ number. IsNumbered ranks.items fresh number (HasNumber rank_cmp numbers.old)
        (HasNumber rank_cmp numbers.new)) }
{
    if let Some(number) = numbers.get(&ranks) {
        return Ok(*number);
    }
    numbers.insert(ranks, fresh)?;
    Ok(fresh)
}

// Adds what stands beside the existential on the side of the line, if there is one and it is asked for.
fn note_use(
    alloc: Global,
    numbers: &mut Numbers,
    index: &mut Index,
    classes: &Classes,
    wanted: &BTreeSet<u32>,
    line: &Line,
    side: Side,
    fresh: usize,
) -> Result<(), Memory>
    ensures { OnOk result ((seen : List TheLine) →
        IsIndexOf side seen (class_of (get nat_cmp classes.now)) (contains nat_cmp wanted.now) fresh
        (HasNumber rank_cmp numbers.old) (has index.old) →
        IsIndexOf side (seen ++ line.now ∷ []) (class_of (get nat_cmp classes.now)) (contains nat_cmp wanted.now) (fresh + 1)
        (HasNumber rank_cmp numbers.new) (has index.new)) }
{
    let Some(existential) = owner(line, side) else {
        return Ok(());
    };
    if !wanted.contains(&existential) {
        return Ok(());
    }
    let ranks = use_ranks(alloc, classes, line, side)?;
    let number = number_of(numbers, ranks, fresh)?;
    index.insert((existential, number))?;
    Ok(())
}

/// For each existential that is asked for the numbers of what stands beside it in the lines in which it stands on the side.
/// The error is out of memory.
pub fn use_index(
    alloc: Global,
    lines: &[Line],
    classes: &Classes,
    wanted: &BTreeSet<u32>,
    side: Side,
) -> Result<Index, Memory>
    ensures { IfOk result (λ index. IsUseIndex side lines.now (class_of (get nat_cmp classes.now)) (contains nat_cmp wanted.now)
        (length lines.now) (has index)) }
{
    let mut numbers = BTreeMap::new(alloc);
    let mut index = BTreeSet::new(alloc);
    for (i, line) in lines.iter().enumerate() {
        note_use(
            alloc,
            &mut numbers,
            &mut index,
            classes,
            wanted,
            line,
            side,
            i,
        )?;
    }
    Ok(index)
}

// The least number of the existential from one on.
fn next_at(index: &Index, existential: u32, from: usize) -> Option<usize>
    ensures { MatchOption result ((i : ℕ) → from ≤ i → has index.now existential i ≡ true → ⊥)
        (λ k. (from ≤ k) × (has index.now existential k ≡ true) ×
        ((i : ℕ) → from ≤ i → has index.now existential i ≡ true → k ≤ i)) }
{
    let Some(least) = index.range((existential, from)..).next() else {
        return None;
    };
    let (owner, number) = *least;
    if owner == existential {
        Some(number)
    } else {
        None
    }
}

/// The numbers of the existential, in order. The error is out of memory.
pub fn numbers_at(
    alloc: Global,
    index: &Index,
    existential: u32,
    bound: usize,
) -> Result<Vec<usize>, Memory>
    requires { (k : ℕ) → has index.now existential k ≡ true → k < bound }
    ensures { IfOk result (λ numbers. numbers.items ≡ numbers_below (has index.now existential) bound) }
{
    let mut numbers = Vec::new(alloc);
    let mut from = 0;
    while from < bound {
        let Some(number) = next_at(index, existential, from) else {
            return Ok(numbers);
        };
        numbers.push(number)?;
        from = number + 1;
    }
    Ok(numbers)
}
