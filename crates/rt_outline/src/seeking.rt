// Searches along pushed arcs for the ends of other searches.
ghost use Rattle.std.specs.Prelude.{◌≡◌, ◌⊎◌, ℕ, [], true, Contains, None, IfOk, OnOk};
ghost use Rattle.rt_components.specs.Groups.{Reaches};
ghost use Rattle.rt_outline.specs.Arcs.{Leads};
ghost use Rattle.rt_outline.specs.Inside.Sweeps.{AreReached};

use crate::arc::Arc;
use crate::found::Found;
use crate::spreading::{NUMBERS, leaving};
use rt_base::{Memory, Sequence};
use std::alloc::{AllocError, Global};

// What ways of pushed arcs lead to from a node and from ends that were added to it, in the order in which it is found, and
// how many ends aren't among these numbers. From those before an index all pushed arcs were followed, or no end is missing.
#[derive(Drop)]
pub(crate) struct Known {
    numbers: Found,
    left: usize,
    missing: usize,
}

impl Known {
    // For so many nodes.
    pub(crate) fn new(alloc: Global, count: usize) -> Result<Known, Memory> {
        let numbers = Found::new(alloc, count)?;
        Ok(Known {
            numbers,
            left: 0,
            missing: 0,
        })
    }
}

// The ends to which no way of pushed arcs leads from a node, without those to which one leads from an earlier of them.
pub(crate) fn missing(
    alloc: Global,
    arcs: &[Sequence<Arc>],
    ends: &Found,
    known: &mut Known,
    node: u32,
) -> Result<Vec<u32>, Memory>
    ensures only { IfOk result (λ fresh. (w : ℕ) → Contains fresh.items w → Contains ends.now w) }
    ensures none { IfOk result (λ fresh. fresh.items ≡ [] →
        (w : ℕ) → Contains ends.now w → Reaches (Leads arcs.now [] true) node w) }
{
    let mut fresh = Vec::new(alloc);
    begin(ends, known, node)?;
    seek(arcs, ends, known)?;
    for end in ends.numbers() {
        ask(arcs, ends, known, &mut fresh, *end)?;
    }
    Ok(fresh)
}

// Makes one node known.
fn begin(ends: &Found, known: &mut Known, node: u32) -> Result<(), Memory>
    ensures { OnOk result ((w : ℕ) → Contains known.new.numbers w → node ≡ w) }
{
    known.numbers.clear();
    known.left = 0;
    known.missing = ends.numbers().len();
    meet(ends, known, node)?;
    Ok(())
}

// Adds an end that isn't known, from which ways of pushed arcs are then followed too.
fn ask(
    arcs: &[Sequence<Arc>],
    ends: &Found,
    known: &mut Known,
    fresh: &mut Vec<u32>,
    end: u32,
) -> Result<(), Memory>
    ensures only { OnOk result ((w : ℕ) → Contains fresh.new.items w → Contains fresh.old.items w ⊎ (end ≡ w)) }
    ensures none { OnOk result (fresh.new.items ≡ [] →
        (fresh.old.items ≡ []) × (known.new.numbers ≡ known.old.numbers) × Contains known.old.numbers end) }
{
    if known.numbers.contains(end) {
        return Ok(());
    }
    fresh.push(end)?;
    meet(ends, known, end)?;
    seek(arcs, ends, known)?;
    Ok(())
}

// Follows pushed arcs from those that are known until no end is missing.
fn seek(arcs: &[Sequence<Arc>], ends: &Found, known: &mut Known) -> Result<(), Memory>
    ensures { OnOk result (AreReached (Leads arcs.now [] true) known.old.numbers known.new.numbers) }
{
    for i in known.left..NUMBERS {
        if known.missing == 0 {
            return Ok(());
        }
        let Some(next) = known.numbers.get(i) else {
            return Ok(());
        };
        pursue(arcs, ends, known, next)?;
        known.left = i + 1;
    }
    Err(AllocError)
}

// Notes what pushed arcs lead to from a node until no end is missing.
fn pursue(arcs: &[Sequence<Arc>], ends: &Found, known: &mut Known, from: u32) -> Result<(), Memory>
    ensures { OnOk result ((w : ℕ) → Contains known.new.numbers w →
        Contains known.old.numbers w ⊎ Leads arcs.now [] true from w) }
{
    for arc in leaving(arcs, from) {
        if known.missing == 0 {
            return Ok(());
        }
        follow(ends, known, *arc)?;
    }
    Ok(())
}

// Notes what an arc leads to, if it is pushed.
fn follow(ends: &Found, known: &mut Known, arc: Arc) -> Result<(), Memory>
    ensures { OnOk result ((w : ℕ) → Contains known.new.numbers w →
        Contains known.old.numbers w ⊎ ((arc.to ≡ w) × (arc.line ≡ None))) }
{
    match arc.line {
        Some(_) => Ok(()),
        None => {
            meet(ends, known, arc.to)?;
            Ok(())
        }
    }
}

// Notes a number, which may be an end.
fn meet(ends: &Found, known: &mut Known, number: u32) -> Result<(), Memory>
    ensures { OnOk result ((w : ℕ) → Contains known.new.numbers w → Contains known.old.numbers w ⊎ (number ≡ w)) }
{
    known.missing = still_missing(ends, known, number);
    known.numbers.insert(number)?;
    Ok(())
}

// How many ends are missing once a number is known.
fn still_missing(ends: &Found, known: &Known, number: u32) -> usize {
    if ends.contains(number) && !known.numbers.contains(number) {
        return known.missing.saturating_sub(1);
    }
    known.missing
}
