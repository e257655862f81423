// Arcs with all that is pushed from their ways.
ghost use Rattle.std.specs.Prelude.{◌≡◌, ◌↔◌, ℕ, ◌<◌, ◌≤◌, [], Contains, IsTrue, Some, IfOk, OnOk, length, slice_index_or};
ghost use Rattle.rt_ways.specs.Arcs.{AreMore, AreWithin, IsAdded, IsInRow};
ghost use Rattle.rt_ways.specs.Pushes.{AreClosure, AreDistinct, AreSteps, IsClosed, IsClosedAt};
ghost use Rattle.rt_ways.specs.Pushes.{IsGrown, IsNoted, IsPair, IsPushed, step_of};

use crate::spreading::rows_of;
use indexmap::IndexMap;
use rt_base::{Memory, Sequence};
use rt_lines::{Label, Variance};
use rt_named::{Named, Numbers, Origin};
use std::alloc::{AllocError, Global};

// More passes than can be made.
const PASSES: u64 = 0xff_ffff_ffff;

// The rows of the arcs with all that is pushed from their ways. A pass adds few arcs of a number, those to the nearest ends
// first, and the next pass twice as many: where pushes add up to others, these are seldom added.
pub(crate) fn close(
    alloc: Global,
    named: &Named,
    steps: &IndexMap<(u32, Label), u32>,
    mut arcs: Vec<Sequence<u32>>,
) -> Result<Vec<Numbers>, Memory>
    requires few { length named.now < 4294967296 }
    requires distinct { AreDistinct named.now }
    requires steps { AreSteps named.now steps.now.entries }
    requires each { length arcs.items ≡ length named.now }
    requires within { AreWithin arcs.items }
    ensures { IfOk result (λ rows. AreClosure named.now (IsInRow arcs.items) rows.items) }
{
    let mut limit: usize = 1;
    for _ in 0..PASSES {
        let rows = rows_of(alloc, &arcs)?;
        let fresh = missing(alloc, named, steps, &rows, limit)?;
        if fresh.is_empty() {
            return Ok(rows);
        }
        enter(&mut arcs, &fresh)?;
        limit = limit.saturating_mul(2);
    }
    Err(AllocError)
}

// Adds arcs.
fn enter(arcs: &mut Vec<Sequence<u32>>, fresh: &[(u32, u32)]) -> Result<(), Memory>
    requires { (v w : ℕ) → Contains fresh.now (v, w) → v < length arcs.old.items }
    ensures { OnOk result (AreMore (λ v w. Contains fresh.now (v, w)) arcs.old.items arcs.new.items) }
{
    for pair in fresh {
        add(arcs, pair.0, pair.1)?;
    }
    Ok(())
}

// Adds an arc.
pub(crate) fn add(arcs: &mut Vec<Sequence<u32>>, from: u32, to: u32) -> Result<(), Memory>
    requires { from < length arcs.old.items }
    ensures { OnOk result (IsAdded from to arcs.old.items arcs.new.items) }
{
    arcs[from as usize].push(to)?;
    Ok(())
}

// Pairs that are pushed and not yet in the rows, but no more of a number than the limit wants.
fn missing(
    alloc: Global,
    named: &Named,
    steps: &IndexMap<(u32, Label), u32>,
    rows: &[Numbers],
    limit: usize,
) -> Result<Vec<(u32, u32)>, Memory>
    requires distinct { AreDistinct named.now }
    requires steps { AreSteps named.now steps.now.entries }
    requires limit { 0 < limit }
    ensures pushed { IfOk result (λ fresh. (v w : ℕ) → Contains fresh.items (v, w) → IsPushed named.now (IsInRow rows.now) v w) }
    ensures done { IfOk result (λ fresh. fresh.items ≡ [] → IsClosed named.now (IsInRow rows.now)) }
{
    let mut fresh = Vec::new(alloc);
    for number in 0..named.len() {
        note_number(named, steps, rows, &mut fresh, number as u32, limit)?;
    }
    Ok(fresh)
}

// Notes pairs of a number, until there are as many as the limit wants.
fn note_number(
    named: &Named,
    steps: &IndexMap<(u32, Label), u32>,
    rows: &[Numbers],
    fresh: &mut Vec<(u32, u32)>,
    number: u32,
    limit: usize,
) -> Result<(), Memory>
    requires distinct { AreDistinct named.now }
    requires steps { AreSteps named.now steps.now.entries }
    requires number { number < length named.now }
    requires limit { 0 < limit }
    ensures grown { OnOk result (IsGrown (IsPushed named.now (IsInRow rows.now)) fresh.old.items fresh.new.items) }
    ensures done { OnOk result (fresh.new.items ≡ [] → IsClosedAt named.now (IsInRow rows.now) number) }
{
    match named.origin(number) {
        Origin::Bare(_) => Ok(()),
        Origin::Longer(parent, label) => {
            note_all(steps, rows, fresh, number, parent, label, limit)?;
            Ok(())
        }
    }
}

// Notes pairs of a number and those behind a letter of what is in the row of another one, the first ones, until there are as
// many as the limit wants.
fn note_all(
    steps: &IndexMap<(u32, Label), u32>,
    rows: &[Numbers],
    fresh: &mut Vec<(u32, u32)>,
    number: u32,
    parent: u32,
    label: Label,
    limit: usize,
) -> Result<(), Memory>
    requires { 0 < limit }
    ensures grown { OnOk result (IsGrown (λ v w. (q : ℕ) × (m : ℕ) × IsInRow rows.now parent q ×
        (step_of steps.now.entries q label ≡ Some m) × IsPair label number m v w) fresh.old.items fresh.new.items) }
    ensures done { OnOk result (fresh.new.items ≡ [] → (q : ℕ) → IsInRow rows.now parent q →
        IsNoted steps.now.entries rows.now label number q) }
{
    let most = fresh.len().saturating_add(limit);
    for other in row(rows, parent) {
        if has_enough(fresh, most) {
            return Ok(());
        }
        note(steps, rows, fresh, number, *other, label)?;
    }
    Ok(())
}

// The row of a number.
pub(crate) fn row(rows: &[Numbers], number: u32) -> &[u32]
    ensures { result.now ≡ slice_index_or rows.now number [] }
{
    match rows.get(number as usize) {
        Some(row) => row.items(),
        None => &[],
    }
}

// Notes the pair of a number and the one behind a letter of another, if there is that, unless it is in the rows.
fn note(
    steps: &IndexMap<(u32, Label), u32>,
    rows: &[Numbers],
    fresh: &mut Vec<(u32, u32)>,
    number: u32,
    other: u32,
    label: Label,
) -> Result<(), Memory>
    ensures grown { OnOk result (IsGrown (λ v w. (m : ℕ) × (step_of steps.now.entries other label ≡ Some m) ×
        IsPair label number m v w) fresh.old.items fresh.new.items) }
    ensures done { OnOk result (fresh.new.items ≡ [] → IsNoted steps.now.entries rows.now label number other) }
{
    match step(steps, other, label) {
        Some(target) => {
            let pair = pair(label, number, target);
            if !is_in_row(rows, pair.0, pair.1) {
                fresh.push(pair)?;
            }
            Ok(())
        }
        None => Ok(()),
    }
}

// The number with a letter more.
pub(crate) fn step(steps: &IndexMap<(u32, Label), u32>, number: u32, label: Label) -> Option<u32>
    ensures { result ≡ step_of steps.now.entries number label }
{
    steps.get(&(number, label)).copied()
}

// Two numbers, the other way round for a letter that is contravariant.
fn pair(label: Label, number: u32, target: u32) -> (u32, u32)
    ensures { IsPair label number target result.0 result.1 }
{
    match label.variance() {
        Variance::Co => (number, target),
        Variance::Contra => (target, number),
    }
}

// Whether the second number is in the row of the first.
fn is_in_row(rows: &[Numbers], number: u32, other: u32) -> bool
    ensures { IsTrue result ↔ IsInRow rows.now number other }
{
    match rows.get(number as usize) {
        Some(row) => row.has(other),
        None => false,
    }
}

// Whether there are so many pairs.
fn has_enough(pairs: &[(u32, u32)], most: usize) -> bool
    ensures { IsTrue result → most ≤ length pairs.now }
{
    pairs.len() >= most
}
