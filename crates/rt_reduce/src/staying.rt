// Lines that stay, however many of the others go.
ghost use Rattle.std.specs.Prelude.{◌≡◌, ◌<◌, ℕ, List, Bool, All, IfOk, IfSome, OnOk, false, true, length, replicate, slice_index_or};
ghost use Rattle.rt_lines.specs.Lines.{HasConstantsBelow};
ghost use Rattle.rt_outline.specs.Lines.{standing};
ghost use Rattle.rt_reduce.specs.Inside.Deciding.{IsOuterOf, IsOwnOuter};
ghost use Rattle.rt_reduce.specs.Inside.Dropping.{AreFated, AreStaying, IsSettled, IsStaying};
ghost use Rattle.rt_sure.specs.Fates.{fate_at};
ghost use Rattle.rt_sure.specs.declared.fate.Fate.TheVariants.{Stays};

use crate::deciding::told_by;
use rt_base::Memory;
use rt_lines::{Line, Order};
use rt_outline::{Led, Upper};
use rt_sure::{Fate, Ways};
use std::alloc::Global;

// For each of the lines whether it stays, as far as it is known, or arcs from outside of them say, if there are such: whether the
// others, however many of them stand, don't derive it.
pub(crate) fn staying(
    alloc: Global,
    outer: Option<&Upper>,
    lines: &[Line],
    known: &[bool],
    order: &Order,
) -> Result<Vec<bool>, Memory>
    requires outer { IfSome outer (λ t. IsOuterOf lines.now t.now) }
    requires long { length known.now ≡ length lines.now }
    requires known { AreStaying order.now lines.now known.now }
    requires constants { All (HasConstantsBelow order.now.count) lines.now }
    ensures each { IfOk result (λ stays. length stays.items ≡ length lines.now) }
    ensures staying { IfOk result (λ stays. AreStaying order.now lines.now stays.items) }
{
    let Some(outer) = outer else {
        let known = known.to_vec(alloc)?;
        return Ok(known);
    };
    let mut stands = vec![in alloc; true; lines.len()]?;
    let mut stays = Vec::with_capacity(alloc, lines.len())?;
    for i in 0..lines.len() {
        let yes = known[i] || is_staying(alloc, outer, lines, &mut stands, order, i)?;
        stays.push(yes)?;
    }
    Ok(stays)
}

// Whether the line at the index stays, where all flags are set but the one that is cleared meanwhile.
fn is_staying(
    alloc: Global,
    outer: &Upper,
    lines: &[Line],
    stands: &mut Vec<bool>,
    order: &Order,
    i: usize,
) -> Result<bool, Memory>
    requires within { i < length lines.now }
    requires outer { IsOuterOf lines.now outer.now }
    requires flags { stands.old.items ≡ replicate (length lines.now) true }
    requires constants { All (HasConstantsBelow order.now.count) lines.now }
    ensures same { OnOk result (stands.new.items ≡ stands.old.items) }
    ensures staying { IfOk result (λ yes. yes ≡ true → IsStaying order.now lines.now i) }
{
    stands[i] = false;
    let led = told_by(alloc, outer, stands, order, &lines[i])?;
    stands[i] = true;
    match led {
        Led::No => Ok(true),
        Led::Yes | Led::Open => Ok(false),
    }
}

// What becomes of the lines, where ways of them say which others stay of those of which nothing is known.
pub(crate) fn staying_beside(
    alloc: Global,
    ways: &Ways,
    lines: &[Line],
    fates: &[Fate],
    order: &Order,
) -> Result<Vec<Fate>, Memory>
    requires own { IsOwnOuter lines.now ways.now }
    requires each { length fates.now ≡ length lines.now }
    requires fated { AreFated order.now lines.now (replicate (length lines.now) true) fates.now }
    ensures fated { IfOk result (λ now. AreFated order.now lines.now (replicate (length lines.now) true) now.items) }
    ensures kept { IfOk result (λ now. (i : ℕ) → fate_at fates.now i ≡ Stays → fate_at now.items i ≡ Stays) }
{
    let mut stands = vec![in alloc; true; lines.len()]?;
    let mut now = Vec::with_capacity(alloc, fates.len())?;
    for i in 0..fates.len() {
        let fate = fate_beside(alloc, ways, lines, &mut stands, order, i, fates[i])?;
        now.push(fate)?;
    }
    Ok(now)
}

// What becomes of the line at the index, where ways may say that it stays if nothing is known of it, and all flags are set but the
// one that is cleared meanwhile.
fn fate_beside(
    alloc: Global,
    ways: &Ways,
    lines: &[Line],
    stands: &mut Vec<bool>,
    order: &Order,
    i: usize,
    fate: Fate,
) -> Result<Fate, Memory>
    requires within { i < length lines.now }
    requires own { IsOwnOuter lines.now ways.now }
    requires flags { stands.old.items ≡ replicate (length lines.now) true }
    ensures same { OnOk result (stands.new.items ≡ stands.old.items) }
    ensures fate { IfOk result (IsSettled order.now lines.now i fate) }
{
    if fate != Fate::Open {
        return Ok(fate);
    }
    let Line::Sub(x, y) = &lines[i] else {
        return Ok(fate);
    };
    stands[i] = false;
    let yes = ways.may_lie_below(alloc, stands, x, y)?;
    stands[i] = true;
    if yes { Ok(Fate::Open) } else { Ok(Fate::Stays) }
}
