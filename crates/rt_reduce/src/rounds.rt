// Rounds of the steps.
ghost use Rattle.std.specs.Prelude.{All, IfOk, IfSome};
ghost use Rattle.rt_lines.specs.Lines.{HasConstantsBelow};
ghost use Rattle.rt_polar.specs.Tidied.{tidied};
ghost use Rattle.rt_reduction.specs.Emits.{AreOfScheme};
ghost use Rattle.rt_reduction.specs.Rounds.{IsRound};
ghost use Rattle.rt_reduce.specs.Inside.Deciding.{IsOuterOf, IsOwnOuter};
ghost use Rattle.rt_reduce.specs.Inside.Handing.{AreNeeded};
ghost use Rattle.rt_reduce.specs.Inside.Rounding.{IsLeftOf, IsWritten};
ghost use Rattle.rt_reduce.specs.Rounds.{IsBegun};

use crate::dropping::drop_known;
use crate::merging::{Leftover, merge_equal};
use rt_base::Memory;
use rt_emit::emit_shape;
use rt_lines::{Line, Lines, Order};
use rt_outline::Upper;
use rt_polar::tidy;
use rt_simplify::prepare;
use std::alloc::Global;

/// One round over the tidied lines: existentials that are used alike become the least of them, existentials give their
/// places away and twins become one, idle existentials keep no more than their shape, the shape is written anew, existentials
/// that equal a side give their places to it, and each line goes that the others derive. The error is out of memory.
pub fn round(alloc: Global, lines: Lines, order: &Order) -> Result<Lines, Memory>
    requires scheme { AreOfScheme lines }
    requires constants { All (HasConstantsBelow order.now.count) lines }
    ensures round { IfOk result (λ after. IsRound order.now (tidied lines) after) }
    ensures begun { IfOk result (IsBegun (tidied lines)) }
    ensures scheme { IfOk result (λ after. AreOfScheme after) }
    ensures constants { IfOk result (λ after. All (HasConstantsBelow order.now.count) after) }
{
    round_after(alloc, lines, &[], order)
}

// The same, where lines that stood before are given, of which none follows from the others.
pub(crate) fn round_after(
    alloc: Global,
    lines: Lines,
    before: &[Line],
    order: &Order,
) -> Result<Lines, Memory>
    requires scheme { AreOfScheme lines }
    requires constants { All (HasConstantsBelow order.now.count) lines }
    requires needed { AreNeeded order.now before.now }
    requires below { All (HasConstantsBelow order.now.count) before.now }
    ensures round { IfOk result (λ after. IsRound order.now (tidied lines) after) }
    ensures begun { IfOk result (IsBegun (tidied lines)) }
    ensures scheme { IfOk result (λ after. AreOfScheme after) }
    ensures constants { IfOk result (λ after. All (HasConstantsBelow order.now.count) after) }
    ensures needed { IfOk result (λ after. AreNeeded order.now after) }
{
    let written = written(alloc, lines)?;
    let after = left_of(alloc, written.items(), before, order)?;
    Ok(after)
}

// The lines, tidied and prepared, with their shape written anew.
fn written(alloc: Global, lines: Lines) -> Result<Lines, Memory>
    requires { AreOfScheme lines }
    ensures { IfOk result (IsWritten (tidied lines)) }
{
    let start = tidy(alloc, lines)?;
    let simple = prepare(alloc, start)?;
    let written = emit_shape(alloc, simple.items())?;
    Ok(written)
}

// What is left when existentials that equal a side give their places to it, and then each line goes that the others derive.
fn left_of(alloc: Global, lines: &[Line], before: &[Line], order: &Order) -> Result<Lines, Memory>
    requires constants { All (HasConstantsBelow order.now.count) lines.now }
    requires needed { AreNeeded order.now before.now }
    requires below { All (HasConstantsBelow order.now.count) before.now }
    ensures { IfOk result (IsLeftOf order.now lines.now) }
{
    let outer = Upper::of(alloc, lines, &[])?;
    let equal = merge_equal(alloc, lines, &outer, order)?;
    let Leftover {
        lines: merged,
        mut table,
    } = equal;
    let left = merged.items();
    let outer = if_same(outer, lines, left);
    let after = drop_known(alloc, left, before, outer, &mut table, order)?;
    Ok(after)
}

// Arcs from outside of lines, if other lines are the same.
fn if_same(outer: Upper, lines: &[Line], others: &[Line]) -> Option<Upper>
    requires { IsOwnOuter lines.now outer }
    ensures { IfSome result (IsOuterOf others.now) }
{
    if lines == others { Some(outer) } else { None }
}
