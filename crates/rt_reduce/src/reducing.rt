// What comes before rounds, and rounds until nothing is left to do.
ghost use Rattle.std.specs.Prelude.{All, IfOk};
ghost use Rattle.rt_lines.specs.Lines.{HasConstantsBelow};
ghost use Rattle.rt_polar.specs.Tidied.{tidied};
ghost use Rattle.rt_reduction.specs.Emits.{AreOfScheme};
ghost use Rattle.rt_reduction.specs.Rounds.{IsReducedForm, IsRound, Reduces};
ghost use Rattle.rt_reduce.specs.Inside.Handing.{AreNeeded};
ghost use Rattle.rt_reduce.specs.Rounds.{IsStart};

use crate::copying::copies;
use crate::rounds::round_after;
use crate::settling::is_settled;
use rt_base::{Memory, Sequence};
use rt_lines::{Line, Lines, Order};
use rt_polar::tidy;
use rt_simplify::{prepare, split_records};
use std::alloc::Global;

/// The reduced form of the lines: they are prepared, fields of existentials that do nothing but hold fields become existentials
/// of their own, and rounds follow up to the first after which no existential has a candidate, none is a twin, and each has a
/// use and is joined to a procedure or a global. The error is out of memory.
pub fn reduce(alloc: Global, lines: Lines, order: &Order) -> Result<Lines, Memory>
    requires scheme { AreOfScheme lines }
    requires constants { All (HasConstantsBelow order.now.count) lines }
    ensures { IfOk result (λ form. IsReducedForm order.now lines form) }
{
    let start = start(alloc, lines, order)?;
    let form = go_round(alloc, start, order)?;
    Ok(form)
}

// The lines over which rounds begin: prepared, and without fields that could be existentials of their own.
fn start(alloc: Global, lines: Lines, order: &Order) -> Result<Lines, Memory>
    requires scheme { AreOfScheme lines }
    requires constants { All (HasConstantsBelow order.now.count) lines }
    ensures start { IfOk result (λ start. IsStart lines start) }
    ensures scheme { IfOk result (λ start. AreOfScheme start) }
    ensures constants { IfOk result (λ start. All (HasConstantsBelow order.now.count) start) }
{
    let tidied = tidy(alloc, lines)?;
    let ready = prepare(alloc, tidied)?;
    let start = split_records(alloc, ready)?;
    Ok(start)
}

// What is left of the lines, tidied, by rounds until nothing is left to do.
fn go_round(alloc: Global, lines: Lines, order: &Order) -> Result<Lines, Memory>
    requires scheme { AreOfScheme lines }
    requires constants { All (HasConstantsBelow order.now.count) lines }
    ensures { IfOk result (λ form. Reduces order.now form (tidied lines)) }
{
    let mut now = round_after(alloc, lines, &[], order)?;
    while !is_settled(alloc, now.items())? {
        now = next_round(alloc, now.items(), order)?;
    }
    Ok(now)
}

// What is left of lines that a round left by one more.
fn next_round(alloc: Global, lines: &[Line], order: &Order) -> Result<Lines, Memory>
    requires scheme { AreOfScheme lines.now }
    requires constants { All (HasConstantsBelow order.now.count) lines.now }
    requires needed { AreNeeded order.now lines.now }
    ensures round { IfOk result (λ after. IsRound order.now (tidied lines.now) after) }
    ensures scheme { IfOk result (λ after. AreOfScheme after) }
    ensures constants { IfOk result (λ after. All (HasConstantsBelow order.now.count) after) }
    ensures needed { IfOk result (λ after. AreNeeded order.now after) }
{
    let copies = copies(alloc, lines)?;
    let after = round_after(alloc, Sequence::from_vec(copies), lines, order)?;
    Ok(after)
}
