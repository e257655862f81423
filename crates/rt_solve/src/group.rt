// The schemes of one group.
ghost use Rattle.std.specs.Prelude.{◌≡◌, ◌++◌, All, IfOk, OnErr, OnOk};
ghost use Rattle.rt_lines.specs.Lines.{HasConstantsBelow};
ghost use Rattle.rt_scheme.specs.Splitting.{AreInterfaceLines};
ghost use Rattle.rt_settle.specs.Groups.{AreSchemesOf, joined};
ghost use Rattle.rt_table.specs.Bodies.{lists_in, numbers_in};
ghost use Rattle.rt_solve.specs.Steps.{RoseBy};

use crate::steps::Steps;
use rt_base::{Memory, Sequence};
use rt_lines::{Line, Lines, Order};
use rt_settle::{GroupSchemes, schemes_of};
use rt_table::Bodies;
use std::alloc::Global;

// Adds copies of lines.
fn push_lines(all: &mut Vec<Line>, lines: &[Line]) -> Result<(), Memory>
    ensures { OnOk result (all.new.items ≡ all.old.items ++ lines.now) }
{
    for line in lines {
        all.push(line.copy()?)?;
    }
    Ok(())
}

// The lines of all lists.
fn join(alloc: Global, bodies: &[(u32, Lines)]) -> Result<Lines, Memory>
    ensures { IfOk result (λ all. all ≡ joined (lists_in bodies.now)) }
{
    let mut all = Vec::new(alloc);
    for (_, lines) in bodies {
        push_lines(&mut all, lines.items())?;
    }
    Ok(Sequence::from_vec(all))
}

// The procedures' numbers.
fn members_of(alloc: Global, bodies: &[(u32, Lines)]) -> Result<Vec<u32>, Memory>
    ensures { IfOk result (λ members. members.items ≡ numbers_in bodies.now) }
{
    let mut members = Vec::with_capacity(alloc, bodies.len())?;
    for (number, _) in bodies {
        members.push(*number)?;
    }
    Ok(members)
}

/// The schemes of procedures that call each other, from one list of lines for each of them with its number, in which existentials of
/// one number are the same: for each member, in order, the scheme that is chosen, which says the same to callers, under the order of
/// constants, what the lines of all lists say, with no constant and no global more, and which has nothing to spare. The counter rises
/// by one. The error is out of memory, where the counter stays.
pub fn solve_group<L>(
    alloc: Global,
    lines: &Bodies,
    order: &Order,
    steps: &mut Steps<L>,
) -> Result<GroupSchemes, Memory>
    requires interface { AreInterfaceLines (joined (lists_in lines.now)) }
    requires constants { All (HasConstantsBelow order.now.count) (joined (lists_in lines.now)) }
    ensures solved { IfOk result (λ schemes. AreSchemesOf order.now (numbers_in lines.now) (joined (lists_in lines.now)) schemes) }
    ensures rose { OnOk result (RoseBy 1 steps.old steps.new) }
    ensures err { OnErr result (steps.new ≡ steps.old) }
{
    let members = members_of(alloc, lines.items())?;
    let all = join(alloc, lines.items())?;
    let schemes = schemes_of(alloc, &members, all, order)?;
    steps.tick();
    Ok(schemes)
}
