// Schemes of groups of procedures.
ghost use Rattle.std.specs.Prelude.{◌≡◌, ◌↔◌, All, IfOk, IsTrue};
ghost use Rattle.rt_lines.specs.Lines.{HasConstantsBelow};
ghost use Rattle.rt_scheme.specs.Schemes.{AreSchemeLines};
ghost use Rattle.rt_scheme.specs.Splitting.{AreInterfaceLines};
ghost use Rattle.rt_settle.specs.Chosen.{IsChosenFrom};
ghost use Rattle.rt_settle.specs.Groups.{AreSchemesFrom, AreSchemesOf, IsSchemeFrom, TellsOutside};

use crate::scheme::settle;
use rt_base::{Memory, Sequence};
use rt_lines::{Line, Lines, Order};
use rt_scheme::{Scheme, is_scheme_line, split};
use std::alloc::Global;

/// Schemes, one for each member of a group.
pub type GroupSchemes = Sequence<Scheme>;

// Whether each line may stand in a scheme of the procedure.
fn are_scheme_lines(own: u32, lines: &[Line]) -> bool
    ensures { IsTrue result ↔ AreSchemeLines own lines.now }
{
    lines.iter().all(|line| is_scheme_line(own, line))
}

// The lines of a member's scheme: those of the group where they name no other procedure, else these split and settled again.
fn lines_for(alloc: Global, own: u32, settled: &Lines, order: &Order) -> Result<Lines, Memory>
    requires interfaces { AreInterfaceLines settled.now }
    requires constants { All (HasConstantsBelow order.now.count) settled.now }
    ensures bases { IfOk result (AreSchemeLines own) }
    ensures tells { IfOk result (λ lines. TellsOutside order.now own settled.now lines) }
    ensures chosen { IfOk result (λ lines. IsChosenFrom order.now own settled.now lines) }
{
    if are_scheme_lines(own, settled.items()) {
        return settled.copy();
    }
    let split = split(alloc, settled.items(), own)?;
    settle(alloc, split, order)
}

// A member's scheme, from the settled lines of the group.
fn scheme_for(alloc: Global, own: u32, settled: &Lines, order: &Order) -> Result<Scheme, Memory>
    requires interfaces { AreInterfaceLines settled.now }
    requires constants { All (HasConstantsBelow order.now.count) settled.now }
    ensures { IfOk result (λ scheme. IsSchemeFrom order.now own settled.now scheme) }
{
    let lines = lines_for(alloc, own, settled, order)?;
    Ok(Scheme { base: own, lines })
}

// A scheme for each member, from the settled lines of the group.
fn schemes_for(
    alloc: Global,
    members: &[u32],
    settled: &Lines,
    order: &Order,
) -> Result<GroupSchemes, Memory>
    requires interfaces { AreInterfaceLines settled.now }
    requires constants { All (HasConstantsBelow order.now.count) settled.now }
    ensures { IfOk result (λ schemes. AreSchemesFrom order.now members.now settled.now schemes) }
{
    let mut schemes = Vec::with_capacity(alloc, members.len())?;
    for member in members {
        schemes.push(scheme_for(alloc, *member, settled, order)?)?;
    }
    Ok(Sequence::from_vec(schemes))
}

/// The schemes of procedures that call each other, from the lines of all of them, in which existentials of one number are the
/// same: for each member, in order, the scheme that is chosen, which says the same to callers, under the order of constants, what
/// the lines say, with no constant and no global more, and which has nothing to spare.
///
/// The lines are settled, first for the outside of all members at once. A member's scheme are these lines, where they name no
/// other procedure; else an existential stands for each argument and result of the others, and the lines are settled once more.
/// The error is out of memory.
pub fn schemes_of(
    alloc: Global,
    members: &[u32],
    all: Lines,
    order: &Order,
) -> Result<GroupSchemes, Memory>
    requires interface { AreInterfaceLines all }
    requires constants { All (HasConstantsBelow order.now.count) all }
    ensures { IfOk result (λ schemes. AreSchemesOf order.now members.now all schemes) }
{
    let settled = settle(alloc, all, order)?;
    schemes_for(alloc, members, &settled, order)
}
