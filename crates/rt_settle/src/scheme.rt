// Schemes of lists of lines.
ghost use Rattle.std.specs.Prelude.{ℕ, All, IfOk};
ghost use Rattle.rt_lines.specs.Lines.{HasConstantsBelow};
ghost use Rattle.rt_scheme.specs.Schemes.{AreSchemeLines};
ghost use Rattle.rt_scheme.specs.Splitting.{AreInterfaceLines};
ghost use Rattle.rt_reduction.specs.Emits.{AreOfScheme};
ghost use Rattle.rt_settle.specs.Chosen.{IsSettled};
ghost use Rattle.rt_settle.specs.Groups.{TellsOutside};

use crate::ordering::sort_lines;
use rt_base::Memory;
use rt_lines::{Lines, Order, number};
use rt_reduce::reduce;
use std::alloc::Global;

/// The settled form of a list of lines, whose sides are arguments and results of procedures, globals, existentials, and what
/// is taken from them: lines that say the same to callers of every procedure under the order, with no constant and no
/// base more that is no existential.
///
/// The lines are reduced, in rounds, until nothing is left to do: existentials of one shape whose lines are the same, but for
/// such existentials, become one; existentials give their places away, and those that are defined or consumed by the same
/// become one; the shape of all variables is written anew; existentials that equal another variable give their places to it;
/// and each line goes that the others derive. The existentials are numbered from 0 in the order in which they first stand in
/// these lines, and then the lines are sorted by the bytes of their texts, with the names of the standard lattice whatever
/// lattice the program works with: a constant numbered 12 or more stands as its number, of at least three digits. The error
/// is out of memory.
pub fn settle(alloc: Global, lines: Lines, order: &Order) -> Result<Lines, Memory>
    requires scheme { AreOfScheme lines }
    requires constants { All (HasConstantsBelow order.now.count) lines }

    // Which lines these are.
    ensures settled { IfOk result (λ settled. IsSettled order.now lines settled) }

    // The outside can derive the same from them, and no name is new.
    ensures tells { IfOk result (λ settled. (own : ℕ) → TellsOutside order.now own lines settled) }

    // What may stand in a scheme of a procedure, or in one of several, does after it.
    ensures schemes { IfOk result (λ settled. (own : ℕ) → AreSchemeLines own lines → AreSchemeLines own settled) }
    ensures interfaces { IfOk result (λ settled. AreInterfaceLines lines → AreInterfaceLines settled) }
{
    let lines = reduce(alloc, lines, order)?;
    let lines = number(alloc, lines)?;
    sort_lines(alloc, lines)
}
