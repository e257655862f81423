// Existentials give their places away, and twins become one, in turn.
ghost use Rattle.std.specs.Prelude.{IfOk};
ghost use Rattle.rt_polar.specs.Tidied.{tidied};
ghost use Rattle.rt_reduction.specs.Simplifies.{Simplifies};

use crate::merging::merge_twins;
use rt_base::Memory;
use rt_lines::Lines;
use rt_polar::put_away;
use std::alloc::Global;

/// What is left of the lines, tidied, when existentials gave their places away until none has a candidate, then all twins
/// that are defined alike became one with the least of them, or else all that are consumed alike, and so on in turn until
/// there are none. The error is out of memory.
pub fn simplify(alloc: Global, lines: Lines) -> Result<Lines, Memory>
    ensures { IfOk result (λ left. Simplifies left (tidied lines)) }
{
    let mut left = put_away(alloc, lines)?;
    while let Some(merged) = merge_twins(alloc, left.items())? {
        left = put_away(alloc, merged)?;
    }
    Ok(left)
}
