// Lines made ready for the rest of a round.
ghost use Rattle.std.specs.Prelude.{IfOk};
ghost use Rattle.rt_reduction.specs.Rounds.{Prepares};
ghost use Rattle.rt_simplify.specs.Inside.Preparing.{IsOnce};

use crate::simplifying::simplify;
use rt_base::Memory;
use rt_lines::{Line, Lines};
use rt_polar::tidy;
use rt_refine::refine;
use rt_trim::trim;
use std::alloc::Global;

/// What is left of the lines when existentials that are used alike became one, places were given away and twins became one,
/// and, as long as an existential of which the lines say more than its shape is idle, the lines of idle ones became their
/// shapes and all of it was done again. The error is out of memory.
pub fn prepare(alloc: Global, lines: Lines) -> Result<Lines, Memory>
    ensures { IfOk result (λ left. Prepares left lines) }
{
    let mut left = prepare_once(alloc, lines.items())?;
    while let Some(trimmed) = trim(alloc, left.items())? {
        let next = tidy(alloc, trimmed)?;
        left = prepare_once(alloc, next.items())?;
    }
    Ok(left)
}

// What is left when existentials that are used alike became one, places were given away and twins became one.
fn prepare_once(alloc: Global, lines: &[Line]) -> Result<Lines, Memory>
    ensures { IfOk result (IsOnce lines.now) }
{
    let least = refine(alloc, lines)?;
    let left = simplify(alloc, least)?;
    Ok(left)
}
