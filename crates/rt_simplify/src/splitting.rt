// Fields as existentials of their own, until none moves.
ghost use Rattle.std.specs.Prelude.{IfOk};
ghost use Rattle.rt_reduction.specs.Rounds.{Splits};

use crate::preparing::prepare;
use rt_base::Memory;
use rt_lines::Lines;
use rt_polar::tidy;
use rt_record::split;
use std::alloc::Global;

/// What is left of prepared lines when, as long as an existential does nothing but hold fields, its fields became
/// existentials of their own, and what that left was tidied and prepared again. The error is out of memory.
pub fn split_records(alloc: Global, lines: Lines) -> Result<Lines, Memory>
    ensures { IfOk result (λ left. Splits left lines) }
{
    let mut left = lines;
    while let Some(parted) = split(alloc, left.items())? {
        let next = tidy(alloc, parted)?;
        left = prepare(alloc, next)?;
    }
    Ok(left)
}
