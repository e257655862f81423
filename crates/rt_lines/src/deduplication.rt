// Each line once.
ghost use Rattle.std.specs.Prelude.{◌≡◌, IfOk};
ghost use Rattle.rt_lines.specs.Numbering.{deduplicated};

use crate::line::{Line, Lines};
use indexmap::IndexSet;
use rt_base::{Memory, Sequence};
use std::alloc::Global;

/// The lines, each once, where it is first. The error is out of memory.
pub fn deduplicate(alloc: Global, lines: Lines) -> Result<Lines, Memory>
    ensures { IfOk result (λ kept. kept ≡ deduplicated lines) }
{
    let kept: IndexSet<Line> = lines.into_vec().into_iter().collect(alloc)?;
    let kept: Vec<Line> = kept.into_iter().collect(alloc)?;
    Ok(Sequence::from_vec(kept))
}
