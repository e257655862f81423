// The order of variables, in which the first stands for others.
ghost use Rattle.std.specs.Prelude.{◌≡◌, IfOk};
ghost use Rattle.rt_reduction.specs.Before.{comes_before as is_before};

use rt_base::Memory;
use rt_emit::key_of;
use rt_lines::Dtv;
use std::alloc::Global;

/// Whether the first variable comes before the second in the order in which the first of several stands for the others: by
/// letters after the base, then by bases, then by the texts of the letters. The error is out of memory.
pub fn comes_before(alloc: Global, x: &Dtv, y: &Dtv) -> Result<bool, Memory>
    ensures { IfOk result (λ yes. yes ≡ is_before x.now y.now) }
{
    let first = key_of(alloc, x)?;
    let second = key_of(alloc, y)?;
    Ok(first.cmp(&second).is_lt())
}
