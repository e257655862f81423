// Lines that follow from the lines before them.
ghost use Rattle.std.specs.Prelude.{◌≡◌, ℕ, true, false, Some, IfOk, length, take, slice_get, slice_index_or};
ghost use Rattle.rt_lines.specs.declared.line.Line.{Line as Given};
ghost use Rattle.rt_lines.specs.Orders.{Below};
ghost use Rattle.rt_rules.specs.Rules.{Derivable};

use crate::earlier::Earlier;
use rt_base::Memory;
use rt_lines::Line;
use std::alloc::Global;

/// For each line whether the lines before it give it: yes only where they derive it (PLDI 2016, sections 3 and 4). It is meant to say
/// yes at each `var` and `same` line that they derive, but no clause promises that: a no costs time alone. At a `<=` line and
/// at a bound it says no. It takes time nearly linear in the letters of the lines. The error is out of memory.
pub fn told(alloc: Global, lines: &[Line]) -> Result<Vec<bool>, Memory>
    ensures each { IfOk result (λ told. length told.items ≡ length lines.now) }
    ensures derived { IfOk result (λ told. (order : Below) (i : ℕ) (l : Given) →
        slice_get lines.now i ≡ Some l → slice_index_or told.items i false ≡ true → Derivable order (take i lines.now) l) }
{
    let mut earlier = Earlier::new(alloc);
    let mut told = Vec::with_capacity(alloc, lines.len())?;
    for line in lines {
        told.push(earlier.derives(alloc, line))?;
        earlier.add(line)?;
    }
    Ok(told)
}
