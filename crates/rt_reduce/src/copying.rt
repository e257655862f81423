// Copies of lines.
ghost use Rattle.std.specs.Prelude.{◌≡◌, IfOk};

use rt_base::Memory;
use rt_lines::Line;
use std::alloc::Global;

/// Equal lines. The error is out of memory.
pub fn copies(alloc: Global, lines: &[Line]) -> Result<Vec<Line>, Memory>
    ensures { IfOk result (λ copies. copies.items ≡ lines.now) }
{
    let mut copies = Vec::with_capacity(alloc, lines.len())?;
    for line in lines {
        copies.push(line.copy()?)?;
    }
    Ok(copies)
}
