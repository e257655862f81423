// Lines that say nothing twice.
ghost use Rattle.std.specs.Prelude.{◌≡◌, map, IfOk};
ghost use Rattle.rt_polar.specs.Tidied.{tidied, without_self};

use rt_base::{Memory, Sequence};
use rt_lines::{Line, Lines, deduplicate};
use std::alloc::Global;

/// The line, but that a variable exists where it says that the variable stands beside itself. It takes no memory.
pub fn self_to_var(line: Line) -> Line
    ensures { result ≡ without_self line }
{
    match line {
        Line::Same(x, y) => {
            if x == y {
                Line::Var(x)
            } else {
                Line::Same(x, y)
            }
        }
        Line::Sub(x, y) => {
            if x == y {
                Line::Var(x)
            } else {
                Line::Sub(x, y)
            }
        }
        other => other,
    }
}

// The lines, but that a variable exists where one says that the variable stands beside itself.
fn selves_to_vars(alloc: Global, lines: Lines) -> Result<Lines, Memory>
    ensures { IfOk result (λ r. r ≡ map without_self lines) }
{
    let plain: Vec<Line> = lines
        .into_vec()
        .into_iter()
        .map(self_to_var)
        .collect(alloc)?;
    Ok(Sequence::from_vec(plain))
}

/// The lines, each once, but that `var X` stands for `X <= X` and for `same X X`. The error is out of memory.
pub fn tidy(alloc: Global, lines: Lines) -> Result<Lines, Memory>
    ensures { IfOk result (λ r. r ≡ tidied lines) }
{
    let plain = selves_to_vars(alloc, lines)?;
    deduplicate(alloc, plain)
}
