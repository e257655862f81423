// `<=` lines and bounds.
ghost use Rattle.std.specs.Prelude.{◌≡◌, IfOk};
ghost use Rattle.rt_reduction.specs.Emits.{flow_lines, is_flow};

use rt_base::{Memory, Sequence};
use rt_lines::{Line, Lines};
use rt_polar::tidy;
use std::alloc::Global;

// Whether the line is a `<=` line or a bound.
fn is_flow(line: &Line) -> bool
    ensures { result ≡ is_flow line.now }
{
    match line {
        Line::Var(_) | Line::Same(_, _) => false,
        Line::Sub(_, _) | Line::Low(_, _) | Line::Up(_, _) => true,
    }
}

// Equal lines.
fn copies(alloc: Global, lines: &[Line]) -> Result<Lines, Memory>
    ensures { IfOk result (λ copies. copies ≡ lines.now) }
{
    let mut copies = Vec::with_capacity(alloc, lines.len())?;
    for line in lines {
        copies.push(line.copy()?)?;
    }
    Ok(Sequence::from_vec(copies))
}

/// The `<=` lines and bounds of the tidied lines, in order. The error is out of memory.
pub fn flow_lines(alloc: Global, lines: &[Line]) -> Result<Lines, Memory>
    ensures { IfOk result (λ flow. flow ≡ flow_lines lines.now) }
{
    let tidied = tidy(alloc, copies(alloc, lines)?)?;
    let flow: Vec<Line> = tidied
        .into_vec()
        .into_iter()
        .filter(is_flow)
        .collect(alloc)?;
    Ok(Sequence::from_vec(flow))
}
