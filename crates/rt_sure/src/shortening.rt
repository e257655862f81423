// `<=` lines, and what lines say of the shape of the bases that these name.
ghost use Rattle.std.specs.Prelude.{◌≡◌, ℕ, List, All, true, IfOk, OnOk};
ghost use Rattle.rt_lines.specs.declared.line.Line.{Line as Given};
ghost use Rattle.rt_lines.specs.Lines.{HasConstantsBelow};
ghost use Rattle.rt_lines.specs.Orders.{Below};
ghost use Rattle.rt_rules.specs.Rules.{Derivable};
ghost use Rattle.rt_shape.specs.Shapes.{IsShapeOf};
ghost use Rattle.rt_sure.specs.Fates.{DerivesAll};

use crate::describing::described;
use crate::shapes::is_below;
use rt_base::Memory;
use rt_lines::{Dtv, Line};
use rt_named::Named;
use rt_shape::Shape;
use std::alloc::Global;

/// The `<=` lines among some, and of the others no more than what they say of the shape of the bases that those and some
/// variables name, by lines of shape. So what is left is short where few bases matter; nothing is promised of what it derives but
/// that the lines do. The error is out of memory.
pub fn shortened(alloc: Global, lines: &[Line], more: &[Dtv]) -> Result<Vec<Line>, Memory>
    ensures derived { IfOk result (λ short. (order : Below) → DerivesAll order lines.now short.items) }
    ensures unbounded { IfOk result (λ short. (count : ℕ) → All (HasConstantsBelow count) short.items) }
{
    let mut short = flows(alloc, lines)?;
    add_shapes(alloc, lines, more, &mut short)?;
    Ok(short)
}

// Adds what lines say of the shape of the bases that the lines so far and some variables name.
fn add_shapes(
    alloc: Global,
    lines: &[Line],
    more: &[Dtv],
    short: &mut Vec<Line>,
) -> Result<(), Memory>
    ensures derived { OnOk result ((order : Below) → DerivesAll order lines.now short.old.items →
        DerivesAll order lines.now short.new.items) }
    ensures unbounded { OnOk result ((count : ℕ) → All (HasConstantsBelow count) short.old.items →
        All (HasConstantsBelow count) short.new.items) }
{
    let shape = rt_shape::of(alloc, lines)?;
    let described = described_by(alloc, lines, &shape, short, more)?;
    add_each(&shape, &described, short)
}

// What a shape says of the bases that lines and some variables name.
fn described_by(
    alloc: Global,
    lines: &[Line],
    shape: &Shape,
    short: &[Line],
    more: &[Dtv],
) -> Result<Vec<Line>, Memory> {
    let named = Named::of(alloc, short, more)?;
    described(alloc, &named, lines, shape)
}

// Adds those of the lines of shape that the shape has.
fn add_each(shape: &Shape, described: &[Line], short: &mut Vec<Line>) -> Result<(), Memory>
    ensures derived { OnOk result ((order : Below) (lines : List Given) → IsShapeOf lines shape.now →
        DerivesAll order lines short.old.items → DerivesAll order lines short.new.items) }
    ensures unbounded { OnOk result ((count : ℕ) → All (HasConstantsBelow count) short.old.items →
        All (HasConstantsBelow count) short.new.items) }
{
    for line in described {
        add(shape, line, short)?;
    }
    Ok(())
}

// The `<=` lines.
fn flows(alloc: Global, lines: &[Line]) -> Result<Vec<Line>, Memory>
    ensures derived { IfOk result (λ flows. (order : Below) → DerivesAll order lines.now flows.items) }
    ensures unbounded { IfOk result (λ flows. (count : ℕ) → All (HasConstantsBelow count) flows.items) }
{
    let mut flows = Vec::new(alloc);
    for line in lines {
        if is_below(line) {
            flows.push(line.copy()?)?;
        }
    }
    Ok(flows)
}

// Adds a line of shape, if the shape has it.
fn add(shape: &Shape, line: &Line, short: &mut Vec<Line>) -> Result<(), Memory>
    ensures derived { OnOk result ((order : Below) (lines : List Given) → IsShapeOf lines shape.now →
        DerivesAll order lines short.old.items → DerivesAll order lines short.new.items) }
    ensures unbounded { OnOk result ((count : ℕ) → All (HasConstantsBelow count) short.old.items →
        All (HasConstantsBelow count) short.new.items) }
{
    if has(shape, line) {
        short.push(line.copy()?)?;
    }
    Ok(())
}

// Whether the shape has the line, which says that a variable exists, or that two have one shape.
fn has(shape: &Shape, line: &Line) -> bool
    ensures derived { result ≡ true → (order : Below) (lines : List Given) → IsShapeOf lines shape.now →
        Derivable order lines line.now }
    ensures unbounded { result ≡ true → (count : ℕ) → HasConstantsBelow count line.now }
{
    match line {
        Line::Var(x) => shape.node(x).is_some(),
        Line::Same(x, y) => match (shape.node(x), shape.node(y)) {
            (Some(m), Some(n)) => m == n,
            _ => false,
        },
        Line::Sub(_, _) | Line::Low(_, _) | Line::Up(_, _) => false,
    }
}
