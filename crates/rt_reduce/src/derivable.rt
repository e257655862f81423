// Whether a line is derivable from others.
ghost use Rattle.std.specs.Prelude.{◌↔◌, ◌<◌, List, All, IsTrue, IfOk};
ghost use Rattle.rt_lines.specs.declared.line.Line.{Line as Given};
ghost use Rattle.rt_lines.specs.declared.line.Line.TheVariants.{Low as Lower, Same, Sub as Subtype, Up as Upper, Var as Exists};
ghost use Rattle.rt_lines.specs.Lines.{HasConstantsBelow};
ghost use Rattle.rt_lines.specs.Orders.{Below};
ghost use Rattle.rt_rules.specs.Rules.{Derivable};
ghost use Rattle.rt_shape.specs.Shapes.{IsShapeOf};

use rt_base::Memory;
use rt_lines::{Dtv, Judge, Line, Order};
use rt_sat::derives;
use rt_shape::Shape;
use std::alloc::Global;

// Whether the line is derivable from the lines.
pub fn derives_line(
    alloc: Global,
    lines: &[Line],
    order: &Order,
    line: &Line,
) -> Result<bool, Memory>
    requires constants { All (HasConstantsBelow order.now.count) lines.now }
    requires constant { HasConstantsBelow order.now.count line.now }
    ensures { IfOk result (λ yes. IsTrue yes ↔ Derivable order.now lines.now line.now) }
{
    match line {
        Line::Var(x) => {
            let shape = rt_shape::of(alloc, lines)?;
            Ok(exists(&shape, x))
        }
        Line::Same(x, y) => {
            let shape = rt_shape::of(alloc, lines)?;
            Ok(are_one(&shape, x, y))
        }
        Line::Sub(x, y) => {
            let yes = is_below(alloc, lines, order, x, y)?;
            Ok(yes)
        }
        Line::Low(k, x) => {
            let yes = has_low(alloc, lines, order, *k, x)?;
            Ok(yes)
        }
        Line::Up(x, k) => {
            let yes = has_up(alloc, lines, order, x, *k)?;
            Ok(yes)
        }
    }
}

// Whether the variable exists.
pub fn exists(shape: &Shape, x: &Dtv) -> bool
    ensures { (lines : List Given) (order : Below) → IsShapeOf lines shape.now →
        IsTrue result ↔ Derivable order lines (Exists x.now) }
{
    shape.node(x).is_some()
}

// Whether the two variables have one shape.
pub fn are_one(shape: &Shape, x: &Dtv, y: &Dtv) -> bool
    ensures { (lines : List Given) (order : Below) → IsShapeOf lines shape.now →
        IsTrue result ↔ Derivable order lines (Same x.now y.now) }
{
    match (shape.node(x), shape.node(y)) {
        (Some(m), Some(n)) => m == n,
        _ => false,
    }
}

// Whether the first variable is a subtype of the second.
pub fn is_below(
    alloc: Global,
    lines: &[Line],
    order: &Order,
    x: &Dtv,
    y: &Dtv,
) -> Result<bool, Memory>
    requires { All (HasConstantsBelow order.now.count) lines.now }
    ensures { IfOk result (λ yes. IsTrue yes ↔ Derivable order.now lines.now (Subtype x.now y.now)) }
{
    let judge = Judge::Sub(x.copy()?, y.copy()?);
    let yes = derives(alloc, lines, order, &judge)?;
    Ok(yes)
}

// Whether the constant is a lower bound of the variable.
fn has_low(alloc: Global, lines: &[Line], order: &Order, k: u16, x: &Dtv) -> Result<bool, Memory>
    requires constants { All (HasConstantsBelow order.now.count) lines.now }
    requires constant { k < order.now.count }
    ensures { IfOk result (λ yes. IsTrue yes ↔ Derivable order.now lines.now (Lower k x.now)) }
{
    let judge = Judge::Low(k, x.copy()?);
    let yes = derives(alloc, lines, order, &judge)?;
    Ok(yes)
}

// Whether the constant is an upper bound of the variable.
fn has_up(alloc: Global, lines: &[Line], order: &Order, x: &Dtv, k: u16) -> Result<bool, Memory>
    requires constants { All (HasConstantsBelow order.now.count) lines.now }
    requires constant { k < order.now.count }
    ensures { IfOk result (λ yes. IsTrue yes ↔ Derivable order.now lines.now (Upper x.now k)) }
{
    let judge = Judge::Up(x.copy()?, k);
    let yes = derives(alloc, lines, order, &judge)?;
    Ok(yes)
}
