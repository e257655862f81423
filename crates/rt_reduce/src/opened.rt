// What the shape of lines and arcs from inside say of a line.
ghost use Rattle.std.specs.Prelude.{◌↔◌, ◌<◌, ◌≡◌, ◌∷◌, [], All, IsTrue, IfOk, IfSome};
ghost use Rattle.rt_lines.specs.declared.line.Line.TheVariants.{Low as LowerBound, Sub as Subtype, Up as UpperBound};
ghost use Rattle.rt_lines.specs.Lines.{HasConstantsBelow};
ghost use Rattle.rt_lines.specs.Orders.{Below};
ghost use Rattle.rt_rules.specs.Rules.{Derivable};
ghost use Rattle.rt_outline.specs.Enclosing.{AreThere};
ghost use Rattle.rt_reduce.specs.Inside.Deciding.{IsLowerWith};

use crate::bounds::{lows, ups};
use crate::derivable::{are_one, exists};
use rt_base::Memory;
use rt_lines::{Dtv, Line, Order};
use rt_outline::{Lower, with_accesses};
use std::alloc::Global;
use std::slice;

// Whether the line is derivable, as far as the shape and arcs from inside say.
pub(crate) fn seen(
    alloc: Global,
    lines: &[Line],
    order: &Order,
    line: &Line,
) -> Result<Option<bool>, Memory>
    requires constants { All (HasConstantsBelow order.now.count) lines.now }
    requires constant { HasConstantsBelow order.now.count line.now }
    ensures { IfOk result (λ seen. IfSome seen (λ yes. IsTrue yes ↔ Derivable order.now lines.now line.now)) }
{
    match line {
        Line::Var(_) => Ok(None),
        Line::Same(_, _) => Ok(None),
        Line::Sub(x, y) => {
            let seen = seen_below(alloc, lines, x, y)?;
            Ok(seen)
        }
        Line::Low(k, x) => seen_low(alloc, lines, order, *k, x),
        Line::Up(x, k) => seen_up(alloc, lines, order, x, *k),
    }
}

// Whether the first variable is a subtype of the second, as far as the shape and arcs from inside say.
fn seen_below(alloc: Global, lines: &[Line], x: &Dtv, y: &Dtv) -> Result<Option<bool>, Memory>
    ensures { IfOk result (λ seen. (order : Below) →
        IfSome seen (λ yes. IsTrue yes ↔ Derivable order lines.now (Subtype x.now y.now))) }
{
    let shape = rt_shape::of(alloc, lines)?;
    if !are_one(&shape, x, y) {
        return Ok(Some(false));
    }
    let lower = lower_of(alloc, lines, pair(alloc, x, y)?)?;
    if lower.leads(alloc, slice::from_ref(x), slice::from_ref(y))? {
        return Ok(Some(true));
    }
    Ok(None)
}

// Whether the constant is a lower bound of the variable, as far as the shape and arcs from inside say.
fn seen_low(
    alloc: Global,
    lines: &[Line],
    order: &Order,
    k: u16,
    x: &Dtv,
) -> Result<Option<bool>, Memory>
    requires constants { All (HasConstantsBelow order.now.count) lines.now }
    requires constant { k < order.now.count }
    ensures { IfOk result (λ seen. IfSome seen (λ yes. IsTrue yes ↔ Derivable order.now lines.now (LowerBound k x.now))) }
{
    // The call says that the order is transitive.
    order.count();
    let shape = rt_shape::of(alloc, lines)?;
    if !exists(&shape, x) {
        return Ok(Some(false));
    }
    let from = lows(alloc, lines, order, k)?;
    let lower = lower_of(alloc, lines, one(alloc, x)?)?;
    if lower.leads(alloc, &from, slice::from_ref(x))? {
        return Ok(Some(true));
    }
    Ok(None)
}

// Whether the constant is an upper bound of the variable, as far as the shape and arcs from inside say.
fn seen_up(
    alloc: Global,
    lines: &[Line],
    order: &Order,
    x: &Dtv,
    k: u16,
) -> Result<Option<bool>, Memory>
    requires constants { All (HasConstantsBelow order.now.count) lines.now }
    requires constant { k < order.now.count }
    ensures { IfOk result (λ seen. IfSome seen (λ yes. IsTrue yes ↔ Derivable order.now lines.now (UpperBound x.now k))) }
{
    // The call says that the order is transitive.
    order.count();
    let shape = rt_shape::of(alloc, lines)?;
    if !exists(&shape, x) {
        return Ok(Some(false));
    }
    let to = ups(alloc, lines, order, k)?;
    let lower = lower_of(alloc, lines, one(alloc, x)?)?;
    if lower.leads(alloc, slice::from_ref(x), &to)? {
        return Ok(Some(true));
    }
    Ok(None)
}

// The arcs from inside of lines, which lead also between loads and stores that these don't name, with more variables.
fn lower_of(alloc: Global, lines: &[Line], sides: Vec<Dtv>) -> Result<Lower, Memory>
    requires { AreThere lines.now sides.items }
    ensures { IfOk result (IsLowerWith lines.now sides.items) }
{
    let all = with_accesses(alloc, lines, sides)?;
    let lower = Lower::of(alloc, lines, &all)?;
    Ok(lower)
}

// A list of one variable.
fn one(alloc: Global, x: &Dtv) -> Result<Vec<Dtv>, Memory>
    ensures { IfOk result (λ one. one.items ≡ x.now ∷ []) }
{
    let mut one = Vec::with_capacity(alloc, 1)?;
    one.push(x.copy()?)?;
    Ok(one)
}

// A list of two variables.
fn pair(alloc: Global, x: &Dtv, y: &Dtv) -> Result<Vec<Dtv>, Memory>
    ensures { IfOk result (λ pair. pair.items ≡ x.now ∷ y.now ∷ []) }
{
    let mut pair = Vec::with_capacity(alloc, 2)?;
    pair.push(x.copy()?)?;
    pair.push(y.copy()?)?;
    Ok(pair)
}
