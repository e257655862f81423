// Whether a judgement is derivable from lines.
ghost use Rattle.std.specs.Prelude.{◌≡◌, ◌∷◌, ◌++◌, ℕ, ◌<◌, ◌↔◌, [], List, All, Contains, IsTrue, IfOk, OnOk, length};
ghost use Rattle.rt_lines.specs.declared.line.Line.{Line as Given};
ghost use Rattle.rt_lines.specs.declared.line.Line.TheVariants.{Low as Lower, Same, Sub as Subtype, Up as Upper, Var as Exists};
ghost use Rattle.rt_lines.specs.declared.variable.Dtv.{Dtv as Variable};
ghost use Rattle.rt_lines.specs.Lines.{HasConstantsBelow};
ghost use Rattle.rt_lines.specs.Orders.{Below};
ghost use Rattle.rt_rules.specs.Rules.{Derivable, HasSide, line_of};
ghost use Rattle.rt_shape.specs.Shapes.{IsShapeOf};
ghost use Rattle.rt_sat.specs.Tables.{AreLows, AreUps};

use crate::asking::reaches;
use crate::table::begin;
use rt_base::Memory;
use rt_lines::{Dtv, Judge, Line, Order};
use rt_named::Named;
use rt_shape::Shape;
use std::alloc::Global;

/// Whether the judgement is derivable from the lines with the order of constants. The error is out of memory.
pub fn derives(alloc: Global, lines: &[Line], order: &Order, judge: &Judge) -> Result<bool, Memory>
    requires { All (HasConstantsBelow order.now.count) (line_of judge.now ∷ lines.now) }
    ensures { IfOk result (λ yes. IsTrue yes ↔ Derivable order.now lines.now (line_of judge.now)) }
{
    let shape = rt_shape::of(alloc, lines)?;
    match judge {
        Judge::Var(x) => Ok(is_there(&shape, x)),
        Judge::Sub(x, y) => {
            let yes = is_below(alloc, lines, &shape, x, y)?;
            Ok(yes)
        }
        Judge::Low(k, x) => {
            let yes = has_low(alloc, lines, &shape, order, *k, x)?;
            Ok(yes)
        }
        Judge::Up(x, k) => {
            let yes = has_up(alloc, lines, &shape, order, x, *k)?;
            Ok(yes)
        }
    }
}

// Whether the variable exists.
fn is_there(shape: &Shape, x: &Dtv) -> bool
    ensures { (lines : List Given) (order : Below) → IsShapeOf lines shape.now →
        IsTrue result ↔ Derivable order lines (Exists x.now) }
{
    shape.node(x).is_some()
}

// Whether two variables have one shape.
fn are_one(shape: &Shape, x: &Dtv, y: &Dtv) -> bool
    ensures { (lines : List Given) (order : Below) → IsShapeOf lines shape.now →
        IsTrue result ↔ Derivable order lines (Same x.now y.now) }
{
    match (shape.node(x), shape.node(y)) {
        (Some(m), Some(n)) => m == n,
        _ => false,
    }
}

// Whether the first variable is a subtype of the second.
fn is_below(alloc: Global, lines: &[Line], shape: &Shape, x: &Dtv, y: &Dtv) -> Result<bool, Memory>
    requires { IsShapeOf lines.now shape.now }
    ensures { IfOk result (λ yes. (order : Below) → IsTrue yes ↔ Derivable order lines.now (Subtype x.now y.now)) }
{
    if !are_one(shape, x, y) {
        return Ok(false);
    }
    let extra = both(alloc, x, y)?;
    let begun = begin(alloc, lines, shape, &extra)?;
    let left = begun.frame.named.number(x);
    let right = begun.frame.named.number(y);
    let sources = one(alloc, left)?;
    let targets = one(alloc, right)?;
    let yes = reaches(alloc, begun, &sources, &targets)?;
    Ok(yes)
}

// Whether the constant is a lower bound of the variable: whether a line's lower bound, at or above it, is of a subtype.
fn has_low(
    alloc: Global,
    lines: &[Line],
    shape: &Shape,
    order: &Order,
    k: u16,
    x: &Dtv,
) -> Result<bool, Memory>
    requires shape { IsShapeOf lines.now shape.now }
    requires constants { All (HasConstantsBelow order.now.count) lines.now }
    requires constant { k < order.now.count }
    ensures { IfOk result (λ yes. IsTrue yes ↔ Derivable order.now lines.now (Lower k x.now)) }
{
    // The call says that the order is transitive.
    order.count();
    if !is_there(shape, x) {
        return Ok(false);
    }
    let extra = alone(alloc, x)?;
    let begun = begin(alloc, lines, shape, &extra)?;
    let right = begun.frame.named.number(x);
    let sources = lows(alloc, &begun.frame.named, lines, order, k)?;
    let targets = one(alloc, right)?;
    let yes = reaches(alloc, begun, &sources, &targets)?;
    Ok(yes)
}

// Whether the constant is an upper bound of the variable: whether a line's upper bound, at or below it, is of a supertype.
fn has_up(
    alloc: Global,
    lines: &[Line],
    shape: &Shape,
    order: &Order,
    x: &Dtv,
    k: u16,
) -> Result<bool, Memory>
    requires shape { IsShapeOf lines.now shape.now }
    requires constants { All (HasConstantsBelow order.now.count) lines.now }
    requires constant { k < order.now.count }
    ensures { IfOk result (λ yes. IsTrue yes ↔ Derivable order.now lines.now (Upper x.now k)) }
{
    // The call says that the order is transitive.
    order.count();
    if !is_there(shape, x) {
        return Ok(false);
    }
    let extra = alone(alloc, x)?;
    let begun = begin(alloc, lines, shape, &extra)?;
    let left = begun.frame.named.number(x);
    let sources = one(alloc, left)?;
    let targets = ups(alloc, &begun.frame.named, lines, order, k)?;
    let yes = reaches(alloc, begun, &sources, &targets)?;
    Ok(yes)
}

// A list of one number.
fn one(alloc: Global, number: u32) -> Result<Vec<u32>, Memory>
    ensures { IfOk result (λ one. one.items ≡ number ∷ []) }
{
    let mut one = Vec::new(alloc);
    one.push(number)?;
    Ok(one)
}

// A list of one variable.
fn alone(alloc: Global, x: &Dtv) -> Result<Vec<Dtv>, Memory>
    ensures { IfOk result (λ alone. alone.items ≡ x.now ∷ []) }
{
    let mut alone = Vec::new(alloc);
    alone.push(x.copy()?)?;
    Ok(alone)
}

// A list of two variables.
fn both(alloc: Global, x: &Dtv, y: &Dtv) -> Result<Vec<Dtv>, Memory>
    ensures { IfOk result (λ both. both.items ≡ x.now ∷ y.now ∷ []) }
{
    let mut both = Vec::new(alloc);
    both.push(x.copy()?)?;
    both.push(y.copy()?)?;
    Ok(both)
}

// The numbers of the variables of lower bounds at or above the constant.
fn lows(
    alloc: Global,
    named: &Named,
    lines: &[Line],
    order: &Order,
    k: u16,
) -> Result<Vec<u32>, Memory>
    requires named { (l : Given) (x : Variable) → Contains lines.now l → HasSide l x → Contains named.now x }
    requires constants { All (HasConstantsBelow order.now.count) lines.now }
    requires constant { k < order.now.count }
    ensures { IfOk result (λ numbers. AreLows order.now lines.now named.now k numbers.items) }
{
    let mut numbers = Vec::new(alloc);
    for line in lines {
        enter_low(named, order, k, &mut numbers, line)?;
    }
    Ok(numbers)
}

// Puts the number of a line's variable behind others, if the line is a lower bound at or above the constant.
fn enter_low(
    named: &Named,
    order: &Order,
    k: u16,
    numbers: &mut Vec<u32>,
    line: &Line,
) -> Result<(), Memory>
    requires named { (x : Variable) → HasSide line.now x → Contains named.now x }
    requires constants { HasConstantsBelow order.now.count line.now }
    requires constant { k < order.now.count }
    ensures { OnOk result ((before : List Given) → AreLows order.now before named.now k numbers.old.items →
        AreLows order.now (before ++ line.now ∷ []) named.now k numbers.new.items) }
{
    match line {
        Line::Low(bound, x) => {
            if order.le(k, *bound) {
                numbers.push(named.number(x))?;
            }
            Ok(())
        }
        Line::Var(_) => Ok(()),
        Line::Same(_, _) => Ok(()),
        Line::Sub(_, _) => Ok(()),
        Line::Up(_, _) => Ok(()),
    }
}

// The numbers of the variables of upper bounds at or below the constant.
fn ups(
    alloc: Global,
    named: &Named,
    lines: &[Line],
    order: &Order,
    k: u16,
) -> Result<Vec<u32>, Memory>
    requires named { (l : Given) (x : Variable) → Contains lines.now l → HasSide l x → Contains named.now x }
    requires constants { All (HasConstantsBelow order.now.count) lines.now }
    requires constant { k < order.now.count }
    ensures { IfOk result (λ numbers. AreUps order.now lines.now named.now k numbers.items) }
{
    let mut numbers = Vec::new(alloc);
    for line in lines {
        enter_up(named, order, k, &mut numbers, line)?;
    }
    Ok(numbers)
}

// Puts the number of a line's variable behind others, if the line is an upper bound at or below the constant.
fn enter_up(
    named: &Named,
    order: &Order,
    k: u16,
    numbers: &mut Vec<u32>,
    line: &Line,
) -> Result<(), Memory>
    requires named { (x : Variable) → HasSide line.now x → Contains named.now x }
    requires constants { HasConstantsBelow order.now.count line.now }
    requires constant { k < order.now.count }
    ensures { OnOk result ((before : List Given) → AreUps order.now before named.now k numbers.old.items →
        AreUps order.now (before ++ line.now ∷ []) named.now k numbers.new.items) }
{
    match line {
        Line::Up(x, bound) => {
            if order.le(*bound, k) {
                numbers.push(named.number(x))?;
            }
            Ok(())
        }
        Line::Var(_) => Ok(()),
        Line::Same(_, _) => Ok(()),
        Line::Sub(_, _) => Ok(()),
        Line::Low(_, _) => Ok(()),
    }
}
