// Bounds of lines, by the numbers of their variables.
ghost use Rattle.std.specs.Prelude.{◌≡◌, ◌∷◌, ◌++◌, [], ◌<◌, List, true, false, Contains, IfOk, OnOk, length, slice_index_or};
ghost use Rattle.rt_lines.specs.declared.line.Line.{Line as Given};
ghost use Rattle.rt_lines.specs.declared.line.Line.TheVariants.{Low as LowerBound};
ghost use Rattle.rt_lines.specs.declared.variable.Dtv.{Dtv as Variable};
ghost use Rattle.rt_lines.specs.Orders.{IsAtOrBelow};
ghost use Rattle.rt_rules.specs.Rules.{HasSide};
ghost use Rattle.rt_outline.specs.declared.bounds.Bound.{Bound as Entry};
ghost use Rattle.rt_outline.specs.Inside.Bounds.{AreBounds, AreBoundsAt, IsAtOrAbove, IsBoundEntered, upper_bound};

use crate::spreading::is_standing;
use rt_base::Memory;
use rt_lines::{Line, Order};
use rt_named::Named;
use std::alloc::Global;

// A bound among lines: its index there, its constant and the number of its variable.
#[derive(Clone, Copy)]
pub(crate) struct Bound {
    pub(crate) line: usize,
    pub(crate) constant: u16,
    pub(crate) number: u32,
}

// The lower bounds of the lines.
pub(crate) fn lows(alloc: Global, named: &Named, lines: &[Line]) -> Result<Vec<Bound>, Memory>
    requires { (l : Given) (x : Variable) → Contains lines.now l → HasSide l x → Contains named.now x }
    ensures { IfOk result (λ bounds. AreBounds LowerBound lines.now (length lines.now) named.now bounds.items) }
{
    let mut bounds = Vec::new(alloc);
    for i in 0..lines.len() {
        enter_low(named, &mut bounds, &lines[i], i)?;
    }
    Ok(bounds)
}

// Adds the line of an index, if it is a lower bound.
fn enter_low(named: &Named, bounds: &mut Vec<Bound>, line: &Line, i: usize) -> Result<(), Memory>
    requires { (x : Variable) → HasSide line.now x → Contains named.now x }
    ensures { OnOk result (IsBoundEntered LowerBound line.now i named.now bounds.old.items bounds.new.items) }
{
    match line {
        Line::Low(constant, x) => {
            bounds.push(Bound {
                line: i,
                constant: *constant,
                number: named.number(x),
            })?;
            Ok(())
        }
        Line::Var(_) | Line::Same(_, _) | Line::Sub(_, _) | Line::Up(_, _) => Ok(()),
    }
}

// The upper bounds of the lines.
pub(crate) fn ups(alloc: Global, named: &Named, lines: &[Line]) -> Result<Vec<Bound>, Memory>
    requires { (l : Given) (x : Variable) → Contains lines.now l → HasSide l x → Contains named.now x }
    ensures { IfOk result (λ bounds. AreBounds upper_bound lines.now (length lines.now) named.now bounds.items) }
{
    let mut bounds = Vec::new(alloc);
    for i in 0..lines.len() {
        enter_up(named, &mut bounds, &lines[i], i)?;
    }
    Ok(bounds)
}

// Adds the line of an index, if it is an upper bound.
fn enter_up(named: &Named, bounds: &mut Vec<Bound>, line: &Line, i: usize) -> Result<(), Memory>
    requires { (x : Variable) → HasSide line.now x → Contains named.now x }
    ensures { OnOk result (IsBoundEntered upper_bound line.now i named.now bounds.old.items bounds.new.items) }
{
    match line {
        Line::Up(x, constant) => {
            bounds.push(Bound {
                line: i,
                constant: *constant,
                number: named.number(x),
            })?;
            Ok(())
        }
        Line::Var(_) | Line::Same(_, _) | Line::Sub(_, _) | Line::Low(_, _) => Ok(()),
    }
}

// The numbers of the variables of bounds that stand, whose constants are at or above the given one.
pub(crate) fn above(
    alloc: Global,
    bounds: &[Bound],
    stands: &[bool],
    order: &Order,
    k: u16,
) -> Result<Vec<u32>, Memory>
    requires constants { (b : Entry) → Contains bounds.now b → slice_index_or stands.now b.line false ≡ true →
        b.constant < order.now.count }
    requires constant { k < order.now.count }
    ensures { IfOk result (λ numbers. AreBoundsAt (IsAtOrBelow order.now k) stands.now bounds.now numbers.items) }
{
    let mut numbers = Vec::new(alloc);
    for bound in bounds {
        enter_above(stands, order, k, &mut numbers, *bound)?;
    }
    Ok(numbers)
}

// Puts the bound's number behind others, if the bound stands and its constant is at or above the given one.
fn enter_above(
    stands: &[bool],
    order: &Order,
    k: u16,
    numbers: &mut Vec<u32>,
    bound: Bound,
) -> Result<(), Memory>
    requires constants { slice_index_or stands.now bound.line false ≡ true → bound.constant < order.now.count }
    requires constant { k < order.now.count }
    ensures { OnOk result ((before : List Entry) →
        AreBoundsAt (IsAtOrBelow order.now k) stands.now before numbers.old.items →
        AreBoundsAt (IsAtOrBelow order.now k) stands.now (before ++ bound ∷ []) numbers.new.items) }
{
    if !is_standing(stands, bound.line) {
        return Ok(());
    }
    if order.le(k, bound.constant) {
        numbers.push(bound.number)?;
    }
    Ok(())
}

// The numbers of the variables of bounds that stand, whose constants are at or below the given one.
pub(crate) fn below(
    alloc: Global,
    bounds: &[Bound],
    stands: &[bool],
    order: &Order,
    k: u16,
) -> Result<Vec<u32>, Memory>
    requires constants { (b : Entry) → Contains bounds.now b → slice_index_or stands.now b.line false ≡ true →
        b.constant < order.now.count }
    requires constant { k < order.now.count }
    ensures { IfOk result (λ numbers. AreBoundsAt (IsAtOrAbove order.now k) stands.now bounds.now numbers.items) }
{
    let mut numbers = Vec::new(alloc);
    for bound in bounds {
        enter_below(stands, order, k, &mut numbers, *bound)?;
    }
    Ok(numbers)
}

// Puts the bound's number behind others, if the bound stands and its constant is at or below the given one.
fn enter_below(
    stands: &[bool],
    order: &Order,
    k: u16,
    numbers: &mut Vec<u32>,
    bound: Bound,
) -> Result<(), Memory>
    requires constants { slice_index_or stands.now bound.line false ≡ true → bound.constant < order.now.count }
    requires constant { k < order.now.count }
    ensures { OnOk result ((before : List Entry) →
        AreBoundsAt (IsAtOrAbove order.now k) stands.now before numbers.old.items →
        AreBoundsAt (IsAtOrAbove order.now k) stands.now (before ++ bound ∷ []) numbers.new.items) }
{
    if !is_standing(stands, bound.line) {
        return Ok(());
    }
    if order.le(bound.constant, k) {
        numbers.push(bound.number)?;
    }
    Ok(())
}
