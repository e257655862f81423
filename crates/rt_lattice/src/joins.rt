// Least upper bounds.
ghost use Rattle.std.specs.Prelude.{◌≡◌, ◌↔◌, ◌+◌, ◌<◌, IsTrue, MatchOption, OnOk, IfOk, IfErr, length};
ghost use Rattle.rt_lines.specs.Orders.{IsAtOrBelow};
ghost use Rattle.rt_lines.specs.OrderFacts.{IsTransitive};
ghost use Rattle.rt_lattice.specs.Bounds.{IsTop, IsLeastUpper, HaveJoin, IsFirstWithoutJoin};
ghost use Rattle.rt_lattice.specs.Inside.Searches.{IsLowUpper, IsBelowUppers};
ghost use Rattle.rt_lattice.specs.Faults.{IsJoinFault};
ghost use Rattle.rt_lattice.specs.Grids.{IsFilledTo};

use crate::closure::name_of;
use crate::fault::LatFault;
use crate::grid::Grid;
use rt_lines::{Names, Order};
use std::alloc::Global;

// Whether a number is at or above two numbers.
fn is_upper(order: &Order, a: u16, b: u16, c: u16) -> bool
    requires first { a < order.now.count }
    requires second { b < order.now.count }
    requires within { c < order.now.count }
    ensures { IsTrue result ↔ (IsAtOrBelow order.now a c × IsAtOrBelow order.now b c) }
{
    order.le(a, c) && order.le(b, c)
}

// An upper bound of two numbers that is at or below their least upper bound, where they have one.
fn low_upper(order: &Order, top: u16, a: u16, b: u16) -> u16
    requires top { IsTop (IsAtOrBelow order.now) order.now.count top }
    requires first { a < order.now.count }
    requires second { b < order.now.count }
    ensures low { IsLowUpper (IsAtOrBelow order.now) order.now.count a b order.now.count result }
    ensures transitive { IsTransitive order.now }
{
    let mut low = top;
    for c in 0..order.count() {
        if is_upper(order, a, b, c) && order.le(c, low) {
            low = c;
        }
    }
    low
}

// Whether a number is at or below all upper bounds of two numbers.
fn is_least(order: &Order, a: u16, b: u16, low: u16) -> bool
    requires first { a < order.now.count }
    requires second { b < order.now.count }
    requires within { low < order.now.count }
    ensures { IsTrue result ↔ IsBelowUppers (IsAtOrBelow order.now) a b order.now.count low }
{
    for c in 0..order.count() {
        if is_upper(order, a, b, c) && !order.le(low, c) {
            return false;
        }
    }
    true
}

// The least upper bound of two numbers, where they have one.
fn join_of(order: &Order, top: u16, a: u16, b: u16) -> Option<u16>
    requires top { IsTop (IsAtOrBelow order.now) order.now.count top }
    requires first { a < order.now.count }
    requires second { b < order.now.count }
    ensures { MatchOption result (HaveJoin (IsAtOrBelow order.now) order.now.count a b → ⊥)
        (IsLeastUpper (IsAtOrBelow order.now) order.now.count a b) }
{
    let low = low_upper(order, top, a, b);
    if is_least(order, a, b, low) {
        Some(low)
    } else {
        None
    }
}

// The fault of the first two numbers without a least upper bound.
fn no_join(names: &Names, order: &Order, a: u16, b: u16) -> LatFault
    requires counted { order.now.count ≡ length names.now }
    requires first { IsFirstWithoutJoin (IsAtOrBelow order.now) (length names.now) a b }
    ensures { IsJoinFault (IsAtOrBelow order.now) names.now result }
{
    let Ok(first) = name_of(names, a) else {
        return LatFault::Memory;
    };
    let Ok(second) = name_of(names, b) else {
        return LatFault::Memory;
    };
    LatFault::NoJoin(first, second)
}

// Adds the row of a number.
fn push_row(
    names: &Names,
    order: &Order,
    top: u16,
    a: u16,
    joins: &mut Grid,
) -> Result<(), LatFault>
    requires counted { order.now.count ≡ length names.now }
    requires top { IsTop (IsAtOrBelow order.now) order.now.count top }
    requires within { a < order.now.count }
    requires rows { IsFilledTo (IsLeastUpper (IsAtOrBelow order.now) order.now.count) order.now.count a 0 joins.old }
    ensures ok { OnOk result (IsFilledTo (IsLeastUpper (IsAtOrBelow order.now) order.now.count) order.now.count (a + 1) 0 joins.new) }
    ensures fault { IfErr result (IsJoinFault (IsAtOrBelow order.now) names.now) }
{
    for b in 0..order.count() {
        match join_of(order, top, a, b) {
            Some(c) => joins.push(c)?,
            None => return Err(no_join(names, order, a, b)),
        }
    }
    Ok(())
}

// The least upper bounds of all pairs.
pub(crate) fn joins_of(
    alloc: Global,
    names: &Names,
    order: &Order,
    top: u16,
) -> Result<Grid, LatFault>
    requires counted { order.now.count ≡ length names.now }
    requires top { IsTop (IsAtOrBelow order.now) order.now.count top }
    ensures ok { IfOk result (IsFilledTo (IsLeastUpper (IsAtOrBelow order.now) order.now.count) order.now.count order.now.count 0) }
    ensures fault { IfErr result (IsJoinFault (IsAtOrBelow order.now) names.now) }
{
    let mut joins = Grid::new(alloc, order.count())?;
    for a in 0..order.count() {
        push_row(names, order, top, a, &mut joins)?;
    }
    Ok(joins)
}
