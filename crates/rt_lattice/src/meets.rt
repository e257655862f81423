// Greatest lower bounds.
ghost use Rattle.std.specs.Prelude.{◌↔◌, ◌+◌, ◌<◌, IsTrue, OnOk, IfOk};
ghost use Rattle.rt_lines.specs.Orders.{IsAtOrBelow};
ghost use Rattle.rt_lattice.specs.Bounds.{IsBottom, IsLeastUpper, IsGreatestLower};
ghost use Rattle.rt_lattice.specs.Grids.{IsFilledTo};

use crate::grid::Grid;
use rt_lines::Order;
use std::alloc::{AllocError, Global};

// Whether a number is at or below two numbers.
fn is_lower(order: &Order, a: u16, b: u16, c: u16) -> bool
    requires first { a < order.now.count }
    requires second { b < order.now.count }
    requires within { c < order.now.count }
    ensures { IsTrue result ↔ (IsAtOrBelow order.now c a × IsAtOrBelow order.now c b) }
{
    order.le(c, a) && order.le(c, b)
}

// The greatest lower bound of two numbers: the least upper bound of all lower bounds.
fn meet_of(order: &Order, joins: &Grid, bottom: u16, a: u16, b: u16) -> u16
    requires bottom { IsBottom (IsAtOrBelow order.now) order.now.count bottom }
    requires joins { IsFilledTo (IsLeastUpper (IsAtOrBelow order.now) order.now.count) order.now.count order.now.count 0 joins.now }
    requires first { a < order.now.count }
    requires second { b < order.now.count }
    ensures { IsGreatestLower (IsAtOrBelow order.now) order.now.count a b result }
{
    let mut meet = bottom;
    for c in 0..order.count() {
        if is_lower(order, a, b, c) {
            meet = joins.get(meet, c);
        }
    }
    meet
}

// Adds the row of a number.
fn push_row(
    order: &Order,
    joins: &Grid,
    bottom: u16,
    a: u16,
    meets: &mut Grid,
) -> Result<(), AllocError>
    requires bottom { IsBottom (IsAtOrBelow order.now) order.now.count bottom }
    requires joins { IsFilledTo (IsLeastUpper (IsAtOrBelow order.now) order.now.count) order.now.count order.now.count 0 joins.now }
    requires within { a < order.now.count }
    requires rows { IsFilledTo (IsGreatestLower (IsAtOrBelow order.now) order.now.count) order.now.count a 0 meets.old }
    ensures { OnOk result (IsFilledTo (IsGreatestLower (IsAtOrBelow order.now) order.now.count) order.now.count (a + 1) 0 meets.new) }
{
    for b in 0..order.count() {
        meets.push(meet_of(order, joins, bottom, a, b))?;
    }
    Ok(())
}

// The greatest lower bounds of all pairs.
pub(crate) fn meets_of(
    alloc: Global,
    order: &Order,
    joins: &Grid,
    bottom: u16,
) -> Result<Grid, AllocError>
    requires bottom { IsBottom (IsAtOrBelow order.now) order.now.count bottom }
    requires joins { IsFilledTo (IsLeastUpper (IsAtOrBelow order.now) order.now.count) order.now.count order.now.count 0 joins.now }
    ensures { IfOk result (IsFilledTo (IsGreatestLower (IsAtOrBelow order.now) order.now.count) order.now.count order.now.count 0) }
{
    let mut meets = Grid::new(alloc, order.count())?;
    for a in 0..order.count() {
        push_row(order, joins, bottom, a, &mut meets)?;
    }
    Ok(meets)
}
