// The bounds of all pairs of an order.
ghost use Rattle.std.specs.Prelude.{◌≡◌, ◌≢◌, OnOk, IfOk, IfErr, length};
ghost use Rattle.rt_lines.specs.Orders.{IsAtOrBelow};
ghost use Rattle.rt_lines.specs.OrderFacts.{IsOrder};
ghost use Rattle.rt_lattice.specs.declared.fault.LatFault.TheVariants.{Memory};
ghost use Rattle.rt_lattice.specs.Bounds.{HasNoCycle};
ghost use Rattle.rt_lattice.specs.Faults.{IsOrderFault};
ghost use Rattle.rt_lattice.specs.Lattices.{AreBoundsOf};

use crate::closure::name_of;
use crate::extremes::{bottom_of, cycle_of, top_of};
use crate::fault::LatFault;
use crate::grid::Grid;
use crate::joins::joins_of;
use crate::meets::meets_of;
use rt_lines::{Names, Order};
use std::alloc::Global;

// The number that is above all, the number that is below all, and the bounds of all pairs.
#[derive(Drop)]
pub(crate) struct Bounds {
    pub(crate) top: u16,
    pub(crate) bottom: u16,
    pub(crate) joins: Grid,
    pub(crate) meets: Grid,
}

// Refuses an order in which two different numbers are below each other.
fn check_cycle(names: &Names, order: &Order) -> Result<(), LatFault>
    requires { order.now.count ≡ length names.now }
    ensures none { OnOk result (HasNoCycle (IsAtOrBelow order.now) order.now.count) }
    ensures whole { IsOrder order.now }
    ensures fault { IfErr result (λ fault. fault ≢ Memory → IsOrderFault (IsAtOrBelow order.now) names.now fault) }
{
    match cycle_of(order) {
        Some(a) => Err(LatFault::Cycle(name_of(names, a)?)),
        None => Ok(()),
    }
}

// The bounds of an order of names, where it is a lattice.
pub(crate) fn bounds_of(alloc: Global, names: &Names, order: &Order) -> Result<Bounds, LatFault>
    requires { order.now.count ≡ length names.now }
    ensures bounds { IfOk result (AreBoundsOf (IsAtOrBelow order.now) (length names.now)) }
    ensures none { OnOk result (HasNoCycle (IsAtOrBelow order.now) (length names.now)) }
    ensures whole { IsOrder order.now }
    ensures fault { IfErr result (λ fault. fault ≢ Memory → IsOrderFault (IsAtOrBelow order.now) names.now fault) }
{
    check_cycle(names, order)?;
    let Some(top) = top_of(order) else {
        return Err(LatFault::NoTop);
    };
    let Some(bottom) = bottom_of(order) else {
        return Err(LatFault::NoBottom);
    };
    let joins = joins_of(alloc, names, order, top)?;
    let meets = meets_of(alloc, order, &joins, bottom)?;
    Ok(Bounds {
        top,
        bottom,
        joins,
        meets,
    })
}
