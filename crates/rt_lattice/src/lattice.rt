// Lattices of names.
ghost use Rattle.std.specs.Prelude.{◌≡◌, ◌≢◌, ◌↔◌, ◌<◌, ◌≤◌, None, IsTrue, OnOk, IfOk, IfErr, length};
ghost use Rattle.rt_lattice.specs.declared.fault.LatFault.TheVariants.{Memory};
ghost use Rattle.rt_lattice.specs.Bounds.{IsTop, IsBottom, IsLeastUpper, IsGreatestLower};
ghost use Rattle.rt_lattice.specs.Closures.{unknown_name};
ghost use Rattle.rt_lattice.specs.Faults.{IsFileFault};
ghost use Rattle.rt_lattice.specs.Lattices.{IsBelow, size_of, IsLattice, IsLatticeOf};
ghost use Rattle.rt_lattice.specs.Roles.{role_in};

use crate::bounds::{Bounds, bounds_of};
use crate::closure::order_of;
use crate::fault::LatFault;
use crate::file::File;
use crate::role::Role;
use crate::roles::{Roles, roles_of};
use rt_lines::{Names, Order};
use std::alloc::Global;
use std::marker::Model;

/// A lattice of names, which contracts see as its names, an order of their numbers, and the numbers of the roles' names.
/// The order is a partial one; a name is above all, one below all, and each two names have a least upper and a greatest
/// lower bound. A name's number is its place in the list of names, from 0.
#[derive(Drop)]
pub struct Lattice {
    names: Names,
    order: Order,
    bounds: Bounds,
    roles: Roles,
}

impl Model for Lattice {
    ghost use Rattle.rt_lattice.specs.Lattices.{NamedOrder, Keeps};

    ghost Value = { NamedOrder };

    ghost view = { λ l. record { names = l.names; order = l.order; roles = l.roles } };

    ghost invariant = { λ l. Keeps (record { names = l.names; order = l.order; roles = l.roles }) l.bounds };
}

impl Lattice {
    /// Whether the first name is at or below the second, by their numbers. It takes no memory.
    pub fn le(&self, a: u16, b: u16) -> bool
        requires first { a < size_of self.now }
        requires second { b < size_of self.now }
        ensures { IsTrue result ↔ IsBelow self.now a b }
    {
        self.order.le(a, b)
    }

    /// The least upper bound of two names, by their numbers. It takes no memory.
    pub fn join(&self, a: u16, b: u16) -> u16
        requires first { a < size_of self.now }
        requires second { b < size_of self.now }
        ensures { IsLeastUpper (IsBelow self.now) (size_of self.now) a b result }
    {
        self.bounds.joins.get(a, b)
    }

    /// The greatest lower bound of two names, by their numbers. It takes no memory.
    pub fn meet(&self, a: u16, b: u16) -> u16
        requires first { a < size_of self.now }
        requires second { b < size_of self.now }
        ensures { IsGreatestLower (IsBelow self.now) (size_of self.now) a b result }
    {
        self.bounds.meets.get(a, b)
    }

    /// The number of the name that is above all. It takes no memory.
    pub fn top(&self) -> u16
        ensures { IsTop (IsBelow self.now) (size_of self.now) result }
    {
        self.bounds.top
    }

    /// The number of the name that is below all. It takes no memory.
    pub fn bottom(&self) -> u16
        ensures { IsBottom (IsBelow self.now) (size_of self.now) result }
    {
        self.bounds.bottom
    }

    /// The number of the name for a role. It takes no memory.
    pub fn role(&self, role: Role) -> u16
        ensures number { result ≡ role_in self.now.roles role }
        ensures within { result < size_of self.now }
    {
        self.roles.number(role)
    }

    /// The names, in the order of their numbers. It takes no memory.
    pub fn names(&self) -> &Names
        ensures names { result.now ≡ self.now.names }
        ensures lattice { IsLattice self.now }
    {
        &self.names
    }

    /// The order of the names, by their numbers. It takes no memory.
    pub fn order(&self) -> &Order
        ensures order { result.now ≡ self.now.order }
        ensures lattice { IsLattice self.now }
    {
        &self.order
    }
}

// The lattice that a file says.
pub(crate) fn lattice_of(alloc: Global, file: File) -> Result<Lattice, LatFault>
    requires { length file.names ≤ 256 }
    ensures lattice { IfOk result (IsLatticeOf file) }
    ensures known { OnOk result (unknown_name file ≡ None) }
    ensures fault { IfErr result (λ fault. fault ≢ Memory → IsFileFault file fault) }
{
    let order = order_of(alloc, &file)?;
    let bounds = bounds_of(alloc, &file.names, &order)?;
    let roles = roles_of(&file)?;
    Ok(Lattice {
        names: file.names,
        order,
        bounds,
        roles,
    })
}
