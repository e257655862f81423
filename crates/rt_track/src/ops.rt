// What the definitions of registers compute.
ghost use Rattle.std.specs.Prelude.{◌≡◌, ℕ, ◌^◌, ◌<◌, All, IfOk, OnOk, OnErr, Some, length, slice_get};
ghost use Rattle.rt_track.specs.Placed.{IsWithin, NamesRegisters};

use crate::op::Op;
use indexmap::IndexMap;
use rt_base::Memory;
use std::alloc::Global;

/// What the definitions of registers at the sites of a body compute. A definition that was given no operation gives a value of
/// its own.
#[derive(Drop)]
pub struct Ops {
    sites: u32,
    given: IndexMap<(u32, u8), Op>,
    ghost within: { All (IsWithin sites) given.entries },
}

#[tactic(auto, unfolding(crate::specs::Operations::entries_of, crate::specs::Operations::number_in, crate::specs::Operations::op_in, crate::specs::Operations::ops_sites))]
impl Ops {
    ghost use Rattle.rt_track.specs.Operations.{entries_of, number_in, op_in, ops_sites};

    /// No operations, for so many sites. The error is out of memory.
    pub fn new(alloc: Global, sites: u32) -> Result<Ops, Memory>
        ensures sites { IfOk result (λ ops. ops_sites ops ≡ sites) }
        ensures own { IfOk result (λ ops. (s r : ℕ) → op_in ops s r ≡ Op.Own) }
    {
        let given = IndexMap::with_capacity(alloc, sites as usize)?;
        Ok(Ops { sites, given })
    }

    /// Gives an operation to the definition of a register at a site, in place of the one that it had. When out of memory,
    /// each definition has the operation that it had.
    pub fn set(&mut self, site: u32, reg: u8, op: Op) -> Result<(), Memory>
        requires site { site < ops_sites self.old }
        requires reg { reg < 32 }
        requires named { NamesRegisters op }
        ensures sites { ops_sites self.new ≡ ops_sites self.old }
        ensures given { OnOk result (op_in self.new site reg ≡ op) }
        ensures others { (s r : ℕ) → ((s ≡ site) × (r ≡ reg) → ⊥) → op_in self.new s r ≡ op_in self.old s r }
        ensures err { OnErr result (op_in self.new site reg ≡ op_in self.old site reg) }
    {
        self.given.insert((site, reg), op)?;
        Ok(())
    }

    // How many definitions have an operation. They are numbered from 0.
    pub(crate) fn count(&self) -> usize
        ensures value { result ≡ length (entries_of self.now) }
        ensures few { result < 2 ^ 63 }
    {
        self.given.len()
    }

    // The number of the definition of a register at a site, if it has an operation.
    pub(crate) fn number(&self, site: u32, reg: u8) -> Option<usize>
        ensures { result ≡ number_in self.now site reg }
    {
        self.given.get_index_of(&(site, reg))
    }

    // The definition of a number: its site and register, and its operation.
    pub(crate) fn given(&self, number: usize) -> ((u32, u8), Op)
        requires { number < length (entries_of self.now) }
        ensures entry { slice_get (entries_of self.now) number ≡ Some result }
        ensures number { number_in self.now result.0.0 result.0.1 ≡ Some number }
        ensures within { IsWithin (ops_sites self.now) result }
    {
        match self.given.as_slice().get_index(number) {
            Some((key, op)) => (*key, *op),
            None => unreachable!(),
        }
    }
}
