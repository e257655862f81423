// The schedule of a drive.
ghost use Rattle.std.specs.Prelude.{◌≡◌, [], ◌∷◌, ◌++◌, OnErr, OnOk};

use rt_base::Memory;
use std::alloc::Global;
use std::marker::Model;

/// A schedule: the number by which workers are driven, and the claims that were done, as worker and group. Contracts see both.
#[derive(Drop)]
pub struct Schedule {
    number: u32,
    claims: Vec<(u32, u32)>,
}

impl Model for Schedule {
    ghost use Rattle.rt_solve.specs.Claimed.{Claimed};

    ghost Value = { Claimed };

    ghost view = { λ s. record { number = s.number; claims = s.claims.items } };
}

impl Schedule {
    /// The schedule of a number, without claims. It takes no memory.
    pub fn new(alloc: Global, number: u32) -> Schedule
        ensures { result ≡ record { number = number; claims = [] } }
    {
        Schedule {
            number,
            claims: Vec::new(alloc),
        }
    }

    // The number.
    pub(crate) fn number(&self) -> u32
        ensures { result ≡ self.now.number }
    {
        self.number
    }

    /// The claims that were done, as worker and group.
    pub fn claims(&self) -> &[(u32, u32)]
        ensures { result.now ≡ self.now.claims }
    {
        self.claims.as_slice()
    }

    // Notes a claim. When out of memory, the schedule is as it was.
    pub(crate) fn note(&mut self, worker: u32, group: u32) -> Result<(), Memory>
        ensures ok { OnOk result (self.new ≡ record { number = self.old.number; claims = self.old.claims ++ (worker, group) ∷ [] }) }
        ensures err { OnErr result (self.new ≡ self.old) }
    {
        self.claims.push((worker, group))?;
        Ok(())
    }
}
