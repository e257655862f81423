// Sets of offsets.
ghost use Rattle.std.specs.Prelude.{◌≡◌, [], IfOk, OnOk};
ghost use Rattle.rt_frame.specs.Frames.{AreAscending};
ghost use Rattle.rt_frame.specs.Inside.Gathering.{Gains};

use rt_base::{Memory, Sequence};
use std::alloc::Global;
use std::collections::BTreeSet;
use std::marker::Model;

/// A set of offsets, which contracts see as the list of them.
#[derive(Drop)]
pub(crate) struct Offsets {
    set: BTreeSet<i32>,
}

impl Model for Offsets {
    ghost use Rattle.std.specs.Prelude.{List, ℤ};

    ghost Value = { List ℤ };

    ghost view = { λ o. o.set.keys };
}

impl Offsets {
    /// No offsets. It takes no memory, and keeps the allocator.
    pub(crate) fn new(alloc: Global) -> Offsets
        ensures { result ≡ [] }
    {
        Offsets {
            set: BTreeSet::new(alloc),
        }
    }

    /// Adds an offset. The error is out of memory.
    pub(crate) fn insert(&mut self, offset: i32) -> Result<(), Memory>
        ensures { OnOk result (Gains self.old self.new (λ k. k ≡ offset)) }
    {
        self.set.insert(offset)?;
        Ok(())
    }

    /// The offsets, ascending. The error is out of memory.
    pub(crate) fn ascending(&self, alloc: Global) -> Result<Sequence<i32>, Memory>
        ensures ascending { IfOk result AreAscending }
        ensures same { IfOk result (λ offsets. offsets ≡ self.now) }
    {
        let offsets = self.set.iter().copied().collect(alloc)?;
        Ok(Sequence::from_vec(offsets))
    }
}
