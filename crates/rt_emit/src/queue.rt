// A queue of variables, of which the first comes out first.
ghost use Rattle.std.specs.Prelude.{◌≡◌, ◌↔◌, ◌⊎◌, ◌+◌, ◌≤◌, [], length, Contains, OnOk, MatchOption};
ghost use Rattle.rt_lines.specs.declared.variable.Dtv.{Dtv};
ghost use Rattle.rt_emit.specs.Inside.Queues.{IsPopped};

use crate::key::{Key, key_of};
use rt_base::Memory;
use rt_lines::Dtv;
use std::alloc::Global;
use std::collections::BTreeMap;
use std::marker::Model;

/// A queue of variables, which contracts see as the list of them. The first comes out first, and each once.
#[derive(Drop)]
pub struct Queue {
    alloc: Global,
    entries: BTreeMap<Key, Dtv>,
}

impl Model for Queue {
    ghost use Rattle.std.specs.Prelude.{List};
    ghost use Rattle.std.specs.BTreeMap.{values};
    ghost use Rattle.rt_lines.specs.declared.variable.Dtv.{Dtv as Variable};
    ghost use Rattle.rt_emit.specs.Inside.Queues.{AreKeyed};

    ghost Value = { List Variable };

    ghost view = { λ q. values q.entries };

    ghost invariant = { λ q. AreKeyed q.entries.entries };
}

impl Queue {
    /// The empty queue. It takes no memory, and keeps the allocator.
    pub fn new(alloc: Global) -> Queue
        ensures { result ≡ [] }
    {
        Queue {
            alloc,
            entries: BTreeMap::new(alloc),
        }
    }

    /// Puts a variable in. The error is out of memory.
    pub fn push(&mut self, x: Dtv) -> Result<(), Memory>
        ensures holds { OnOk result ((y : Dtv) → Contains self.new y ↔ (Contains self.old y ⊎ (y ≡ x))) }
        ensures length { OnOk result (length self.new ≤ length self.old + 1) }
    {
        let key = key_of(self.alloc, &x)?;
        self.entries.insert(key, x)?;
        Ok(())
    }

    /// Takes out the first variable. It takes no memory.
    pub fn pop(&mut self) -> Option<Dtv>
        ensures { MatchOption result (self.old ≡ []) (IsPopped self.old self.new) }
    {
        let (_, x) = self.entries.pop_first()?;
        Some(x)
    }
}
