// Sets of numbers.
ghost use Rattle.std.specs.Prelude.{◌≡◌, ◌↔◌, [], IsTrue, Contains, OnOk, nat_eq};
ghost use Rattle.indexmap.specs.IndexSet.{insert_key};

use indexmap::IndexSet;
use rt_base::Memory;
use std::alloc::Global;
use std::marker::Model;

// Numbers, each once, which contracts see as a list.
#[derive(Drop)]
pub struct Numbers {
    set: IndexSet<u32>,
}

impl Model for Numbers {
    ghost use Rattle.std.specs.Prelude.{List, ℕ};

    ghost Value = { List ℕ };

    ghost view = { λ s. s.set.keys };
}

impl Numbers {
    // No numbers. It takes no memory, and keeps the allocator.
    pub fn new(alloc: Global) -> Numbers
        ensures { result ≡ [] }
    {
        Numbers {
            set: IndexSet::new(alloc),
        }
    }

    // Whether the number is among these.
    pub fn has(&self, number: u32) -> bool
        ensures { IsTrue result ↔ Contains self.now number }
    {
        self.set.contains(&number)
    }

    // Adds a number, if it isn't there.
    pub fn add(&mut self, number: u32) -> Result<(), Memory>
        ensures { OnOk result (self.new ≡ insert_key nat_eq self.old number) }
    {
        self.set.insert(number)?;
        Ok(())
    }
}
