// Numbers, each once.
ghost use Rattle.std.specs.Prelude.{◌≡◌, ℕ, [], Contains, IsTrue, ◌↔◌, OnOk, length, slice_get};
ghost use Rattle.rt_named.specs.Numbers.{IsLeft};

use indexmap::IndexSet;
use rt_base::Memory;
use std::alloc::Global;
use std::marker::Model;

/// Numbers, each once, in the order in which they came. Contracts see the list of them.
#[derive(Drop)]
pub struct Numbers {
    keys: IndexSet<u32>,
}

impl Model for Numbers {
    ghost use Rattle.std.specs.Prelude.{ℕ, List};

    ghost Value = { List ℕ };

    ghost view = { λ n. n.keys.keys };
}

impl Numbers {
    /// No numbers. It takes no memory, and keeps the allocator.
    pub fn new(alloc: Global) -> Numbers
        ensures { result ≡ [] }
    {
        Numbers {
            keys: IndexSet::new(alloc),
        }
    }

    /// Adds a number, unless it is there. The error is out of memory.
    pub fn note(&mut self, number: u32) -> Result<(), Memory>
        ensures { OnOk result (IsLeft (λ (w : ℕ). number ≡ w) self.old self.new) }
    {
        self.keys.insert(number)?;
        Ok(())
    }

    /// Adds those of the numbers that are not there yet. The error is out of memory.
    pub fn note_all(&mut self, numbers: &[u32]) -> Result<(), Memory>
        ensures { OnOk result (IsLeft (Contains numbers.now) self.old self.new) }
    {
        for number in numbers {
            self.note(*number)?;
        }
        Ok(())
    }

    /// The number at a place.
    pub fn get(&self, place: usize) -> Option<u32>
        ensures { result ≡ slice_get self.now place }
    {
        self.keys.get_index(place).copied()
    }

    /// Whether a number is there.
    pub fn has(&self, number: u32) -> bool
        ensures { IsTrue result ↔ Contains self.now number }
    {
        self.keys.contains(&number)
    }

    /// The numbers in the order in which they came.
    pub fn items(&self) -> &[u32]
        ensures { result.now ≡ self.now }
    {
        self.keys.as_slice()
    }
}
