// Numbers in the order in which they are found, each once.
ghost use Rattle.std.specs.Prelude.{◌≡◌, ◌<◌, ℕ, [], Contains, IsTrue, ◌↔◌, OnOk, IfOk, false, length, slice_get, slice_index_or};
ghost use Rattle.rt_named.specs.Numbers.{IsLeft};
ghost use Rattle.rt_outline.specs.Inside.Found.{AreFlagged};

use rt_base::Memory;
use std::alloc::Global;
use std::marker::Model;

// Numbers, each with a flag. Whether a number is found costs one look-up.
#[derive(Drop)]
pub(crate) struct Found {
    flags: Vec<bool>,
    numbers: Vec<u32>,
}

impl Model for Found {
    ghost use Rattle.std.specs.Prelude.{List, ℕ};
    ghost use Rattle.rt_outline.specs.Inside.Found.{AreFlagged};

    ghost Value = { List ℕ };

    ghost view = { λ f. f.numbers.items };

    ghost invariant = { λ f. AreFlagged f.flags.items f.numbers.items };
}

impl Found {
    // None, with room for numbers below a count.
    pub(crate) fn new(alloc: Global, count: usize) -> Result<Found, Memory>
        ensures { IfOk result (λ found. found ≡ []) }
    {
        let flags = vec![in alloc; false; count]?;
        let numbers = Vec::new(alloc);
        Ok(Found { flags, numbers })
    }

    // Adds a number. When out of memory, they are as they were.
    pub(crate) fn insert(&mut self, number: u32) -> Result<(), Memory>
        ensures { OnOk result (IsLeft (λ (w : ℕ). number ≡ w) self.old self.new) }
    {
        if self.contains(number) {
            return Ok(());
        }
        widen(&mut self.flags, number)?;
        self.numbers.push(number)?;
        self.flags[number as usize] = true;
        Ok(())
    }

    // Whether a number is found.
    pub(crate) fn contains(&self, number: u32) -> bool
        ensures { IsTrue result ↔ Contains self.now number }
    {
        match self.flags.get(number as usize) {
            Some(flag) => *flag,
            None => false,
        }
    }

    // The numbers in the order in which they were found.
    pub(crate) fn numbers(&self) -> &[u32]
        ensures { result.now ≡ self.now }
    {
        &self.numbers
    }

    // The number that was found at an index.
    pub(crate) fn get(&self, index: usize) -> Option<u32>
        ensures { result ≡ slice_get self.now index }
    {
        self.numbers.get(index).copied()
    }

    // Takes all away.
    pub(crate) fn clear(&mut self)
        ensures { self.new ≡ [] }
    {
        clear_flags(&mut self.flags, &self.numbers);
        self.numbers.clear();
    }
}

// Makes room for the flag of a number.
fn widen(flags: &mut Vec<bool>, number: u32) -> Result<(), Memory>
    ensures same { (n : ℕ) → slice_index_or flags.new.items n false ≡ slice_index_or flags.old.items n false }
    ensures room { OnOk result (number < length flags.new.items) }
{
    while flags.len() <= number as usize {
        flags.push(false)?;
    }
    Ok(())
}

// Takes away the flags of numbers.
fn clear_flags(flags: &mut Vec<bool>, numbers: &[u32])
    requires { AreFlagged flags.old.items numbers.now }
    ensures { AreFlagged flags.new.items [] }
{
    for number in numbers {
        flags[*number as usize] = false;
    }
}
