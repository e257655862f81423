// A list of items.
ghost use Rattle.std.specs.Prelude.{◌≡◌, [], ◌∷◌, ◌++◌, OnOk, OnErr, IfOk, length};

use crate::copy::Copied;
use std::alloc::{AllocError, Global};
use std::marker::Model;

/// A list of items, which contracts see as that list.
#[derive(Debug, Drop)]
pub struct Sequence<T> {
    entries: Vec<T>,
}

/// A list of bytes, as a name or the content of a file.
pub type Bytes = Sequence<u8>;

impl<T> Model for Sequence<T> {
    ghost use Rattle.std.specs.Prelude.{List};

    ghost Value = { List T };

    ghost view = { λ s. s.entries.items };
}

impl<T> Sequence<T> {
    /// The empty list. It takes no memory, and keeps the allocator.
    pub fn new(alloc: Global) -> Self
        ensures { result ≡ [] }
    {
        Sequence {
            entries: Vec::new(alloc),
        }
    }

    /// Adds an item at the end. When out of memory, the list is as it was.
    pub fn push(&mut self, item: T) -> Result<(), AllocError>
    where
        T: Drop,
        ensures ok { OnOk result (self.new ≡ self.old ++ item ∷ []) }
        ensures err { OnErr result (self.new ≡ self.old) }
    {
        self.entries.push(item)?;
        Ok(())
    }

    /// The items in order.
    pub fn items(&self) -> &[T]
        ensures { result.now ≡ self.now }
    {
        self.entries.as_slice()
    }

    /// How many items there are.
    pub fn len(&self) -> usize
        ensures { result ≡ length self.now }
    {
        self.entries.len()
    }

    /// The list of a vector's items, without memory.
    pub fn from_vec(entries: Vec<T>) -> Self
        ensures { result ≡ entries.items }
    {
        Sequence { entries }
    }

    /// The items as a vector, without memory.
    pub fn into_vec(self) -> Vec<T>
        ensures { result.items ≡ self }
    {
        self.entries
    }

    /// The allocator that the list keeps.
    pub fn allocator(&self) -> Global {
        *self.entries.allocator()
    }
}

impl<T: Copied + Drop> Sequence<T> {
    /// An equal list.
    pub fn copy(&self) -> Result<Self, AllocError>
        ensures { IfOk result (λ copy. copy ≡ self.now) }
    {
        let mut copy = Vec::with_capacity(self.allocator(), self.entries.len())?;
        for item in &self.entries {
            copy.push(item.copied()?)?;
        }
        Ok(Sequence { entries: copy })
    }
}

impl<T: Copied + Drop> Copied for Sequence<T> {
    fn copied(&self) -> Result<Self, AllocError> {
        self.copy()
    }
}
