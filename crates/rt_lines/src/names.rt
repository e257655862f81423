// Names of constants.
ghost use Rattle.std.specs.Prelude.{◌≡◌, ◌↔◌, IsTrue, ◌<◌, [], ◌∷◌, ◌++◌, OnOk, OnErr, IfOk, Contains, MatchOption, length};
ghost use Rattle.rt_lines.specs.Names.{AreNames, HasName, IsName, IsNameByte};

use rt_base::{Bytes, Sequence};
use std::alloc::{AllocError, Global};
use std::marker::Model;

/// The names of constants, in the order of their numbers, which contracts see as a list: distinct, each
/// spelled `[a-z][a-z0-9_]*` with at most 32 bytes, and at most 65,535 of them.
#[derive(Drop)]
pub struct Names {
    names: Sequence<Bytes>,
}

impl Model for Names {
    ghost use Rattle.std.specs.Prelude.{List, ℕ};
    ghost use Rattle.rt_lines.specs.Names.{AreNames};

    ghost Value = { List (List ℕ) };

    ghost view = { λ n. n.names };

    ghost invariant = { λ n. AreNames n.names };
}

impl Names {
    /// No names. It takes no memory, and keeps the allocator.
    pub fn new(alloc: Global) -> Names
        ensures { result ≡ [] }
    {
        Names {
            names: Sequence::new(alloc),
        }
    }

    /// The names in the order of their numbers.
    pub fn items(&self) -> &[Bytes]
        ensures names { result.now ≡ self.now }
        ensures good { AreNames self.now }
    {
        self.names.items()
    }

    /// Adds a name at the end. Out of memory, the names are as they were.
    pub fn push(&mut self, name: &[u8]) -> Result<(), AllocError>
        requires spelled { IsName name.now }
        requires absent { Contains self.old name.now → ⊥ }
        requires room { length self.old < 65535 }
        ensures ok { OnOk result (self.new ≡ self.old ++ name.now ∷ []) }
        ensures err { OnErr result (self.new ≡ self.old) }
    {
        let copy = name.to_vec(self.names.allocator())?;
        self.names.push(Bytes::from_vec(copy))?;
        Ok(())
    }

    /// The number of a name. It takes no memory.
    pub fn find(&self, name: &[u8]) -> Option<u16>
        ensures { MatchOption result (Contains self.now name.now → ⊥) (λ k. HasName self.now k name.now) }
    {
        for (k, item) in self.items().iter().enumerate() {
            if item.items() == name {
                return Some(k as u16);
            }
        }
        None
    }

    /// Equal names.
    pub fn copy(&self) -> Result<Names, AllocError>
        ensures { IfOk result (λ copy. copy ≡ self.now) }
    {
        let names = self.names.copy()?;
        Ok(Names { names })
    }
}

// Whether the byte may be in a name.
fn is_name_byte(byte: u8) -> bool
    ensures { IsTrue result ↔ IsNameByte byte }
{
    matches!(byte, b'a'..=b'z' | b'0'..=b'9' | b'_')
}

/// Whether the bytes are spelled as a name: `[a-z][a-z0-9_]*`, with at most 32 bytes.
pub fn is_name(bytes: &[u8]) -> bool
    ensures { IsTrue result ↔ IsName bytes.now }
{
    match bytes {
        [b'a'..=b'z', ..] => bytes.len() <= 32 && bytes.iter().all(|byte| is_name_byte(*byte)),
        _ => false,
    }
}
