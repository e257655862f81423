// Names, which share the bytes of their string table.
ghost use Rattle.std.specs.Prelude.{◌≡◌, [], ◌≤◌, IfOk, length, slice_range};

use rt_base::{Bytes, Copied};
use std::alloc::{AllocError, Global};
use std::marker::Model;
use std::rc::Rc;

/// A name: a range of a block of bytes, as that of a string table (ELF gABI, "String Table"). Contracts see it as the
/// list of its bytes.
///
/// All names of a string table and all their copies share its bytes, so each takes the same small memory, however long
/// it is.
#[derive(Drop)]
pub struct Name {
    block: Rc<Bytes>,
    start: usize,
    end: usize,
}

impl Model for Name {
    ghost use Rattle.std.specs.Prelude.{ℕ, List, ◌≤◌, length, slice_range};

    ghost Value = { List ℕ };

    ghost view = { λ name. slice_range name.block.value name.start name.end };

    ghost invariant = { λ name. (name.start ≤ name.end) × (name.end ≤ length name.block.value) };
}

impl Name {
    /// A name of a block of its own.
    pub fn from_bytes(alloc: Global, bytes: Bytes) -> Result<Name, AllocError>
        ensures { IfOk result (λ name. name ≡ bytes) }
    {
        let end = bytes.len();
        let block = Rc::new(alloc, bytes)?;
        Ok(Name {
            block,
            start: 0,
            end,
        })
    }

    /// The empty name.
    pub fn empty(alloc: Global) -> Result<Name, AllocError>
        ensures { IfOk result (λ name. name ≡ []) }
    {
        Name::from_bytes(alloc, Bytes::new(alloc))
    }

    // The name of a range of a block.
    pub(crate) fn in_block(block: &Rc<Bytes>, start: usize, end: usize) -> Result<Name, AllocError>
        requires rises { start ≤ end }
        requires within { end ≤ length block.now.value }
        ensures { IfOk result (λ name. name ≡ slice_range block.now.value start end) }
    {
        let block = block.clone()?;
        Ok(Name { block, start, end })
    }

    /// The bytes of the name.
    pub fn items(&self) -> &[u8]
        ensures { result.now ≡ self.now }
    {
        let block: &Bytes = &self.block;
        &block.items()[self.start..self.end]
    }

    /// How many bytes the name has.
    pub fn len(&self) -> usize
        ensures { result ≡ length self.now }
    {
        self.end - self.start
    }

    /// An equal name, which shares the same bytes. It takes no memory, and is refused only where there are more than
    /// 2^63 of them.
    pub fn copy(&self) -> Result<Name, AllocError>
        ensures { IfOk result (λ copy. copy ≡ self.now) }
    {
        Name::in_block(&self.block, self.start, self.end)
    }

    /// The bytes of the name, in memory of their own.
    pub fn to_bytes(&self, alloc: Global) -> Result<Bytes, AllocError>
        ensures { IfOk result (λ bytes. bytes ≡ self.now) }
    {
        Ok(Bytes::from_vec(self.items().to_vec(alloc)?))
    }
}

impl Copied for Name {
    fn copied(&self) -> Result<Self, AllocError> {
        self.copy()
    }
}
