// Derived variables.
ghost use Rattle.std.specs.Prelude.{◌≡◌, IfOk};

use crate::word::Word;
use rt_base::Copied;
use std::alloc::AllocError;

/// What a derived variable belongs to.
#[derive(Clone, Copy, PartialEq, Eq, Hash)]
pub enum Base {
    /// A procedure, by its number.
    Proc(u32),
    /// A global, by the index of its symbol in the object.
    Global(u32),
    /// An existential of a list of lines, by its number.
    Exist(u32),
    /// A variable of whoever uses the lines, by its number.
    Outer(u32),
}

/// A derived variable (PLDI 2016, section 3): a base and a word of labels.
#[derive(PartialEq, Eq, Hash, Drop)]
pub struct Dtv {
    /// What the variable belongs to.
    pub base: Base,
    /// The way from the base to the variable.
    pub word: Word,
}

impl Dtv {
    /// An equal variable.
    pub fn copy(&self) -> Result<Dtv, AllocError>
        ensures { IfOk result (λ copy. copy ≡ self.now) }
    {
        let word = self.word.copy()?;
        Ok(Dtv {
            base: self.base,
            word,
        })
    }
}

impl Copied for Dtv {
    fn copied(&self) -> Result<Self, AllocError> {
        self.copy()
    }
}
