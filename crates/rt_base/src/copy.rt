// Copies of values that own memory.
ghost use Rattle.std.specs.Prelude.{◌≡◌, IfOk};

use std::alloc::AllocError;

/// Values that can be copied, which may want memory.
pub trait Copied {
    /// An equal value, on the allocator that the value keeps.
    fn copied(&self) -> Result<Self, AllocError>
        ensures { IfOk result (λ copy. copy ≡ self.now) };
}

impl Copied for u8 {
    fn copied(&self) -> Result<Self, AllocError> {
        Ok(*self)
    }
}
