// Why there is no text to write.
ghost use Rattle.std.specs.Prelude.{◌≡◌};
ghost use Rattle.rt_run.specs.declared.no_text.NoText.TheVariants.{Memory as NoMemory};

use crate::refusal::Refusal;
use std::alloc::AllocError;

/// Why there is no text to write.
#[derive(Drop)]
pub enum NoText {
    /// An input is refused.
    Refused(Refusal),
    /// There is no memory for the text.
    Memory,
}

impl From<AllocError> for NoText {
    ghost from_gives = { λ _ e. e ≡ NoMemory };

    fn from(_: AllocError) -> NoText {
        NoText::Memory
    }
}
