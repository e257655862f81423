// Why there is no answer.
ghost use Rattle.std.specs.Prelude.{◌≡◌};
ghost use Rattle.rt_entail.specs.declared.fault.EntailFault.TheVariants.{Memory};

use std::alloc::AllocError;

/// Why it isn't said whether a judgement is derivable.
#[derive(Clone, Copy, Debug, PartialEq, Eq)]
pub enum EntailFault {
    /// A line of the text is bad. The number is that of the byte at which the first bad line begins, from 0.
    BadLine(u32),
    /// The judgement's text is that of no judgement.
    BadJudgement,
    /// There is no memory.
    Memory,
}

impl From<AllocError> for EntailFault {
    ghost from_gives = { λ _ fault. fault ≡ Memory };

    fn from(_: AllocError) -> EntailFault {
        EntailFault::Memory
    }
}
