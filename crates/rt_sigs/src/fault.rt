// Why a signature file is refused.
ghost use Rattle.std.specs.Prelude.{◌≡◌};
ghost use Rattle.rt_sigs.specs.declared.fault.SigFault.TheVariants.{Memory};

use std::alloc::AllocError;

/// Why a signature file is refused. Lines are numbered from 1, and the first faulty one decides.
#[derive(Clone, Copy, Debug, PartialEq, Eq)]
pub enum SigFault {
    /// The line is not of the grammar in its place. A last line without its line end never is; where the file ends within a
    /// signature after a whole line, the number is that of the line that would follow.
    BadLine(u32),
    /// The line is of the grammar but for its constant, which is spelled as a name and is none of the names.
    UnknownConst(u32),
    /// The line is of the grammar with known constants, but names an argument of the function past those that the signature
    /// says it takes: the register of a number that isn't below the count, or a word of the stack where the count isn't 8.
    Args(u32),
    /// The line begins a signature with the name of an earlier one.
    Twice(u32),
    /// The file has more than 1,048,576 bytes.
    TooLarge,
    /// There is no memory.
    Memory,
}

impl From<AllocError> for SigFault {
    ghost from_gives = { λ _ fault. fault ≡ Memory };

    fn from(_: AllocError) -> SigFault {
        SigFault::Memory
    }
}
