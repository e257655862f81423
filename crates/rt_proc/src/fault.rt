// Why the procedures of an object can't be found.
ghost use Rattle.std.specs.Prelude.{◌≡◌};
ghost use Rattle.rt_proc.specs.declared.fault.CodeFault.TheVariants.{Memory};

use rt_control::Place;
use std::alloc::AllocError;

/// Why the procedures of an object can't be found: a number with the place of a symbol or a site, or out of
/// memory.
///
/// - 30: the word of a site is no instruction.
/// - 31: a function's symbol isn't at a place of code. Or the target of a site isn't, or is the undefined symbol of a
///   branch or of an entry of a table.
/// - 32: a site steps to a continuation that is no place of code.
/// - 33: a site jumps through a register, and neither returns nor jumps to an entry of a table.
#[derive(Clone, Copy, Debug)]
pub enum CodeFault {
    Bad { number: u8, place: Place },
    Memory,
}

impl From<AllocError> for CodeFault {
    ghost from_gives = { λ _ e. e ≡ Memory };

    fn from(_: AllocError) -> CodeFault {
        CodeFault::Memory
    }
}
