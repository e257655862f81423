// Why a site is at fault.
ghost use Rattle.std.specs.Prelude.{◌≡◌};
ghost use Rattle.rt_control.specs.Control.{number_of};
ghost use Rattle.rt_control.specs.declared.fault.FormFault.TheVariants as form_fault;

use std::alloc::AllocError;

/// Why a site is at fault. Where several hold, the first counts.
///
/// - Instruction, 30: its word is no instruction.
/// - Target, 31: the target isn't good; or its symbol is absolute, common, or of a section that isn't executable; or
///   it is that of a branch or of an entry of a jump's table, and its symbol is undefined.
/// - Continuation, 32: it steps to its continuation, which isn't good.
/// - Jump, 33: it is a JALR with rd x0 that is neither a return, nor one of a far call, nor a jump to an entry of a
///   table that has one.
#[derive(Clone, Copy, Debug)]
pub enum SiteFault {
    Instruction,
    Target,
    Continuation,
    Jump,
}

impl SiteFault {
    /// The number of the fault, 30 to 33.
    pub fn number(self) -> u8
        ensures { result ≡ number_of self }
    {
        match self {
            SiteFault::Instruction => 30,
            SiteFault::Target => 31,
            SiteFault::Continuation => 32,
            SiteFault::Jump => 33,
        }
    }
}

/// Why it isn't known what a site does: it is at fault, or memory ran out.
#[derive(Clone, Copy, Debug)]
pub enum FormFault {
    Site(SiteFault),
    Memory,
}

impl From<SiteFault> for FormFault {
    ghost from_gives = { λ fault e. e ≡ form_fault.Site fault };

    fn from(fault: SiteFault) -> FormFault {
        FormFault::Site(fault)
    }
}

impl From<AllocError> for FormFault {
    ghost from_gives = { λ _ e. e ≡ form_fault.Memory };

    fn from(_: AllocError) -> FormFault {
        FormFault::Memory
    }
}
