// Why the relocations of an object can't be read.
ghost use Rattle.std.specs.Prelude.{◌≡◌};
ghost use Rattle.rt_link.specs.Checks.{checked, fault_at};
ghost use Rattle.rt_link.specs.declared.fault.LinkFault.TheVariants.{Memory};

use rt_elf::Reloc;
use std::alloc::AllocError;

/// Why the relocations of an object's code can't be read: a number with the section and the offset of a relocation, or
/// out of memory (RISC-V psABI, "Relocations").
///
/// - 20: its type isn't one of those that code may have here.
/// - 21: it has an effect, and no whole word at a multiple of 4 stands at its place.
/// - 22: it has an effect, and so has an earlier one at its place.
/// - 23: it is a PCREL_LO12, and no PCREL_HI20 stands at the place of its symbol.
/// - 24: it is a CALL or CALL_PLT, and no AUIPC and JALR through one register other than x0 stand at its place.
#[derive(Clone, Copy, Debug)]
pub enum LinkFault {
    Bad {
        number: u8,
        section: u16,
        offset: u32,
    },
    Memory,
}

impl From<AllocError> for LinkFault {
    ghost from_gives = { λ _ e. e ≡ Memory };

    fn from(_: AllocError) -> LinkFault {
        LinkFault::Memory
    }
}

// One check of a relocation: where it fails, its number and the relocation's place.
pub(crate) fn check(fails: bool, number: u8, reloc: &Reloc) -> Result<(), LinkFault>
    ensures { result ≡ checked (fault_at fails number reloc.now) }
{
    if fails {
        return Err(LinkFault::Bad {
            number,
            section: reloc.section,
            offset: reloc.offset,
        });
    }
    Ok(())
}
