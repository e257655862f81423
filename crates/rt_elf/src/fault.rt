// Why an object can't be read.
ghost use Rattle.std.specs.Prelude.{◌≡◌, ◌<◌, ◌^◌};
ghost use Rattle.rt_base.specs.First.{fault_if};
ghost use Rattle.rt_elf.specs.Faults.{checked};
ghost use Rattle.rt_elf.specs.declared.fault.ElfFault.TheVariants.{Memory};

use std::alloc::AllocError;

/// Why an object can't be read: a number and a place of the file, or out of memory. The sections' names are those
/// of the ELF gABI, and the places are byte offsets in the file.
///
/// - 16 at 16777216: the file is longer than 16,777,216 bytes.
/// - 1 at the file's length: it is shorter than the file header, of 52 bytes.
/// - 2 at 0: it doesn't begin with the bytes 7F 45 4C 46 ("ELF Identification").
/// - 3 at 4, 4 at 5: it isn't of class ELFCLASS32, not of the encoding ELFDATA2LSB.
/// - 5 at 16, 6 at 18: e_type isn't ET_REL, e_machine isn't EM_RISCV.
/// - 7 at 36: e_flags has a bit of EF_RISCV_RVC, EF_RISCV_FLOAT_ABI or EF_RISCV_RVE (RISC-V psABI, "File Header").
/// - 8 at 46, 48 or 32: the section headers aren't of 40 bytes, are none, or aren't all in the file.
/// - 9 at sh_offset: a section's bytes aren't all in the file.
/// - 15 at sh_flags: a section is compressed (SHF_COMPRESSED).
/// - 10: there is a second symbol table, at its header; or at its field, the first one's entries aren't of 16 bytes,
///   don't fill it, or its link is no string table.
/// - 11 at the symbol: its name has no end in the string table.
/// - 12 at st_shndx: there is no such section.
/// - 13 at the field: relocations are of no section (sh_info); those of code are without addends (sh_type, SHT_REL);
///   or those with addends (SHT_RELA) of code or data aren't of 12 bytes (sh_entsize), don't fill their section
///   (sh_size), or aren't about the symbol table (sh_link).
/// - 14 at r_info: there is no such symbol.
#[derive(Clone, Copy, Debug)]
pub enum ElfFault {
    Bad { number: u8, offset: u32 },
    Memory,
}

impl From<AllocError> for ElfFault {
    ghost from_gives = { λ _ e. e ≡ Memory };

    fn from(_: AllocError) -> ElfFault {
        ElfFault::Memory
    }
}

// One check: where it fails, its number and its place.
pub(crate) fn check(fails: bool, number: u8, offset: usize) -> Result<(), ElfFault>
    requires { offset < 2 ^ 32 }
    ensures { result ≡ checked (fault_if fails (ElfFault.Bad number offset)) }
{
    if fails {
        return Err(ElfFault::Bad {
            number,
            offset: offset as u32,
        });
    }
    Ok(())
}
