// Objects from bytes.
ghost use Rattle.std.specs.Prelude.{◌≡◌, None, IfErr, IfOk, OnOk};
ghost use Rattle.rt_elf.specs.Checks.{first_fault};
ghost use Rattle.rt_elf.specs.Faults.{IsFaultOf};
ghost use Rattle.rt_elf.specs.Object.{IsObject, IsSound};

use crate::fault::ElfFault;
use crate::header::check_header;
use crate::object::Object;
use crate::relocs::relocs_of;
use crate::sections::read_sections;
use crate::symbols::{symbol_table, symbols_of};
use rt_base::Bytes;
use std::alloc::Global;

/// Reads a relocatable ELF32 object of RISC-V (ELF gABI, "Object Files"): its sections, its symbols, the relocations
/// with addends (SHT_RELA) of its code and its data (SHT_PROGBITS with SHF_ALLOC), and its bytes. Names of sections,
/// relocations without addends of data, and all else aren't read.
///
/// An error is the first check that fails: of the file header, of each section header, of the symbol table and each
/// symbol, and of each section of relocations, with each entry where it is read. [`ElfFault`] lists the checks with
/// their numbers and places.
///
/// Time and memory are linear in the length of the file and in the sum of the sizes of the sections of relocations that
/// are read: such sections may share bytes, and each has its own relocations. Names share the bytes of their table.
#[tactic(auto, unfolding(crate::specs::Checks::first_fault))]
pub fn read(alloc: Global, bytes: &[u8]) -> Result<Object, ElfFault>
    ensures bad { IfErr result (IsFaultOf (first_fault bytes.now)) }
    ensures none { OnOk result (first_fault bytes.now ≡ None) }
    ensures found { IfOk result (IsObject bytes.now) }
    ensures sound { IfOk result IsSound }
{
    check_header(bytes)?;
    let sections = read_sections(alloc, bytes)?;
    let table = symbol_table(sections.items());
    let symbols = symbols_of(alloc, bytes, sections.items())?;
    let relocs = relocs_of(alloc, bytes, table, symbols.len())?;
    let bytes = Bytes::from_vec(bytes.to_vec(alloc)?);
    Ok(Object {
        sections,
        symbols,
        relocs,
        bytes,
    })
}
