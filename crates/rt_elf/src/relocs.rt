// The relocations of a file.
ghost use Rattle.std.specs.Prelude.{◌≡◌, ◌+◌, ◌*◌, ◌/◌, ◌<◌, ◌≤◌, ◌++◌, IfErr, IfOk, OnOk, IsTrue, Option, None, length};
ghost use Rattle.rt_base.specs.First.{first_each};
ghost use Rattle.rt_elf.specs.Faults.{checked, IsFaultOf};
ghost use Rattle.rt_elf.specs.Header.{header_place, section_count, HasTable};
ghost use Rattle.rt_elf.specs.Sections.{section_by, AreWithin};
ghost use Rattle.rt_elf.specs.Relocs.{is_reloc_section, is_index, lacks_addends, is_read, reloc_at};
ghost use Rattle.rt_elf.specs.Relocs.{reloc_fault, relocs_fault, section_relocs, reloc_header_fault};
ghost use Rattle.rt_elf.specs.Relocs.{reloc_section_fault, reloc_part_fault, reloc_part, relocs_of};

use crate::fault::{ElfFault, check};
use crate::field::word_at;
use crate::header::{header_place, section_count};
use crate::reloc::{Reloc, Relocs};
use crate::section::Section;
use crate::section_type::{REL, RELA};
use crate::sections::{is_code_section, is_data_section, section_by};
use rt_base::Sequence;
use std::alloc::Global;

// Whether a section is of relocations: SHT_RELA or SHT_REL.
fn is_reloc_section(section: &Section) -> bool
    ensures { result ≡ is_reloc_section section.now }
{
    section.kind == RELA || section.kind == REL
}

// Whether a section of relocations is of SHT_REL, without addends, and about code.
fn lacks_addends(bytes: &[u8], section: &Section) -> bool
    requires table { HasTable bytes.now }
    requires about { section.now.info < section_count bytes.now }
    ensures { result ≡ lacks_addends bytes.now section.now }
{
    section.kind == REL && is_code_section(&section_by(bytes, section.info as usize))
}

// Whether a section of relocations is of SHT_RELA, and about code or data.
fn is_read(bytes: &[u8], section: &Section) -> bool
    requires table { HasTable bytes.now }
    requires about { section.now.info < section_count bytes.now }
    ensures read { result ≡ is_read bytes.now section.now }
    ensures kind { IsTrue result → section.now.kind ≡ 4 }
{
    let about = section_by(bytes, section.info as usize);
    section.kind == RELA && (is_code_section(&about) || is_data_section(&about))
}

// Whether an index is that of the symbol table.
fn is_index(index: u32, table: Option<usize>) -> bool
    ensures { result ≡ is_index index table }
{
    match table {
        Some(table) => index as usize == table,
        None => false,
    }
}

// The relocation at a place, of a section.
fn reloc_at(bytes: &[u8], section: u16, place: usize) -> Reloc
    requires { place + 12 ≤ length bytes.now }
    ensures { result ≡ reloc_at bytes.now section place }
{
    let info = word_at(bytes, place + 4);
    Reloc {
        section,
        offset: word_at(bytes, place),
        kind: (info % 256) as u8,
        symbol: info / 256,
        addend: word_at(bytes, place + 8).cast_signed(),
    }
}

// The header of relocations that are read.
#[tactic(auto, unfolding(crate::specs::Relocs::reloc_header_fault))]
fn check_reloc_header(bytes: &[u8], table: Option<usize>, index: usize) -> Result<(), ElfFault>
    requires table { HasTable bytes.now }
    requires there { index < section_count bytes.now }
    ensures { result ≡ checked (reloc_header_fault bytes.now table index) }
{
    let place = header_place(bytes, index);
    let section = section_by(bytes, index);
    check(word_at(bytes, place + 36) != 12, 13, place + 36)?;
    check(section.size % 12 != 0, 13, place + 20)?;
    check(!is_index(section.link, table), 13, place + 24)
}

// The relocation at a place, where there are so many symbols.
fn check_reloc(bytes: &[u8], symbols: usize, place: usize) -> Result<(), ElfFault>
    requires there { place + 12 ≤ length bytes.now }
    requires short { length bytes.now ≤ 16777216 }
    ensures { result ≡ checked (reloc_fault bytes.now symbols place) }
{
    let symbol = word_at(bytes, place + 4) / 256;
    check(symbol as usize >= symbols, 14, place + 4)
}

// Adds the relocations of a section, where there are so many symbols.
fn read_relocs(
    bytes: &[u8],
    symbols: usize,
    section: &Section,
    relocs: &mut Relocs,
) -> Result<(), ElfFault>
    requires within { section.now.offset + section.now.size ≤ length bytes.now }
    requires short { length bytes.now ≤ 16777216 }
    requires info { section.now.info < 65536 }
    ensures bad { IfErr result (IsFaultOf (relocs_fault bytes.now symbols section.now)) }
    ensures none { OnOk result (relocs_fault bytes.now symbols section.now ≡ None) }
    ensures found { OnOk result (relocs.new ≡ relocs.old ++ section_relocs bytes.now section.now) }
{
    let count = section.size as usize / 12;
    for index in 0..count {
        let place = section.offset as usize + 12 * index;
        check_reloc(bytes, symbols, place)?;
        relocs.push(reloc_at(bytes, section.info as u16, place))?;
    }
    Ok(())
}

// Adds the relocations of the section of an index, if it is of relocations that are read.
#[tactic(auto, unfolding(crate::specs::Relocs::reloc_section_fault))]
fn read_reloc_section(
    bytes: &[u8],
    table: Option<usize>,
    symbols: usize,
    index: usize,
    relocs: &mut Relocs,
) -> Result<(), ElfFault>
    requires table { HasTable bytes.now }
    requires there { index < section_count bytes.now }
    requires within { AreWithin bytes.now }
    ensures bad { IfErr result (IsFaultOf (reloc_part_fault bytes.now table symbols index)) }
    ensures none { OnOk result (reloc_part_fault bytes.now table symbols index ≡ None) }
    ensures found { OnOk result (relocs.new ≡ relocs.old ++ reloc_part bytes.now index) }
{
    let section = section_by(bytes, index);
    if !is_reloc_section(&section) {
        return Ok(());
    }
    let place = header_place(bytes, index);
    check(
        section.info as usize >= section_count(bytes),
        13,
        place + 28,
    )?;
    check(lacks_addends(bytes, &section), 13, place + 4)?;
    if !is_read(bytes, &section) {
        return Ok(());
    }
    check_reloc_header(bytes, table, index)?;
    read_relocs(bytes, symbols, &section, relocs)
}

// All relocations of code and of data.
pub(crate) fn relocs_of(
    alloc: Global,
    bytes: &[u8],
    table: Option<usize>,
    symbols: usize,
) -> Result<Relocs, ElfFault>
    requires table { HasTable bytes.now }
    requires within { AreWithin bytes.now }
    ensures bad { IfErr result (IsFaultOf (first_each (reloc_part_fault bytes.now table symbols) 0 (section_count bytes.now))) }
    ensures none { OnOk result (first_each (reloc_part_fault bytes.now table symbols) 0 (section_count bytes.now) ≡ None) }
    ensures found { IfOk result (λ relocs. relocs ≡ relocs_of bytes.now) }
{
    let count = section_count(bytes);
    let mut relocs = Sequence::new(alloc);
    for index in 0..count {
        read_reloc_section(bytes, table, symbols, index, &mut relocs)?;
    }
    Ok(relocs)
}
