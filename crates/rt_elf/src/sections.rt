// The sections of a file.
ghost use Rattle.std.specs.Prelude.{◌≡◌, ◌+◌, ◌<◌, ◌≤◌, IfErr, IfOk, OnOk, None, length};
ghost use Rattle.rt_elf.specs.Faults.{checked, IsFaultOf};
ghost use Rattle.rt_elf.specs.Header.{header_place, section_count, HasTable};
ghost use Rattle.rt_elf.specs.Sections.{section_at, section_by, sections_of, has_bytes};
ghost use Rattle.rt_elf.specs.Sections.{is_code_section, is_data_section, is_compressed};
ghost use Rattle.rt_elf.specs.Sections.{section_fault, sections_fault, is_kind_at, bytes_of, AreWithin};

use crate::fault::{ElfFault, check};
use crate::field::word_at;
use crate::header::{header_place, section_count};
use crate::section::{Section, Sections};
use crate::section_type::{NOBITS, NULL, PROGBITS};
use rt_base::Sequence;
use std::alloc::Global;

// The section header at a place.
fn section_at(bytes: &[u8], place: usize) -> Section
    requires { place + 40 ≤ length bytes.now }
    ensures { result ≡ section_at bytes.now place }
{
    Section {
        kind: word_at(bytes, place + 4),
        flags: word_at(bytes, place + 8),
        offset: word_at(bytes, place + 16),
        size: word_at(bytes, place + 20),
        link: word_at(bytes, place + 24),
        info: word_at(bytes, place + 28),
    }
}

// The section of an index.
pub(crate) fn section_by(bytes: &[u8], index: usize) -> Section
    requires table { HasTable bytes.now }
    requires there { index < section_count bytes.now }
    ensures { result ≡ section_by bytes.now index }
{
    section_at(bytes, header_place(bytes, index))
}

// Whether a section's bytes are in the file: it is neither SHT_NULL nor SHT_NOBITS.
fn has_bytes(section: &Section) -> bool
    ensures { result ≡ has_bytes section.now }
{
    section.kind != NULL && section.kind != NOBITS
}

// Whether a section is executable: SHT_PROGBITS with SHF_EXECINSTR.
pub(crate) fn is_code_section(section: &Section) -> bool
    ensures { result ≡ is_code_section section.now }
{
    section.kind == PROGBITS && section.flags / 4 % 2 == 1
}

// Whether a section is of data: SHT_PROGBITS with SHF_ALLOC.
pub(crate) fn is_data_section(section: &Section) -> bool
    ensures { result ≡ is_data_section section.now }
{
    section.kind == PROGBITS && section.flags / 2 % 2 == 1
}

fn is_compressed(section: &Section) -> bool
    ensures { result ≡ is_compressed section.now }
{
    section.flags / 0x800 % 2 == 1
}

// The section header at a place.
#[tactic(auto, unfolding(crate::specs::Sections::section_fault))]
fn check_section(bytes: &[u8], place: usize) -> Result<(), ElfFault>
    requires there { place + 40 ≤ length bytes.now }
    requires short { length bytes.now ≤ 16777216 }
    ensures { result ≡ checked (section_fault bytes.now place) }
{
    let section = section_at(bytes, place);
    let end = section.offset as u64 + section.size as u64;
    check(
        has_bytes(&section) && end > bytes.len() as u64,
        9,
        place + 16,
    )?;
    check(is_compressed(&section), 15, place + 8)
}

// All sections.
pub(crate) fn read_sections(alloc: Global, bytes: &[u8]) -> Result<Sections, ElfFault>
    requires { HasTable bytes.now }
    ensures bad { IfErr result (IsFaultOf (sections_fault bytes.now)) }
    ensures none { OnOk result (sections_fault bytes.now ≡ None) }
    ensures found { IfOk result (λ sections. sections ≡ sections_of bytes.now) }
    ensures len { IfOk result (λ sections. length sections ≡ section_count bytes.now) }
    ensures few { IfOk result (λ sections. length sections < 65536) }
    ensures within { OnOk result (AreWithin bytes.now) }
{
    let count = section_count(bytes);
    let mut sections = Sequence::new(alloc);
    for index in 0..count {
        let place = header_place(bytes, index);
        check_section(bytes, place)?;
        sections.push(section_at(bytes, place))?;
    }
    Ok(sections)
}

// Whether an index is that of a section of a type.
pub(crate) fn is_kind_at(bytes: &[u8], kind: u32, index: usize) -> bool
    requires { HasTable bytes.now }
    ensures { result ≡ is_kind_at bytes.now kind index }
{
    index < section_count(bytes) && section_by(bytes, index).kind == kind
}

// The bytes of a section.
pub(crate) fn bytes_of<'a>(bytes: &'a [u8], section: &Section) -> &'a [u8]
    requires { section.now.offset + section.now.size ≤ length bytes.now }
    ensures { result.now ≡ bytes_of bytes.now section.now }
{
    let start = section.offset as usize;
    &bytes[start..start + section.size as usize]
}
