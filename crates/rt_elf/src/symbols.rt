// The symbols of a file.
ghost use Rattle.std.specs.Prelude.{◌≡◌, ◌+◌, ◌*◌, ◌^◌, ◌<◌, ◌≤◌, IfErr, IfOk, OnOk, IsTrue, Option, None, length};
ghost use Rattle.rt_elf.specs.Faults.{checked, IsFaultOf};
ghost use Rattle.rt_elf.specs.Fields.{word_at};
ghost use Rattle.rt_elf.specs.Header.{header_place, section_count, HasTable};
ghost use Rattle.rt_elf.specs.Names.{EndsAt};
ghost use Rattle.rt_elf.specs.Sections.{section_by, sections_of, is_kind_at, AreWithin};
ghost use Rattle.rt_elf.specs.Symbols.{symbol_table, symbol_table_fault, symbol_at, symbol_fault};
ghost use Rattle.rt_elf.specs.Symbols.{symbols_fault, symbol_list, symbol_part_fault, symbol_part, is_section_index, is_special};

use crate::fault::{ElfFault, check};
use crate::field::{byte_at, half_at, word_at};
use crate::header::{header_place, section_count};
use crate::names::{Strings, end_of_names};
use crate::section::Section;
use crate::section_index::{ABSOLUTE, COMMON, UNDEFINED};
use crate::section_type::{STRTAB, SYMTAB};
use crate::sections::{bytes_of, is_kind_at, section_by};
use crate::symbol::{Symbol, Symbols};
use rt_base::Sequence;
use std::alloc::{AllocError, Global};

// The index of the first symbol table.
pub(crate) fn symbol_table(sections: &[Section]) -> Option<usize>
    ensures { result ≡ symbol_table sections.now }
{
    sections.iter().position(|section| section.kind == SYMTAB)
}

// The symbol table of an index, as a table.
#[tactic(auto, unfolding(crate::specs::Symbols::symbol_table_fault))]
fn check_symbol_table(bytes: &[u8], sections: &[Section], index: usize) -> Result<(), ElfFault>
    requires table { HasTable bytes.now }
    requires there { index < section_count bytes.now }
    requires len { length sections.now ≡ section_count bytes.now }
    ensures exact { result ≡ checked (symbol_table_fault bytes.now sections.now index) }
    ensures strings { OnOk result (IsTrue (is_kind_at bytes.now 3 (section_by bytes.now index).link)) }
{
    let place = header_place(bytes, index);
    let section = section_by(bytes, index);
    if let Some(later) = symbol_table(&sections[index + 1..]) {
        check(true, 10, header_place(bytes, index + 1 + later))?;
    }
    check(word_at(bytes, place + 36) != 16, 10, place + 36)?;
    check(section.size % 16 != 0, 10, place + 20)?;
    check(
        !is_kind_at(bytes, STRTAB, section.link as usize),
        10,
        place + 24,
    )
}

// Whether the number of a section stands for none: SHN_UNDEF, SHN_ABS or SHN_COMMON.
fn is_special(index: u16) -> bool
    ensures { result ≡ is_special index }
{
    index == UNDEFINED || index == ABSOLUTE || index == COMMON
}

// Whether a symbol may be of a section of an index: SHN_UNDEF, SHN_ABS, SHN_COMMON, or that of a section.
fn is_section_index(bytes: &[u8], index: u16) -> bool
    requires { 52 ≤ length bytes.now }
    ensures { result ≡ is_section_index bytes.now index }
{
    is_special(index) || (index as usize) < section_count(bytes)
}

// The symbol at a place, where the names that begin before a place have an end.
#[tactic(auto, unfolding(crate::specs::Symbols::symbol_fault))]
fn check_symbol(bytes: &[u8], strings: &[u8], end: usize, place: usize) -> Result<(), ElfFault>
    requires long { 52 ≤ length bytes.now }
    requires short { length bytes.now ≤ 16777216 }
    requires there { place + 16 ≤ length bytes.now }
    requires ends { EndsAt strings.now end }
    requires within { end ≤ length strings.now }
    ensures exact { result ≡ checked (symbol_fault bytes.now strings.now place) }
    ensures named { OnOk result (word_at bytes.now place ≤ length strings.now) }
{
    let name = word_at(bytes, place) as usize;
    check(name != 0 && name >= end, 11, place)?;
    check(
        !is_section_index(bytes, half_at(bytes, place + 14)),
        12,
        place + 14,
    )
}

// The symbol at a place.
fn symbol_at(bytes: &[u8], strings: &Strings, place: usize) -> Result<Symbol, AllocError>
    requires there { place + 16 ≤ length bytes.now }
    requires named { word_at bytes.now place ≤ length strings.now }
    ensures { IfOk result (λ symbol. symbol ≡ symbol_at bytes.now strings.now place) }
{
    let info = byte_at(bytes, place + 12);
    Ok(Symbol {
        name: strings.name_at(word_at(bytes, place) as usize)?,
        value: word_at(bytes, place + 4),
        size: word_at(bytes, place + 8),
        bind: info / 16,
        kind: info % 16,
        section: half_at(bytes, place + 14),
    })
}

// So many symbols from a place on.
fn read_symbols(
    alloc: Global,
    bytes: &[u8],
    strings: &[u8],
    place: usize,
    count: usize,
) -> Result<Symbols, ElfFault>
    requires long { 52 ≤ length bytes.now }
    requires short { length bytes.now ≤ 16777216 }
    requires there { place + 16 * count ≤ length bytes.now }
    requires named { length strings.now < 2 ^ 32 }
    ensures bad { IfErr result (IsFaultOf (symbols_fault bytes.now strings.now place count)) }
    ensures none { OnOk result (symbols_fault bytes.now strings.now place count ≡ None) }
    ensures found { IfOk result (λ symbols. symbols ≡ symbol_list bytes.now strings.now place count) }
    ensures few { IfOk result (λ symbols. length symbols ≤ length bytes.now) }
{
    let mut symbols = Sequence::new(alloc);
    if count == 0 {
        return Ok(symbols);
    }
    let end = end_of_names(strings);
    let names = Strings::new(alloc, strings)?;
    symbols.push(Symbol::zero(alloc)?)?;
    for index in 1..count {
        let at = place + 16 * index;
        check_symbol(bytes, strings, end, at)?;
        symbols.push(symbol_at(bytes, &names, at)?)?;
    }
    Ok(symbols)
}

// The symbols of the symbol table of an index.
fn symbols_of_table(
    alloc: Global,
    bytes: &[u8],
    sections: &[Section],
    index: usize,
) -> Result<Symbols, ElfFault>
    requires table { HasTable bytes.now }
    requires there { index < section_count bytes.now }
    requires len { length sections.now ≡ section_count bytes.now }
    requires within { AreWithin bytes.now }
    requires is_table { (section_by bytes.now index).kind ≡ 2 }
    ensures bad { IfErr result (IsFaultOf (symbol_part_fault bytes.now sections.now (Option.Some index))) }
    ensures none { OnOk result (symbol_part_fault bytes.now sections.now (Option.Some index) ≡ None) }
    ensures found { IfOk result (λ symbols. symbols ≡ symbol_part bytes.now (Option.Some index)) }
    ensures few { IfOk result (λ symbols. length symbols ≤ length bytes.now) }
{
    check_symbol_table(bytes, sections, index)?;
    let table = section_by(bytes, index);
    let strings = bytes_of(bytes, &section_by(bytes, table.link as usize));
    read_symbols(
        alloc,
        bytes,
        strings,
        table.offset as usize,
        table.size as usize / 16,
    )
}

// The symbols of the symbol table, if there is one.
pub(crate) fn symbols_of(
    alloc: Global,
    bytes: &[u8],
    sections: &[Section],
) -> Result<Symbols, ElfFault>
    requires table { HasTable bytes.now }
    requires sections { sections.now ≡ sections_of bytes.now }
    requires len { length sections.now ≡ section_count bytes.now }
    requires within { AreWithin bytes.now }
    ensures bad { IfErr result (IsFaultOf (symbol_part_fault bytes.now sections.now (symbol_table sections.now))) }
    ensures none { OnOk result (symbol_part_fault bytes.now sections.now (symbol_table sections.now) ≡ None) }
    ensures found { IfOk result (λ symbols. symbols ≡ symbol_part bytes.now (symbol_table sections.now)) }
    ensures few { IfOk result (λ symbols. length symbols ≤ length bytes.now) }
{
    match symbol_table(sections) {
        Some(index) => symbols_of_table(alloc, bytes, sections, index),
        None => Ok(Sequence::new(alloc)),
    }
}
