// The bytes of objects.
ghost use Rattle.std.specs.Prelude.{◌≡◌, ◌+◌, ◌*◌, ◌<◌, ◌^◌, ◌++◌, All, IfOk, OnOk, length};
ghost use Rattle.std.specs.List.{flat_map};
ghost use Rattle.rt_make.specs.Packed.{file_header, reloc_entry, symbol_entry, symbol_entries, string_table};
ghost use Rattle.rt_make.specs.Packed.{section_header, section_headers, packed, object_length, FitsSymbol, FitsReloc};

use crate::layout::{Layout, NULL_SECTION};
use crate::numbers::{push_halves, push_words, push_zeros};
use crate::strings::{name_place, string_length, string_table};
use rt_base::Memory;
use rt_elf::{Reloc, Section, Symbol};
use std::alloc::Global;

#[tactic(auto, unfolding(crate::specs::Packed::file_header))]
fn push_file_header(out: &mut Vec<u8>, headers_place: u32) -> Result<(), Memory>
    ensures { OnOk result (out.new.items ≡ out.old.items ++ file_header headers_place) }
{
    push_words(out, &[0x464C457F, 0x00010101, 0, 0])?;
    push_halves(out, &[1, 243])?;
    push_words(out, &[1, 0, 0, headers_place, 0])?;
    push_halves(out, &[52, 0, 0, 40, 5, 3])
}

#[tactic(auto, unfolding(crate::specs::Packed::reloc_entry))]
fn push_reloc(out: &mut Vec<u8>, reloc: &Reloc) -> Result<(), Memory>
    requires { FitsReloc reloc.now }
    ensures { OnOk result (out.new.items ≡ out.old.items ++ reloc_entry reloc.now) }
{
    let info = 256 * reloc.symbol + reloc.kind as u32;
    push_words(out, &[reloc.offset, info, reloc.addend.cast_unsigned()])
}

fn push_relocs(out: &mut Vec<u8>, relocs: &[Reloc]) -> Result<(), Memory>
    requires { All FitsReloc relocs.now }
    ensures { OnOk result (out.new.items ≡ out.old.items ++ flat_map reloc_entry relocs.now) }
{
    for reloc in relocs {
        push_reloc(out, reloc)?;
    }
    Ok(())
}

#[tactic(auto, unfolding(crate::specs::Packed::symbol_entry, crate::specs::Packed::half_bytes))]
fn push_symbol(out: &mut Vec<u8>, name_place: u32, symbol: &Symbol) -> Result<(), Memory>
    requires { FitsSymbol symbol.now }
    ensures { OnOk result (out.new.items ≡ out.old.items ++ symbol_entry name_place symbol.now) }
{
    push_words(out, &[name_place, symbol.value, symbol.size])?;
    out.extend_from_slice(&[16 * symbol.bind + symbol.kind, 0])?;
    out.extend_from_slice(&symbol.section.to_le_bytes())?;
    Ok(())
}

// Appends symbols whose names stand in the string table after its first byte.
fn push_symbols(out: &mut Vec<u8>, symbols: &[Symbol]) -> Result<(), Memory>
    requires fits { All FitsSymbol symbols.now }
    requires room { length (string_table symbols.now) < 2 ^ 32 }
    ensures { OnOk result (out.new.items ≡ out.old.items ++ symbol_entries 1 symbols.now) }
{
    let mut at = 1;
    for symbol in symbols {
        let name = symbol.name.items();
        push_symbol(out, name_place(at, name), symbol)?;
        at += string_length(name) as u32;
    }
    Ok(())
}

#[tactic(auto, unfolding(crate::specs::Packed::section_header))]
fn push_section_header(
    out: &mut Vec<u8>,
    section: Section,
    align: u32,
    entry: u32,
) -> Result<(), Memory>
    ensures { OnOk result (out.new.items ≡ out.old.items ++ section_header section align entry) }
{
    push_words(
        out,
        &[
            0,
            section.kind,
            section.flags,
            0,
            section.offset,
            section.size,
            section.link,
            section.info,
            align,
            entry,
        ],
    )
}

#[tactic(auto, unfolding(crate::specs::Packed::section_headers))]
fn push_section_headers(out: &mut Vec<u8>, layout: &Layout) -> Result<(), Memory>
    ensures { OnOk result (out.new.items ≡ out.old.items ++
        section_headers layout.now.words layout.now.relocs layout.now.symbols layout.now.strings) }
{
    push_section_header(out, NULL_SECTION, 0, 0)?;
    push_section_header(out, layout.code_section(), 4, 0)?;
    push_section_header(out, layout.symbol_section(), 4, 16)?;
    push_section_header(out, layout.string_section(), 1, 0)?;
    push_section_header(out, layout.reloc_section(), 4, 12)
}

/// The bytes of a relocatable object (ELF gABI, "Object Files"): the file header; the code; the relocations, all of
/// the code; the symbol table, with a zero symbol before the given ones; the string table, with each name that isn't
/// empty, in order; zero bytes up to a multiple of 4; and five section headers, SHT_NULL, the code, the symbol table,
/// the string table and the relocations. The sections of the given relocations aren't looked at. The error is out of
/// memory.
///
/// Conditions: the object's length is below 2^32, each relocation's symbol is below 2^24, and each symbol's binding and
/// type are below 16.
#[tactic(auto, unfolding(crate::specs::Packed::packed, crate::specs::Packed::packed_parts))]
pub fn pack(
    alloc: Global,
    code: &[u32],
    symbols: &[Symbol],
    relocs: &[Reloc],
) -> Result<Vec<u8>, Memory>
    requires room { object_length code.now symbols.now relocs.now < 2 ^ 32 }
    requires symbols_fit { All FitsSymbol symbols.now }
    requires relocs_fit { All FitsReloc relocs.now }
    ensures packed { IfOk result (λ object. object.items ≡ packed code.now symbols.now relocs.now) }
    ensures len { IfOk result (λ object. length object.items ≡ object_length code.now symbols.now relocs.now) }
{
    let strings = string_table(alloc, symbols)?;
    let layout = Layout {
        words: code.len() as u32,
        relocs: relocs.len() as u32,
        symbols: symbols.len() as u32 + 1,
        strings: strings.len() as u32,
    };
    let mut out = Vec::new(alloc);
    push_file_header(&mut out, layout.headers_place())?;
    push_words(&mut out, code)?;
    push_relocs(&mut out, relocs)?;
    push_symbol(&mut out, 0, &Symbol::zero(alloc)?)?;
    push_symbols(&mut out, symbols)?;
    out.extend_from_slice(&strings)?;
    push_zeros(&mut out, layout.padding())?;
    push_section_headers(&mut out, &layout)?;
    Ok(out)
}
