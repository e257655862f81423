// Objects.
ghost use Rattle.std.specs.Prelude.{◌≡◌, ◌+◌, ◌↔◌, IsSome, IfSome};
ghost use Rattle.rt_elf.specs.Fields.{word_at};
ghost use Rattle.rt_elf.specs.Object.{section_of, HasWord, IsSound};
ghost use Rattle.rt_elf.specs.Sections.{is_code_section, is_data_section};

use crate::field::word_at;
use crate::reloc::{Reloc, Relocs};
use crate::section::{Section, Sections};
use crate::sections::{is_code_section, is_data_section};
use crate::symbol::{Symbol, Symbols};
use rt_base::Bytes;
use std::marker::Model;

/// A relocatable object: its sections, its symbols, the relocations of its code and data, and the bytes of the file.
/// Contracts see it as the record of these parts.
///
/// Each object is sound: its sections of code lie in its bytes, its relocations are of its code and data and about its
/// symbols, each symbol is of one of its sections or of none (ELF gABI, "Special Section Indexes"), and the indices of
/// sections and symbols fit their types.
#[derive(Drop)]
pub struct Object {
    pub(crate) sections: Sections,
    pub(crate) symbols: Symbols,
    pub(crate) relocs: Relocs,
    pub(crate) bytes: Bytes,
}

impl Model for Object {
    ghost use Rattle.rt_elf.specs.Object.{IsSound};
    ghost use Rattle.rt_elf.specs.Parts.{Parts};

    ghost Value = { Parts };

    ghost view = { λ object. record {
      sections = object.sections;
      symbols = object.symbols;
      relocs = object.relocs;
      bytes = object.bytes;
    } };

    ghost invariant = { λ object. IsSound (record
        { sections = object.sections; symbols = object.symbols; relocs = object.relocs; bytes = object.bytes }) };
}

impl Object {
    /// The object of these parts.
    ///
    /// Condition: they are sound together, as those of each object are.
    pub fn of(sections: Sections, symbols: Symbols, relocs: Relocs, bytes: Bytes) -> Object
        requires { IsSound (record { sections = sections; symbols = symbols; relocs = relocs; bytes = bytes }) }
        ensures { result ≡ record { sections = sections; symbols = symbols; relocs = relocs; bytes = bytes } }
    {
        Object {
            sections,
            symbols,
            relocs,
            bytes,
        }
    }

    /// The sections, by their indices.
    pub fn sections(&self) -> &[Section]
        ensures sections { result.now ≡ self.now.sections }
        ensures sound { IsSound self.now }
    {
        self.sections.items()
    }

    /// The symbols, by their indices. The symbol of index 0 is all zero.
    pub fn symbols(&self) -> &[Symbol]
        ensures symbols { result.now ≡ self.now.symbols }
        ensures sound { IsSound self.now }
    {
        self.symbols.items()
    }

    /// The relocations of code and data, in the order of the file.
    pub fn relocs(&self) -> &[Reloc]
        ensures relocs { result.now ≡ self.now.relocs }
        ensures sound { IsSound self.now }
    {
        self.relocs.items()
    }

    /// The bytes of the file.
    pub fn bytes(&self) -> &[u8]
        ensures bytes { result.now ≡ self.now.bytes }
        ensures sound { IsSound self.now }
    {
        self.bytes.items()
    }

    /// Whether the section of an index is executable: SHT_PROGBITS (1) with SHF_EXECINSTR (4). An index with no
    /// section isn't.
    pub fn is_code(&self, section: u16) -> bool
        ensures { result ≡ is_code_section (section_of self.now section) }
    {
        match self.sections.items().get(section as usize) {
            Some(section) => is_code_section(section),
            None => false,
        }
    }

    /// Whether the section of an index is of data: SHT_PROGBITS (1) with SHF_ALLOC (2), be it executable or not. An
    /// index with no section isn't.
    pub fn is_data(&self, section: u16) -> bool
        ensures { result ≡ is_data_section (section_of self.now section) }
    {
        match self.sections.items().get(section as usize) {
            Some(section) => is_data_section(section),
            None => false,
        }
    }

    /// The little endian word at an offset of a section of code. There is none where the section isn't
    /// executable, the offset is no multiple of 4, or offset + 4 is over the section's size.
    pub fn word(&self, section: u16, offset: u32) -> Option<u32>
        ensures there { IsSome result ↔ HasWord self.now section offset }
        ensures value { IfSome result (λ w. w ≡ word_at self.now.bytes ((section_of self.now section).offset + offset)) }
        ensures sound { IsSound self.now }
    {
        let sections = self.sections();
        if !self.is_code(section) || offset % 4 != 0 {
            return None;
        }
        let section = sections.get(section as usize)?;
        if offset as u64 + 4 > section.size as u64 {
            return None;
        }
        Some(word_at(self.bytes(), section.offset as usize + offset as usize))
    }
}
