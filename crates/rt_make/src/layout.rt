// Where the parts of an object stand.
ghost use Rattle.std.specs.Prelude.{◌≡◌, ◌+◌, ◌-◌, ◌*◌, ◌<◌, ◌^◌};
ghost use Rattle.rt_make.specs.Layout.{symbols_place, strings_place, strings_end, headers_place};
ghost use Rattle.rt_make.specs.Layout.{code_section, symbol_section, string_section, reloc_section};

use rt_elf::Section;
use rt_elf::section_type::{NULL, PROGBITS, RELA, STRTAB, SYMTAB};

// The section of index 0.
pub(crate) const NULL_SECTION: Section = Section {
    kind: NULL,
    flags: 0,
    offset: 0,
    size: 0,
    link: 0,
    info: 0,
};

// How many code words, relocations and entries of the symbol table there are, and how long the string table is.
#[derive(Clone, Copy)]
pub(crate) struct Layout {
    pub(crate) words: u32,
    pub(crate) relocs: u32,
    pub(crate) symbols: u32,
    pub(crate) strings: u32,
    ghost fits: { 252 + 4 * words + 12 * relocs + 16 * symbols + strings < 2 ^ 32 },
}

impl Layout {
    fn symbols_place(&self) -> u32
        ensures { result ≡ symbols_place self.now.words self.now.relocs }
    {
        52 + 4 * self.words + 12 * self.relocs
    }

    fn strings_place(&self) -> u32
        ensures { result ≡ strings_place self.now.words self.now.relocs self.now.symbols }
    {
        self.symbols_place() + 16 * self.symbols
    }

    fn strings_end(&self) -> u32
        ensures { result ≡ strings_end self.now.words self.now.relocs self.now.symbols self.now.strings }
    {
        self.strings_place() + self.strings
    }

    pub(crate) fn headers_place(&self) -> u32
        ensures { result ≡ headers_place self.now.words self.now.relocs self.now.symbols self.now.strings }
    {
        (self.strings_end() + 3) / 4 * 4
    }

    // How many zero bytes stand before the section headers.
    pub(crate) fn padding(&self) -> u32
        ensures { result ≡ headers_place self.now.words self.now.relocs self.now.symbols self.now.strings
            - strings_end self.now.words self.now.relocs self.now.symbols self.now.strings }
    {
        self.headers_place() - self.strings_end()
    }

    pub(crate) fn code_section(&self) -> Section
        ensures { result ≡ code_section self.now.words }
    {
        Section {
            kind: PROGBITS,
            flags: 6,
            offset: 52,
            size: 4 * self.words,
            link: 0,
            info: 0,
        }
    }

    pub(crate) fn symbol_section(&self) -> Section
        ensures { result ≡ symbol_section self.now.words self.now.relocs self.now.symbols }
    {
        Section {
            kind: SYMTAB,
            flags: 0,
            offset: self.symbols_place(),
            size: 16 * self.symbols,
            link: 3,
            info: 1,
        }
    }

    pub(crate) fn string_section(&self) -> Section
        ensures { result ≡ string_section self.now.words self.now.relocs self.now.symbols self.now.strings }
    {
        Section {
            kind: STRTAB,
            flags: 0,
            offset: self.strings_place(),
            size: self.strings,
            link: 0,
            info: 0,
        }
    }

    pub(crate) fn reloc_section(&self) -> Section
        ensures { result ≡ reloc_section self.now.words self.now.relocs }
    {
        Section {
            kind: RELA,
            flags: 0,
            offset: 52 + 4 * self.words,
            size: 12 * self.relocs,
            link: 2,
            info: 1,
        }
    }
}
