//! The types of sections that are told apart here, sh_type (ELF gABI, "Sections").

/// SHT_NULL: no section (ELF gABI, "Sections").
pub const NULL: u32 = 0;

/// SHT_PROGBITS: code or data of the program (ELF gABI, "Sections").
pub const PROGBITS: u32 = 1;

/// SHT_SYMTAB: the symbol table (ELF gABI, "Symbol Table").
pub const SYMTAB: u32 = 2;

/// SHT_STRTAB: a string table (ELF gABI, "String Table").
pub const STRTAB: u32 = 3;

/// SHT_RELA: relocations with addends (ELF gABI, "Relocation").
pub const RELA: u32 = 4;

/// SHT_NOBITS: a section without bytes in the file (ELF gABI, "Sections").
pub const NOBITS: u32 = 8;

/// SHT_REL: relocations without addends (ELF gABI, "Relocation").
pub const REL: u32 = 9;
