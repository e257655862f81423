//! The numbers of sections that stand for none (ELF gABI, "Special Section Indexes").

/// SHN_UNDEF: the symbol isn't defined here (ELF gABI, "Special Section Indexes").
pub const UNDEFINED: u16 = 0;

/// SHN_ABS: the symbol's value is absolute (ELF gABI, "Special Section Indexes").
pub const ABSOLUTE: u16 = 0xFFF1;

/// SHN_COMMON: the symbol is a common block that isn't yet allocated (ELF gABI, "Special Section Indexes").
pub const COMMON: u16 = 0xFFF2;
