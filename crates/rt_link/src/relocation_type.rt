//! The types of relocations that are known, by the names of the psABI (RISC-V psABI, "Relocations", the table of
//! relocation types).

/// No relocation (RISC-V psABI, "Relocations").
pub const R_RISCV_NONE: u8 = 0;

/// A word of data that is an address (RISC-V psABI, "Relocations").
pub const R_RISCV_32: u8 = 1;

/// The target of a branch (RISC-V psABI, "Relocations").
pub const R_RISCV_BRANCH: u8 = 16;

/// The target of a JAL (RISC-V psABI, "Relocations").
pub const R_RISCV_JAL: u8 = 17;

/// The target of a far call, of AUIPC and JALR (RISC-V psABI, "Relocations").
pub const R_RISCV_CALL: u8 = 18;

/// The same (RISC-V psABI, "Relocations").
pub const R_RISCV_CALL_PLT: u8 = 19;

/// The high bits of an address by its distance (RISC-V psABI, "PC-Relative Symbol Addresses").
pub const R_RISCV_PCREL_HI20: u8 = 23;

/// Its low bits, in a load or an addition (RISC-V psABI, "PC-Relative Symbol Addresses").
pub const R_RISCV_PCREL_LO12_I: u8 = 24;

/// Its low bits, in a store (RISC-V psABI, "PC-Relative Symbol Addresses").
pub const R_RISCV_PCREL_LO12_S: u8 = 25;

/// The high bits of an absolute address (RISC-V psABI, "Absolute Addresses").
pub const R_RISCV_HI20: u8 = 26;

/// Its low bits, in a load or an addition (RISC-V psABI, "Absolute Addresses").
pub const R_RISCV_LO12_I: u8 = 27;

/// Its low bits, in a store (RISC-V psABI, "Absolute Addresses").
pub const R_RISCV_LO12_S: u8 = 28;

/// Bytes that a linker may delete to align what follows (RISC-V psABI, "Relocations").
pub const R_RISCV_ALIGN: u8 = 43;

/// A pair that a linker may relax (RISC-V psABI, "Relocations", "Linker Relaxation").
pub const R_RISCV_RELAX: u8 = 51;
