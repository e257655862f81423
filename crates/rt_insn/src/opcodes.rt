// The values of bits 0 to 6, by the names of the ISA's map of base opcodes.

pub const LUI: u8 = 0x37;

pub const AUIPC: u8 = 0x17;

pub const JAL: u8 = 0x6f;

pub const JALR: u8 = 0x67;

pub const BRANCH: u8 = 0x63;

pub const LOAD: u8 = 0x03;

pub const STORE: u8 = 0x23;

pub const OP_IMM: u8 = 0x13;

pub const OP: u8 = 0x33;

pub const MISC_MEM: u8 = 0x0f;

pub const SYSTEM: u8 = 0x73;

// The two instructions of SYSTEM that RV32I has are each one word.
pub const ECALL_WORD: u32 = 0x0000_0073;

pub const EBREAK_WORD: u32 = 0x0010_0073;
