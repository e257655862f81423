ghost use Rattle.std.specs.Prelude.{◌≡◌, ◌≤◌, ◌<◌, ◌^◌, pos, ◌+ℤ◌, ◌≤ℤ◌, ◌<ℤ◌};
ghost use Rattle.rt_insn.specs.Format.{IsU, IsJ, IsI, IsS, IsB, IsR};
ghost use Rattle.rt_insn.specs.Table.{IsCode};
ghost use Rattle.rt_insn.specs.Range.{HasRange, IsUpper, IsJump, IsBranch, IsShort};

use crate::fields::bits;
use crate::insn::Insn;
use crate::opcodes;

/// The word of the instruction.
///
/// Its registers and its shift amount are below 32, its immediate is one of its format, and the number of a fence has
/// the zero bits that [`Insn::Fence`] says.
///
/// Source: RISC-V unprivileged ISA, chapters RV32I and M, and the table of instruction listings.
pub fn encode(insn: &Insn) -> u32
    requires { HasRange insn.now }
    ensures { IsCode result insn.now }
{
    match *insn {
        Insn::Lui(rd, imm) => word_u(opcodes::LUI, rd, imm),
        Insn::Auipc(rd, imm) => word_u(opcodes::AUIPC, rd, imm),
        Insn::Jal(rd, imm) => word_j(opcodes::JAL, rd, imm),
        Insn::Jalr(rd, rs1, imm) => word_i(opcodes::JALR, 0, rd, rs1, imm),
        Insn::Beq(rs1, rs2, imm) => word_b(opcodes::BRANCH, 0, rs1, rs2, imm),
        Insn::Bne(rs1, rs2, imm) => word_b(opcodes::BRANCH, 1, rs1, rs2, imm),
        Insn::Blt(rs1, rs2, imm) => word_b(opcodes::BRANCH, 4, rs1, rs2, imm),
        Insn::Bge(rs1, rs2, imm) => word_b(opcodes::BRANCH, 5, rs1, rs2, imm),
        Insn::Bltu(rs1, rs2, imm) => word_b(opcodes::BRANCH, 6, rs1, rs2, imm),
        Insn::Bgeu(rs1, rs2, imm) => word_b(opcodes::BRANCH, 7, rs1, rs2, imm),
        Insn::Lb(rd, rs1, imm) => word_i(opcodes::LOAD, 0, rd, rs1, imm),
        Insn::Lh(rd, rs1, imm) => word_i(opcodes::LOAD, 1, rd, rs1, imm),
        Insn::Lw(rd, rs1, imm) => word_i(opcodes::LOAD, 2, rd, rs1, imm),
        Insn::Lbu(rd, rs1, imm) => word_i(opcodes::LOAD, 4, rd, rs1, imm),
        Insn::Lhu(rd, rs1, imm) => word_i(opcodes::LOAD, 5, rd, rs1, imm),
        Insn::Sb(rs1, rs2, imm) => word_s(opcodes::STORE, 0, rs1, rs2, imm),
        Insn::Sh(rs1, rs2, imm) => word_s(opcodes::STORE, 1, rs1, rs2, imm),
        Insn::Sw(rs1, rs2, imm) => word_s(opcodes::STORE, 2, rs1, rs2, imm),
        Insn::Addi(rd, rs1, imm) => word_i(opcodes::OP_IMM, 0, rd, rs1, imm),
        Insn::Slti(rd, rs1, imm) => word_i(opcodes::OP_IMM, 2, rd, rs1, imm),
        Insn::Sltiu(rd, rs1, imm) => word_i(opcodes::OP_IMM, 3, rd, rs1, imm),
        Insn::Xori(rd, rs1, imm) => word_i(opcodes::OP_IMM, 4, rd, rs1, imm),
        Insn::Ori(rd, rs1, imm) => word_i(opcodes::OP_IMM, 6, rd, rs1, imm),
        Insn::Andi(rd, rs1, imm) => word_i(opcodes::OP_IMM, 7, rd, rs1, imm),
        Insn::Slli(rd, rs1, amount) => word_r(opcodes::OP_IMM, 1, 0x00, rd, rs1, amount),
        Insn::Srli(rd, rs1, amount) => word_r(opcodes::OP_IMM, 5, 0x00, rd, rs1, amount),
        Insn::Srai(rd, rs1, amount) => word_r(opcodes::OP_IMM, 5, 0x20, rd, rs1, amount),
        Insn::Add(rd, rs1, rs2) => word_r(opcodes::OP, 0, 0x00, rd, rs1, rs2),
        Insn::Sub(rd, rs1, rs2) => word_r(opcodes::OP, 0, 0x20, rd, rs1, rs2),
        Insn::Sll(rd, rs1, rs2) => word_r(opcodes::OP, 1, 0x00, rd, rs1, rs2),
        Insn::Slt(rd, rs1, rs2) => word_r(opcodes::OP, 2, 0x00, rd, rs1, rs2),
        Insn::Sltu(rd, rs1, rs2) => word_r(opcodes::OP, 3, 0x00, rd, rs1, rs2),
        Insn::Xor(rd, rs1, rs2) => word_r(opcodes::OP, 4, 0x00, rd, rs1, rs2),
        Insn::Srl(rd, rs1, rs2) => word_r(opcodes::OP, 5, 0x00, rd, rs1, rs2),
        Insn::Sra(rd, rs1, rs2) => word_r(opcodes::OP, 5, 0x20, rd, rs1, rs2),
        Insn::Or(rd, rs1, rs2) => word_r(opcodes::OP, 6, 0x00, rd, rs1, rs2),
        Insn::And(rd, rs1, rs2) => word_r(opcodes::OP, 7, 0x00, rd, rs1, rs2),
        Insn::Mul(rd, rs1, rs2) => word_r(opcodes::OP, 0, 0x01, rd, rs1, rs2),
        Insn::Mulh(rd, rs1, rs2) => word_r(opcodes::OP, 1, 0x01, rd, rs1, rs2),
        Insn::Mulhsu(rd, rs1, rs2) => word_r(opcodes::OP, 2, 0x01, rd, rs1, rs2),
        Insn::Mulhu(rd, rs1, rs2) => word_r(opcodes::OP, 3, 0x01, rd, rs1, rs2),
        Insn::Div(rd, rs1, rs2) => word_r(opcodes::OP, 4, 0x01, rd, rs1, rs2),
        Insn::Divu(rd, rs1, rs2) => word_r(opcodes::OP, 5, 0x01, rd, rs1, rs2),
        Insn::Rem(rd, rs1, rs2) => word_r(opcodes::OP, 6, 0x01, rd, rs1, rs2),
        Insn::Remu(rd, rs1, rs2) => word_r(opcodes::OP, 7, 0x01, rd, rs1, rs2),
        Insn::Fence(kept) => kept + u32::from(opcodes::MISC_MEM),
        Insn::Ecall => opcodes::ECALL_WORD,
        Insn::Ebreak => opcodes::EBREAK_WORD,
    }
}

// A function for each format: the fields side by side. They don't overlap, so the word is their sum.

fn word_u(opcode: u8, rd: u8, imm: i32) -> u32
    requires opcode_fits { opcode < 2 ^ 7 }
    requires rd_fits { rd < 2 ^ 5 }
    requires imm_fits { IsUpper imm }
    ensures { IsU opcode result rd imm }
{
    twos_complement(imm) + (u32::from(rd) << 7) + u32::from(opcode)
}

fn word_j(opcode: u8, rd: u8, imm: i32) -> u32
    requires opcode_fits { opcode < 2 ^ 7 }
    requires rd_fits { rd < 2 ^ 5 }
    requires imm_fits { IsJump imm }
    ensures { IsJ opcode result rd imm }
{
    let imm = twos_complement(imm);
    (bits(imm, 31, 1) << 31)
        + (bits(imm, 1, 10) << 21)
        + (bits(imm, 11, 1) << 20)
        + (bits(imm, 12, 8) << 12)
        + (u32::from(rd) << 7)
        + u32::from(opcode)
}

fn word_i(opcode: u8, funct3: u8, rd: u8, rs1: u8, imm: i32) -> u32
    requires opcode_fits { opcode < 2 ^ 7 }
    requires funct3_fits { funct3 < 2 ^ 3 }
    requires rd_fits { rd < 2 ^ 5 }
    requires rs1_fits { rs1 < 2 ^ 5 }
    requires imm_fits { IsShort imm }
    ensures { IsI opcode funct3 result rd rs1 imm }
{
    let imm = twos_complement(imm);
    (bits(imm, 0, 12) << 20)
        + (u32::from(rs1) << 15)
        + (u32::from(funct3) << 12)
        + (u32::from(rd) << 7)
        + u32::from(opcode)
}

fn word_s(opcode: u8, funct3: u8, rs1: u8, rs2: u8, imm: i32) -> u32
    requires opcode_fits { opcode < 2 ^ 7 }
    requires funct3_fits { funct3 < 2 ^ 3 }
    requires rs1_fits { rs1 < 2 ^ 5 }
    requires rs2_fits { rs2 < 2 ^ 5 }
    requires imm_fits { IsShort imm }
    ensures { IsS opcode funct3 result rs1 rs2 imm }
{
    let imm = twos_complement(imm);
    (bits(imm, 5, 7) << 25)
        + (u32::from(rs2) << 20)
        + (u32::from(rs1) << 15)
        + (u32::from(funct3) << 12)
        + (bits(imm, 0, 5) << 7)
        + u32::from(opcode)
}

fn word_b(opcode: u8, funct3: u8, rs1: u8, rs2: u8, imm: i32) -> u32
    requires opcode_fits { opcode < 2 ^ 7 }
    requires funct3_fits { funct3 < 2 ^ 3 }
    requires rs1_fits { rs1 < 2 ^ 5 }
    requires rs2_fits { rs2 < 2 ^ 5 }
    requires imm_fits { IsBranch imm }
    ensures { IsB opcode funct3 result rs1 rs2 imm }
{
    let imm = twos_complement(imm);
    (bits(imm, 31, 1) << 31)
        + (bits(imm, 5, 6) << 25)
        + (u32::from(rs2) << 20)
        + (u32::from(rs1) << 15)
        + (u32::from(funct3) << 12)
        + (bits(imm, 1, 4) << 8)
        + (bits(imm, 11, 1) << 7)
        + u32::from(opcode)
}

fn word_r(opcode: u8, funct3: u8, funct7: u8, rd: u8, rs1: u8, rs2: u8) -> u32
    requires opcode_fits { opcode < 2 ^ 7 }
    requires funct3_fits { funct3 < 2 ^ 3 }
    requires funct7_fits { funct7 < 2 ^ 7 }
    requires rd_fits { rd < 2 ^ 5 }
    requires rs1_fits { rs1 < 2 ^ 5 }
    requires rs2_fits { rs2 < 2 ^ 5 }
    ensures { IsR opcode funct3 funct7 result rd rs1 rs2 }
{
    (u32::from(funct7) << 25)
        + (u32::from(rs2) << 20)
        + (u32::from(rs1) << 15)
        + (u32::from(funct3) << 12)
        + (u32::from(rd) << 7)
        + u32::from(opcode)
}

// The 32 bits of a signed number.
fn twos_complement(imm: i32) -> u32
    ensures positive { pos 0 ≤ℤ imm → pos result ≡ imm }
    ensures negative { imm <ℤ pos 0 → pos result ≡ imm +ℤ pos (2 ^ 32) }
{
    imm.cast_unsigned()
}
