/// An instruction of RV32IM.
///
/// The fields are those of the registers rd, rs1 and rs2 that the instruction has, in this order, and then its
/// immediate or its shift amount. Registers are x0 to x31 by their number; shift amounts are below 32. An immediate
/// is the signed number of its format: a multiple of 4096 for U, a multiple of 2 within 2^12 for B and within 2^20
/// for J, and within 2^11 for I and S.
///
/// Source: RISC-V unprivileged ISA, chapters RV32I and M, and the table of instruction listings.
#[derive(Clone, Copy)]
pub enum Insn {
    Lui(u8, i32),
    Auipc(u8, i32),
    Jal(u8, i32),
    Jalr(u8, u8, i32),
    Beq(u8, u8, i32),
    Bne(u8, u8, i32),
    Blt(u8, u8, i32),
    Bge(u8, u8, i32),
    Bltu(u8, u8, i32),
    Bgeu(u8, u8, i32),
    Lb(u8, u8, i32),
    Lh(u8, u8, i32),
    Lw(u8, u8, i32),
    Lbu(u8, u8, i32),
    Lhu(u8, u8, i32),
    /// The base address is in rs1, the data in rs2; so for the other stores.
    Sb(u8, u8, i32),
    Sh(u8, u8, i32),
    Sw(u8, u8, i32),
    Addi(u8, u8, i32),
    Slti(u8, u8, i32),
    Sltiu(u8, u8, i32),
    Xori(u8, u8, i32),
    Ori(u8, u8, i32),
    Andi(u8, u8, i32),
    Slli(u8, u8, u8),
    Srli(u8, u8, u8),
    Srai(u8, u8, u8),
    Add(u8, u8, u8),
    Sub(u8, u8, u8),
    Sll(u8, u8, u8),
    Slt(u8, u8, u8),
    Sltu(u8, u8, u8),
    Xor(u8, u8, u8),
    Srl(u8, u8, u8),
    Sra(u8, u8, u8),
    Or(u8, u8, u8),
    And(u8, u8, u8),
    Mul(u8, u8, u8),
    Mulh(u8, u8, u8),
    Mulhsu(u8, u8, u8),
    Mulhu(u8, u8, u8),
    Div(u8, u8, u8),
    Divu(u8, u8, u8),
    Rem(u8, u8, u8),
    Remu(u8, u8, u8),
    /// The word with its bits 0 to 6 (opcode) and 12 to 14 (funct3) set to 0: the fence's mode, its sets of
    /// accesses, and the two register fields, which are reserved and ignored.
    Fence(u32),
    Ecall,
    Ebreak,
}
