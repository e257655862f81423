ghost use Rattle.std.specs.Prelude.{◌≡◌, ◌↔◌, IfSome, IsNone};
ghost use Rattle.rt_insn.specs.Word.{field};
ghost use Rattle.rt_insn.specs.Table.{IsCode};
ghost use Rattle.rt_insn.specs.Range.{HasRange};
ghost use Rattle.rt_insn.specs.Inside.Reading.{jalr_of, branch_of, load_of, store_of, op_imm_of};
ghost use Rattle.rt_insn.specs.Inside.Reading.{shift_imm_of, op_of, fence_of, system_of, insn_of};
ghost use Rattle.rt_insn.specs.declared.insn.Insn.{Insn};

use crate::fields::{funct3, funct7, opcode, rd, rs1, rs2};
use crate::insn::Insn;
use crate::{immediates, opcodes};

/// The instruction that the word is, and None exactly where it is no instruction of RV32IM.
///
/// Source: RISC-V unprivileged ISA, chapters RV32I and M, and the table of instruction listings.
pub fn decode(word: u32) -> Option<Insn>
    ensures found { IfSome result (IsCode word) }
    ensures only { (i : Insn) → IsCode word i → result ≡ Some i }
    ensures none { IsNone result ↔ ((i : Insn) → ¬ IsCode word i) }
    ensures in_range { IfSome result HasRange }
{
    by_opcode(word)
}

#[tactic(auto, unfolding(crate::specs::Inside::Reading::insn_of))]
fn by_opcode(word: u32) -> Option<Insn>
    ensures found { IfSome result (IsCode word) }
    ensures exact { result ≡ insn_of word }
{
    match opcode(word) {
        opcodes::LUI => Some(Insn::Lui(rd(word), immediates::of_u(word))),
        opcodes::AUIPC => Some(Insn::Auipc(rd(word), immediates::of_u(word))),
        opcodes::JAL => Some(Insn::Jal(rd(word), immediates::of_j(word))),
        opcodes::JALR => jalr(word),
        opcodes::BRANCH => branch(word),
        opcodes::LOAD => load(word),
        opcodes::STORE => store(word),
        opcodes::OP_IMM => op_imm(word),
        opcodes::OP => op(word),
        opcodes::MISC_MEM => fence(word),
        opcodes::SYSTEM => system(word),
        _ => None,
    }
}

#[tactic(auto, unfolding(crate::specs::Inside::Reading::jalr_of))]
fn jalr(word: u32) -> Option<Insn>
    requires { field word 0 7 ≡ 0x67 }
    ensures found { IfSome result (IsCode word) }
    ensures exact { result ≡ jalr_of word }
{
    if funct3(word) != 0 {
        return None;
    }
    Some(Insn::Jalr(rd(word), rs1(word), immediates::of_i(word)))
}

#[tactic(auto, unfolding(crate::specs::Inside::Reading::branch_of))]
fn branch(word: u32) -> Option<Insn>
    requires { field word 0 7 ≡ 0x63 }
    ensures found { IfSome result (IsCode word) }
    ensures exact { result ≡ branch_of word }
{
    let (rs1, rs2, imm) = (rs1(word), rs2(word), immediates::of_b(word));
    match funct3(word) {
        0 => Some(Insn::Beq(rs1, rs2, imm)),
        1 => Some(Insn::Bne(rs1, rs2, imm)),
        4 => Some(Insn::Blt(rs1, rs2, imm)),
        5 => Some(Insn::Bge(rs1, rs2, imm)),
        6 => Some(Insn::Bltu(rs1, rs2, imm)),
        7 => Some(Insn::Bgeu(rs1, rs2, imm)),
        _ => None,
    }
}

#[tactic(auto, unfolding(crate::specs::Inside::Reading::load_of))]
fn load(word: u32) -> Option<Insn>
    requires { field word 0 7 ≡ 0x03 }
    ensures found { IfSome result (IsCode word) }
    ensures exact { result ≡ load_of word }
{
    let (rd, rs1, imm) = (rd(word), rs1(word), immediates::of_i(word));
    match funct3(word) {
        0 => Some(Insn::Lb(rd, rs1, imm)),
        1 => Some(Insn::Lh(rd, rs1, imm)),
        2 => Some(Insn::Lw(rd, rs1, imm)),
        4 => Some(Insn::Lbu(rd, rs1, imm)),
        5 => Some(Insn::Lhu(rd, rs1, imm)),
        _ => None,
    }
}

#[tactic(auto, unfolding(crate::specs::Inside::Reading::store_of))]
fn store(word: u32) -> Option<Insn>
    requires { field word 0 7 ≡ 0x23 }
    ensures found { IfSome result (IsCode word) }
    ensures exact { result ≡ store_of word }
{
    let (rs1, rs2, imm) = (rs1(word), rs2(word), immediates::of_s(word));
    match funct3(word) {
        0 => Some(Insn::Sb(rs1, rs2, imm)),
        1 => Some(Insn::Sh(rs1, rs2, imm)),
        2 => Some(Insn::Sw(rs1, rs2, imm)),
        _ => None,
    }
}

#[tactic(auto, unfolding(crate::specs::Inside::Reading::op_imm_of))]
fn op_imm(word: u32) -> Option<Insn>
    requires { field word 0 7 ≡ 0x13 }
    ensures found { IfSome result (IsCode word) }
    ensures exact { result ≡ op_imm_of word }
{
    let (rd, rs1, imm) = (rd(word), rs1(word), immediates::of_i(word));
    match funct3(word) {
        0 => Some(Insn::Addi(rd, rs1, imm)),
        2 => Some(Insn::Slti(rd, rs1, imm)),
        3 => Some(Insn::Sltiu(rd, rs1, imm)),
        4 => Some(Insn::Xori(rd, rs1, imm)),
        6 => Some(Insn::Ori(rd, rs1, imm)),
        7 => Some(Insn::Andi(rd, rs1, imm)),
        _ => shift_imm(word),
    }
}

#[tactic(auto, unfolding(crate::specs::Inside::Reading::shift_imm_of))]
fn shift_imm(word: u32) -> Option<Insn>
    requires { field word 0 7 ≡ 0x13 }
    ensures found { IfSome result (IsCode word) }
    ensures exact { result ≡ shift_imm_of word }
{
    let (rd, rs1, amount) = (rd(word), rs1(word), rs2(word));
    match (funct7(word), funct3(word)) {
        (0x00, 1) => Some(Insn::Slli(rd, rs1, amount)),
        (0x00, 5) => Some(Insn::Srli(rd, rs1, amount)),
        (0x20, 5) => Some(Insn::Srai(rd, rs1, amount)),
        _ => None,
    }
}

#[tactic(auto, unfolding(crate::specs::Inside::Reading::op_of))]
fn op(word: u32) -> Option<Insn>
    requires { field word 0 7 ≡ 0x33 }
    ensures found { IfSome result (IsCode word) }
    ensures exact { result ≡ op_of word }
{
    let (rd, rs1, rs2) = (rd(word), rs1(word), rs2(word));
    match (funct7(word), funct3(word)) {
        (0x00, 0) => Some(Insn::Add(rd, rs1, rs2)),
        (0x00, 1) => Some(Insn::Sll(rd, rs1, rs2)),
        (0x00, 2) => Some(Insn::Slt(rd, rs1, rs2)),
        (0x00, 3) => Some(Insn::Sltu(rd, rs1, rs2)),
        (0x00, 4) => Some(Insn::Xor(rd, rs1, rs2)),
        (0x00, 5) => Some(Insn::Srl(rd, rs1, rs2)),
        (0x00, 6) => Some(Insn::Or(rd, rs1, rs2)),
        (0x00, 7) => Some(Insn::And(rd, rs1, rs2)),
        (0x20, 0) => Some(Insn::Sub(rd, rs1, rs2)),
        (0x20, 5) => Some(Insn::Sra(rd, rs1, rs2)),
        (0x01, 0) => Some(Insn::Mul(rd, rs1, rs2)),
        (0x01, 1) => Some(Insn::Mulh(rd, rs1, rs2)),
        (0x01, 2) => Some(Insn::Mulhsu(rd, rs1, rs2)),
        (0x01, 3) => Some(Insn::Mulhu(rd, rs1, rs2)),
        (0x01, 4) => Some(Insn::Div(rd, rs1, rs2)),
        (0x01, 5) => Some(Insn::Divu(rd, rs1, rs2)),
        (0x01, 6) => Some(Insn::Rem(rd, rs1, rs2)),
        (0x01, 7) => Some(Insn::Remu(rd, rs1, rs2)),
        _ => None,
    }
}

#[tactic(auto, unfolding(crate::specs::Inside::Reading::fence_of))]
fn fence(word: u32) -> Option<Insn>
    requires { field word 0 7 ≡ 0x0f }
    ensures found { IfSome result (IsCode word) }
    ensures exact { result ≡ fence_of word }
{
    if funct3(word) != 0 {
        return None;
    }
    // The opcode and funct3 are known; all the other bits are kept.
    Some(Insn::Fence(word >> 7 << 7))
}

#[tactic(auto, unfolding(crate::specs::Inside::Reading::system_of))]
fn system(word: u32) -> Option<Insn>
    requires { field word 0 7 ≡ 0x73 }
    ensures found { IfSome result (IsCode word) }
    ensures exact { result ≡ system_of word }
{
    match word {
        opcodes::ECALL_WORD => Some(Insn::Ecall),
        opcodes::EBREAK_WORD => Some(Insn::Ebreak),
        _ => None,
    }
}
