// The registers that instructions read.
ghost use Rattle.std.specs.Prelude.{◌≡◌, [], ◌∷◌};
ghost use Rattle.rt_liveness.specs.Inside.Conditions.{is_among, is_return};
ghost use Rattle.rt_liveness.specs.Reads.{operands_of, reads_of};

use rt_insn::Insn;
use rt_proc::{Callee, Kind};

// Whether one register is another.
fn is_one(first: u8, register: u8) -> bool
    ensures { result ≡ is_among (first ∷ []) register }
{
    first == register
}

// Whether one of two registers is another.
fn is_either(first: u8, second: u8, register: u8) -> bool
    ensures { result ≡ is_among (first ∷ second ∷ []) register }
{
    first == register || second == register
}

// Whether an instruction has a register as its rs1 or rs2.
fn has_operand(insn: Insn, register: u8) -> bool
    ensures { result ≡ is_among (operands_of insn) register }
{
    match insn {
        Insn::Lui(..)
        | Insn::Auipc(..)
        | Insn::Jal(..)
        | Insn::Fence(_)
        | Insn::Ecall
        | Insn::Ebreak => false,
        Insn::Jalr(_, rs1, _)
        | Insn::Lb(_, rs1, _)
        | Insn::Lh(_, rs1, _)
        | Insn::Lw(_, rs1, _)
        | Insn::Lbu(_, rs1, _)
        | Insn::Lhu(_, rs1, _)
        | Insn::Addi(_, rs1, _)
        | Insn::Slti(_, rs1, _)
        | Insn::Sltiu(_, rs1, _)
        | Insn::Xori(_, rs1, _)
        | Insn::Ori(_, rs1, _)
        | Insn::Andi(_, rs1, _)
        | Insn::Slli(_, rs1, _)
        | Insn::Srli(_, rs1, _)
        | Insn::Srai(_, rs1, _) => is_one(rs1, register),
        Insn::Beq(rs1, rs2, _)
        | Insn::Bne(rs1, rs2, _)
        | Insn::Blt(rs1, rs2, _)
        | Insn::Bge(rs1, rs2, _)
        | Insn::Bltu(rs1, rs2, _)
        | Insn::Bgeu(rs1, rs2, _)
        | Insn::Sb(rs1, rs2, _)
        | Insn::Sh(rs1, rs2, _)
        | Insn::Sw(rs1, rs2, _)
        | Insn::Add(_, rs1, rs2)
        | Insn::Sub(_, rs1, rs2)
        | Insn::Sll(_, rs1, rs2)
        | Insn::Slt(_, rs1, rs2)
        | Insn::Sltu(_, rs1, rs2)
        | Insn::Xor(_, rs1, rs2)
        | Insn::Srl(_, rs1, rs2)
        | Insn::Sra(_, rs1, rs2)
        | Insn::Or(_, rs1, rs2)
        | Insn::And(_, rs1, rs2)
        | Insn::Mul(_, rs1, rs2)
        | Insn::Mulh(_, rs1, rs2)
        | Insn::Mulhsu(_, rs1, rs2)
        | Insn::Mulhu(_, rs1, rs2)
        | Insn::Div(_, rs1, rs2)
        | Insn::Divu(_, rs1, rs2)
        | Insn::Rem(_, rs1, rs2)
        | Insn::Remu(_, rs1, rs2) => is_either(rs1, rs2, register),
    }
}

/// Whether a site of a kind reads a register itself.
pub(crate) fn reads(kind: Kind, register: u8) -> bool
    ensures { result ≡ is_among (reads_of kind) register }
{
    match kind {
        Kind::Plain(insn) => has_operand(insn, register),
        Kind::Call(Callee::Unknown(through), _) => is_one(through, register),
        Kind::Return => is_one(1, register),
        Kind::Call(..) | Kind::Stop => false,
    }
}

/// Whether a site of a kind is a return.
pub(crate) fn is_return(kind: Kind) -> bool
    ensures { result ≡ is_return kind }
{
    matches!(kind, Kind::Return)
}
