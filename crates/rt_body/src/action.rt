// What sites do with registers and memory.
ghost use Rattle.std.specs.Prelude.{◌≡◌, IfOk, ◌++◌, OnOk};
ghost use Rattle.rt_body.specs.Actions.{defined_by, op_of, written};

use rt_base::{Memory, Sequence};
use rt_insn::registers::{CALL_CLOBBERED, ZERO};
use rt_proc::Callee;
use rt_track::Op;
use std::alloc::Global;

/// Where a load or a store goes: the address of a symbol plus an addend, or what a register holds plus an immediate.
#[derive(Clone, Copy)]
pub enum Address {
    Symbol(u32, i32),
    Register(u8, i32),
}

/// What a load reads: LW, LH, LHU, LB or LBU.
#[derive(Clone, Copy)]
pub enum Loaded {
    Word,
    SignedHalf,
    Half,
    SignedByte,
    Byte,
}

/// What a store writes: SW, SH or SB.
#[derive(Clone, Copy)]
pub enum Width {
    Word,
    Half,
    Byte,
}

/// How an instruction that computes a number takes its operands.
///
/// - Scale: SLL, SLLI, MUL.
/// - ShiftRight: SRL, SRLI.
/// - ShiftRightSigned: SRA, SRAI.
/// - Signed: MULH, DIV, REM.
/// - Unsigned: MULHU, DIVU, REMU.
/// - SignedByUnsigned: MULHSU.
/// - LessSigned: SLT, SLTI.
/// - LessUnsigned: SLTU, SLTIU.
#[derive(Clone, Copy, PartialEq, Eq)]
pub enum Operation {
    Scale,
    ShiftRight,
    ShiftRightSigned,
    Signed,
    Unsigned,
    SignedByUnsigned,
    LessSigned,
    LessUnsigned,
}

/// What a site does with registers and memory. The register that it writes is x0 where it writes none. Where a relocation
/// gives an address, that stands in the place of the instruction's immediate, and its symbol is the lowest one at that place.
///
/// - Constant: LUI.
/// - Symbol: ADDI that adds the low bits of a symbol's address: the whole address.
/// - AddImmediate: any other ADDI.
/// - Add: ADD.
/// - Load, Store: a load; a store of what a register holds.
/// - Compute: an instruction that computes a number; an immediate is no register.
/// - Compare: BLT or BGE.
/// - Write: any other instruction that writes a register; ECALL writes a0.
/// - Pass: any other instruction.
/// - Call: a call, with the register that takes the return address.
/// - Return, Stop: a return, and an end.
#[derive(Clone, Copy)]
pub enum Action {
    Constant {
        to: u8,
        value: u32,
    },
    Symbol {
        to: u8,
        symbol: u32,
        addend: i32,
    },
    AddImmediate {
        to: u8,
        from: u8,
        immediate: i32,
    },
    Add {
        to: u8,
        left: u8,
        right: u8,
    },
    Load {
        loaded: Loaded,
        to: u8,
        address: Address,
    },
    Store {
        width: Width,
        data: u8,
        address: Address,
    },
    Compute {
        operation: Operation,
        to: u8,
        left: u8,
        right: Option<u8>,
    },
    Compare {
        left: u8,
        right: u8,
    },
    Write {
        to: u8,
    },
    Pass,
    Call {
        callee: Callee,
        link: u8,
    },
    Return,
    Stop,
}

// Adds a register that is written; x0 is none.
fn add_written(registers: &mut Sequence<u8>, register: u8) -> Result<(), Memory>
    ensures { OnOk result (registers.new ≡ registers.old ++ written register) }
{
    if register != ZERO {
        registers.push(register)?;
    }
    Ok(())
}

// Adds some registers.
fn add_all(registers: &mut Sequence<u8>, more: &[u8]) -> Result<(), Memory>
    ensures { OnOk result (registers.new ≡ registers.old ++ more.now) }
{
    for register in more {
        registers.push(*register)?;
    }
    Ok(())
}

impl Action {
    /// The registers that a site defines, which a call may name twice. The error is out of memory.
    pub fn defined(&self, alloc: Global) -> Result<Sequence<u8>, Memory>
        ensures { IfOk result (λ registers. registers ≡ defined_by self.now) }
    {
        let mut registers = Sequence::new(alloc);
        match *self {
            Action::Constant { to, .. }
            | Action::Symbol { to, .. }
            | Action::AddImmediate { to, .. }
            | Action::Add { to, .. }
            | Action::Load { to, .. }
            | Action::Compute { to, .. }
            | Action::Write { to } => add_written(&mut registers, to)?,
            Action::Call { link, .. } => {
                add_all(&mut registers, &CALL_CLOBBERED)?;
                add_written(&mut registers, link)?;
            }
            _ => {}
        }
        Ok(registers)
    }

    /// How a site computes what it writes.
    pub(crate) fn op(self) -> Op
        ensures { result ≡ op_of self }
    {
        match self {
            Action::Constant { value, .. } => Op::Const(value),
            Action::Symbol { symbol, addend, .. } => Op::Sym(symbol, addend),
            Action::AddImmediate {
                from,
                immediate,
                ..
            } => Op::AddI(from, immediate),
            Action::Add { left, right, .. } => Op::Add(left, right),
            _ => Op::Own,
        }
    }
}
