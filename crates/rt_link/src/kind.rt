// The types of relocations that code may have (RISC-V psABI, "Relocations").
ghost use Rattle.std.specs.Prelude.{◌≡◌};
ghost use Rattle.rt_link.specs.Kinds.{kind_of, has_effect, is_call, is_pcrel_high, is_pcrel_low};

use crate::relocation_type::{
    R_RISCV_32, R_RISCV_ALIGN, R_RISCV_BRANCH, R_RISCV_CALL, R_RISCV_CALL_PLT, R_RISCV_HI20,
    R_RISCV_JAL, R_RISCV_LO12_I, R_RISCV_LO12_S, R_RISCV_NONE, R_RISCV_PCREL_HI20,
    R_RISCV_PCREL_LO12_I, R_RISCV_PCREL_LO12_S, R_RISCV_RELAX,
};

// What a type of relocation does.
#[derive(Clone, Copy)]
pub(crate) enum Kind {
    // no effect: R_RISCV_NONE, R_RISCV_32, R_RISCV_ALIGN, R_RISCV_RELAX
    Passed,
    // R_RISCV_BRANCH, R_RISCV_JAL
    Jump,
    // R_RISCV_CALL, R_RISCV_CALL_PLT
    Call,
    // R_RISCV_PCREL_HI20
    PcrelHigh,
    // R_RISCV_HI20
    High,
    // R_RISCV_LO12_I, R_RISCV_LO12_S
    Low,
    // R_RISCV_PCREL_LO12_I, R_RISCV_PCREL_LO12_S
    PcrelLow,
}

// What a type of relocation does, if it is one that is known.
#[tactic(auto, unfolding(crate::specs::Kinds::kind_of))]
pub(crate) fn kind_of(kind: u8) -> Option<Kind>
    ensures { result ≡ kind_of kind }
{
    match kind {
        R_RISCV_BRANCH | R_RISCV_JAL => Some(Kind::Jump),
        R_RISCV_CALL | R_RISCV_CALL_PLT => Some(Kind::Call),
        R_RISCV_PCREL_HI20 => Some(Kind::PcrelHigh),
        R_RISCV_HI20 => Some(Kind::High),
        R_RISCV_LO12_I | R_RISCV_LO12_S => Some(Kind::Low),
        R_RISCV_PCREL_LO12_I | R_RISCV_PCREL_LO12_S => Some(Kind::PcrelLow),
        R_RISCV_NONE | R_RISCV_32 | R_RISCV_ALIGN | R_RISCV_RELAX => Some(Kind::Passed),
        _ => None,
    }
}

// Whether a type has an effect.
pub(crate) fn has_effect(kind: Option<Kind>) -> bool
    ensures { result ≡ has_effect kind }
{
    match kind {
        None | Some(Kind::Passed) => false,
        Some(_) => true,
    }
}

// Whether a type is one of a call.
pub(crate) fn is_call(kind: Option<Kind>) -> bool
    ensures { result ≡ is_call kind }
{
    matches!(kind, Some(Kind::Call))
}

// Whether a type is PCREL_HI20.
pub(crate) fn is_pcrel_high(kind: Option<Kind>) -> bool
    ensures { result ≡ is_pcrel_high kind }
{
    matches!(kind, Some(Kind::PcrelHigh))
}

// Whether a type is PCREL_LO12_I or PCREL_LO12_S.
pub(crate) fn is_pcrel_low(kind: Option<Kind>) -> bool
    ensures { result ≡ is_pcrel_low kind }
{
    matches!(kind, Some(Kind::PcrelLow))
}
