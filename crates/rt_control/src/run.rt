// The words directly before a jump.
ghost use Rattle.std.specs.Prelude.{◌≡◌, None, IfOk, IfSome, IsTrue};
ghost use Rattle.std.specs.Option.{option_map};
ghost use Rattle.rt_link.specs.Links.{AreLinksOf};
ghost use Rattle.rt_control.specs.Places.{is_good};
ghost use Rattle.rt_control.specs.Runs.{rd_of, is_straight, is_far, is_second, is_step, IsStep, IsRun, is_rd, writer_of};

use crate::reading::insn_at;
use rt_elf::Object;
use rt_insn::Insn;
use rt_link::{Link, Links, Place};
use std::alloc::{AllocError, Global};

// The greatest number of words in a run.
const MOST: usize = 64;

// An instruction of a run, and what the relocation at its place means.
#[derive(Clone, Copy)]
pub(crate) struct Step {
    pub(crate) insn: Insn,
    pub(crate) link: Option<Link>,
}

// rd, where an instruction that goes on to its continuation alone has it (RISC-V unprivileged ISA, "Base Instruction
// Formats").
fn rd_of(insn: Insn) -> Option<u8>
    ensures { result ≡ rd_of insn }
{
    match insn {
        Insn::Lui(rd, _) | Insn::Auipc(rd, _) => Some(rd),
        Insn::Lb(rd, _, _)
        | Insn::Lh(rd, _, _)
        | Insn::Lw(rd, _, _)
        | Insn::Lbu(rd, _, _)
        | Insn::Lhu(rd, _, _)
        | Insn::Addi(rd, _, _)
        | Insn::Slti(rd, _, _)
        | Insn::Sltiu(rd, _, _)
        | Insn::Xori(rd, _, _)
        | Insn::Ori(rd, _, _)
        | Insn::Andi(rd, _, _)
        | Insn::Slli(rd, _, _)
        | Insn::Srli(rd, _, _)
        | Insn::Srai(rd, _, _)
        | Insn::Add(rd, _, _)
        | Insn::Sub(rd, _, _)
        | Insn::Sll(rd, _, _)
        | Insn::Slt(rd, _, _)
        | Insn::Sltu(rd, _, _)
        | Insn::Xor(rd, _, _)
        | Insn::Srl(rd, _, _)
        | Insn::Sra(rd, _, _)
        | Insn::Or(rd, _, _)
        | Insn::And(rd, _, _)
        | Insn::Mul(rd, _, _)
        | Insn::Mulh(rd, _, _)
        | Insn::Mulhsu(rd, _, _)
        | Insn::Mulhu(rd, _, _)
        | Insn::Div(rd, _, _)
        | Insn::Divu(rd, _, _)
        | Insn::Rem(rd, _, _)
        | Insn::Remu(rd, _, _) => Some(rd),
        Insn::Jal(..)
        | Insn::Jalr(..)
        | Insn::Beq(..)
        | Insn::Bne(..)
        | Insn::Blt(..)
        | Insn::Bge(..)
        | Insn::Bltu(..)
        | Insn::Bgeu(..)
        | Insn::Sb(..)
        | Insn::Sh(..)
        | Insn::Sw(..)
        | Insn::Fence(_)
        | Insn::Ecall
        | Insn::Ebreak => None,
    }
}

// Whether an instruction goes on to its continuation alone.
fn is_straight(insn: Insn) -> bool
    ensures { result ≡ is_straight insn }
{
    !matches!(
        insn,
        Insn::Jal(..)
            | Insn::Jalr(..)
            | Insn::Beq(..)
            | Insn::Bne(..)
            | Insn::Blt(..)
            | Insn::Bge(..)
            | Insn::Bltu(..)
            | Insn::Bgeu(..)
            | Insn::Ebreak
    )
}

// Whether a relocation is that of a far call.
fn is_far(link: Option<Link>) -> bool
    ensures { result ≡ is_far link }
{
    matches!(link, Some(Link::Pair { .. }))
}

// Whether the word at a place is the second of a far call.
fn is_second(object: &Object, links: &Links, place: Place) -> bool
    requires { AreLinksOf object.now links.now }
    ensures { result ≡ is_second object.now place.section place.offset }
{
    place.offset >= 4 && is_far(links.at(place.section, place.offset - 4))
}

// Whether an instruction at a place goes on to its continuation alone, and its word is no part of a far call.
fn is_step(object: &Object, links: &Links, place: Place, insn: Insn, link: Option<Link>) -> bool
    requires { AreLinksOf object.now links.now }
    ensures { result ≡ is_step object.now place.section place.offset insn link }
{
    is_straight(insn) && !is_far(link) && !is_second(object, links, place)
}

// The step of a run at a good place, if one stands there.
fn step_at(object: &Object, links: &Links, place: Place) -> Option<Step>
    requires links { AreLinksOf object.now links.now }
    requires good { IsTrue (is_good object.now place) }
    ensures found { IfSome result (IsStep object.now place.section place.offset) }
    ensures none { result ≡ None → (step : Step) → IsStep object.now place.section place.offset step → ⊥ }
{
    let insn = insn_at(object, place)?;
    let link = links.at(place.section, place.offset);
    if !is_step(object, links, place, insn, link) {
        return None;
    }
    Some(Step { insn, link })
}

// The run of a jump at a good place: the steps directly before it, the nearest first, at most 64.
pub(crate) fn run(
    alloc: Global,
    object: &Object,
    links: &Links,
    jump: Place,
) -> Result<Vec<Step>, AllocError>
    requires links { AreLinksOf object.now links.now }
    requires good { IsTrue (is_good object.now jump) }
    ensures { IfOk result (λ steps. IsRun object.now jump steps.items) }
{
    let mut steps = Vec::new(alloc);
    let mut place = jump;
    while steps.len() < MOST && place.offset >= 4 {
        place.offset -= 4;
        let Some(step) = step_at(object, links, place) else {
            return Ok(steps);
        };
        steps.push(step)?;
    }
    Ok(steps)
}

// Whether a step writes a register.
fn writes(step: Step, register: u8) -> bool
    ensures { result ≡ is_rd register (rd_of step.insn) }
{
    match rd_of(step.insn) {
        Some(rd) => rd == register,
        None => false,
    }
}

// The last of some steps that writes a register, and those before it.
pub(crate) fn writer_of(register: u8, steps: &[Step]) -> Option<(Step, &[Step])>
    ensures { option_map (λ found. (found.0, found.1.now)) result ≡ writer_of register steps.now }
{
    for (index, step) in steps.iter().enumerate() {
        if writes(*step, register) {
            return Some((*step, &steps[index + 1..]));
        }
    }
    None
}
