// The two instructions of a far call (RISC-V psABI, "Relocations", R_RISCV_CALL).
ghost use Rattle.std.specs.Prelude.{◌≡◌, ◌+◌, ◌^◌, ◌<◌, ◌==◌, ◌&&◌, IsTrue, Option, None, if◌then◌else◌, length};
ghost use Rattle.rt_elf.specs.Object.{section_of};
ghost use Rattle.rt_elf.specs.Sections.{is_code_section};
ghost use Rattle.rt_insn.specs.Word.{field};
ghost use Rattle.rt_link.specs.Checks.{is_pair, has_room, has_pair};

use rt_elf::{Object, Reloc};
use rt_insn::registers::ZERO;
use rt_insn::{Insn, decode};

// The register that an AUIPC writes.
fn auipc_register(word: u32) -> Option<u8>
    ensures { result ≡ (if field word 0 7 == 0x17 then Option.Some (field word 7 5) else None) }
{
    match decode(word) {
        Some(Insn::Auipc(register, _)) => Some(register),
        _ => None,
    }
}

// The register that a JALR goes through.
fn jalr_base(word: u32) -> Option<u8>
    ensures { result ≡ (if (field word 0 7 == 0x67) && (field word 12 3 == 0) then Option.Some (field word 15 5) else None) }
{
    match decode(word) {
        Some(Insn::Jalr(_, base, _)) => Some(base),
        _ => None,
    }
}

// AUIPC r, and JALR with base r, where r isn't x0.
fn is_pair(first: u32, second: u32) -> bool
    ensures { result ≡ is_pair first second }
{
    match (auipc_register(first), jalr_base(second)) {
        (Some(register), Some(base)) => base == register && register != ZERO,
        _ => false,
    }
}

// Whether so many bytes from the place of a relocation on are words of its section.
pub(crate) fn has_room(object: &Object, reloc: &Reloc, size: u32) -> bool
    requires { reloc.now.section < length object.now.sections }
    ensures room { result ≡ has_room object.now reloc.now size }
    ensures fits { IsTrue result → reloc.now.offset + size < 2 ^ 32 }
{
    let section = object.sections()[reloc.section as usize];
    reloc.offset % 4 == 0 && reloc.offset as u64 + size as u64 <= section.size as u64
}

// Whether such a pair stands at the place of a relocation of code.
pub(crate) fn has_pair(object: &Object, reloc: &Reloc) -> bool
    requires there { reloc.now.section < length object.now.sections }
    requires code { IsTrue (is_code_section (section_of object.now reloc.now.section)) }
    ensures { result ≡ has_pair object.now reloc.now }
{
    if !has_room(object, reloc, 8) {
        return false;
    }
    let first = object.word(reloc.section, reloc.offset);
    let second = object.word(reloc.section, reloc.offset + 4);
    match (first, second) {
        (Some(first), Some(second)) => is_pair(first, second),
        _ => false,
    }
}
