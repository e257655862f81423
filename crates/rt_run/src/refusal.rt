// Why an input is refused.
ghost use Rattle.std.specs.Prelude.{◌≡◌, ◌++◌, IfOk, OnOk};
ghost use Rattle.rt_run.specs.Errors.{byte_text, lattice_line, name_after, named_line, numbered_line, object_line, plain_line};
ghost use Rattle.rt_run.specs.Errors.{number_text, offset_text, place_text, read_line, refusal_line, refusal_name, section_text, signatures_line};

use rt_base::Memory;
use rt_lattice::{LatFault, Role};
use rt_scheme::print_name;
use rt_sigs::SigFault;
use rt_texts::print_number;
use std::alloc::Global;

/// Why an object is refused.
#[derive(Drop)]
pub enum ObjectFault {
    /// A check of its bytes fails: its number, and the byte of the file.
    Bytes(u8, u32),
    /// A check of its relocations fails: its number, and the section and the offset of the relocation.
    Relocation(u8, u16, u32),
    /// Its code has a fault: its number, and the section and the offset of the place.
    Code(u8, u16, u32),
}

/// Why an input is refused.
#[derive(Drop)]
pub enum Refusal {
    /// The object has this fault.
    Object(ObjectFault),
    /// The lattice file has this fault, which isn't out of memory.
    BadLattice(LatFault),
    /// The file of signatures has this fault, which isn't out of memory.
    BadSignatures(SigFault),
    /// The text of `entail` is too long.
    TextTooLarge,
    /// A line of the text of `entail` is bad: the byte at which the first bad one begins.
    BadLine(u32),
    /// The judgement of `entail` is bad.
    BadJudgement,
}

// The name of a refusal, by its number.
fn refusal_name(number: u8) -> &'static str
    ensures { result.now ≡ refusal_name number }
{
    match number {
        1 => "Short",
        2 => "Magic",
        3 => "Class",
        4 => "Endian",
        5 => "Kind",
        6 => "Machine",
        7 => "Flags",
        8 => "SectionTable",
        9 => "SectionRange",
        10 => "SymbolTable",
        11 => "Name",
        12 => "SymbolSection",
        13 => "RelocTable",
        14 => "RelocSymbol",
        15 => "Compressed",
        16 => "TooLarge",
        20 => "RelocType",
        21 => "RelocPlace",
        22 => "TwoRelocs",
        23 => "LoneLow",
        24 => "CallPair",
        30 => "Illegal",
        31 => "BadTarget",
        32 => "FallsOff",
        33 => "IndirectJump",
        40 => "NotToml",
        41 => "Shape",
        42 => "Unknown",
        43 => "Cycle",
        44 => "NoTop",
        45 => "NoBottom",
        46 => "NoJoin",
        48 => "NoRole",
        49 => "TooMany",
        50 => "BadLine",
        51 => "UnknownConst",
        52 => "Twice",
        53 => "TooLarge",
        54 => "Args",
        61 => "BadText",
        62 => "BadText",
        63 => "TextTooLarge",
        _ => "None",
    }
}

// Adds the number and the name of a refusal.
fn push_number(number: u8, line: &mut Vec<u8>) -> Result<(), Memory>
    ensures { OnOk result (line.new.items ≡ line.old.items ++ number_text number) }
{
    line.extend_from_slice(b"error ")?;
    print_number(u32::from(number), line)?;
    line.extend_from_slice(b" ")?;
    line.extend_from_slice(refusal_name(number).as_bytes())
}

// Adds what stands for a byte.
fn push_byte(byte: u32, line: &mut Vec<u8>) -> Result<(), Memory>
    ensures { OnOk result (line.new.items ≡ line.old.items ++ byte_text byte) }
{
    line.extend_from_slice(b" at ")?;
    print_number(byte, line)?;
    line.extend_from_slice(b"\n")
}

// Adds the index of a section.
#[tactic(auto, unfolding(crate::specs::Errors::section_text))]
fn push_section(section: u16, line: &mut Vec<u8>) -> Result<(), Memory>
    ensures { OnOk result (line.new.items ≡ line.old.items ++ section_text section) }
{
    line.extend_from_slice(b" at section ")?;
    print_number(u32::from(section), line)?;
    Ok(())
}

// Adds an offset in a section, and the line's end.
#[tactic(auto, unfolding(crate::specs::Errors::offset_text))]
fn push_offset(offset: u32, line: &mut Vec<u8>) -> Result<(), Memory>
    ensures { OnOk result (line.new.items ≡ line.old.items ++ offset_text offset) }
{
    line.extend_from_slice(b" offset ")?;
    print_number(offset, line)?;
    line.extend_from_slice(b"\n")
}

// Adds what stands for a place of a section.
fn push_place(section: u16, offset: u32, line: &mut Vec<u8>) -> Result<(), Memory>
    ensures { OnOk result (line.new.items ≡ line.old.items ++ place_text section offset) }
{
    push_section(section, line)?;
    push_offset(offset, line)
}

// Adds the line of a refusal at a byte.
fn push_at_byte(number: u8, byte: u32, line: &mut Vec<u8>) -> Result<(), Memory>
    ensures { OnOk result (line.new.items ≡ line.old.items ++ (number_text number ++ byte_text byte)) }
{
    push_number(number, line)?;
    push_byte(byte, line)
}

// Adds the line of a refusal at a place of a section.
fn push_at_place(number: u8, section: u16, offset: u32, line: &mut Vec<u8>) -> Result<(), Memory>
    ensures { OnOk result (line.new.items ≡ line.old.items ++ (number_text number ++ place_text section offset)) }
{
    push_number(number, line)?;
    push_place(section, offset, line)
}

// Adds the line of a refusal that has no place.
fn push_plain(number: u8, line: &mut Vec<u8>) -> Result<(), Memory>
    ensures { OnOk result (line.new.items ≡ line.old.items ++ plain_line number) }
{
    push_number(number, line)?;
    line.extend_from_slice(b"\n")
}

// Adds a space and a name that a file has.
fn push_name(name: &[u8], line: &mut Vec<u8>) -> Result<(), Memory>
    ensures { OnOk result (line.new.items ≡ line.old.items ++ name_after name.now) }
{
    line.extend_from_slice(b" ")?;
    print_name(name, line)?;
    Ok(())
}

// Adds the line of a refusal about a name that a file has.
fn push_named(number: u8, name: &[u8], line: &mut Vec<u8>) -> Result<(), Memory>
    ensures { OnOk result (line.new.items ≡ line.old.items ++ named_line number name.now) }
{
    push_number(number, line)?;
    push_name(name, line)?;
    line.extend_from_slice(b"\n")
}

// Adds the line of a refusal about a line of a file, by its number.
fn push_numbered(number: u8, at: u32, line: &mut Vec<u8>) -> Result<(), Memory>
    ensures { OnOk result (line.new.items ≡ line.old.items ++ numbered_line number at) }
{
    push_number(number, line)?;
    line.extend_from_slice(b" ")?;
    print_number(at, line)?;
    line.extend_from_slice(b"\n")
}

// Adds the line of two names with no least upper bound.
fn push_no_join(first: &[u8], second: &[u8], line: &mut Vec<u8>) -> Result<(), Memory>
    ensures { OnOk result (line.new.items ≡ line.old.items ++ lattice_line (LatFault.NoJoin first.now second.now)) }
{
    push_number(46, line)?;
    push_name(first, line)?;
    push_name(second, line)?;
    line.extend_from_slice(b"\n")
}

// Adds the line of a role without a name.
fn push_no_role(role: Role, line: &mut Vec<u8>) -> Result<(), Memory>
    ensures { OnOk result (line.new.items ≡ line.old.items ++ lattice_line (LatFault.NoRole role)) }
{
    push_number(48, line)?;
    line.extend_from_slice(b" ")?;
    line.extend_from_slice(role.key().as_bytes())?;
    line.extend_from_slice(b"\n")
}

// Adds the line of a fault of a lattice file.
fn push_lattice(fault: &LatFault, line: &mut Vec<u8>) -> Result<(), Memory>
    ensures { OnOk result (line.new.items ≡ line.old.items ++ lattice_line fault.now) }
{
    match fault {
        LatFault::NotToml => push_plain(40, line),
        LatFault::Shape(key) => push_named(41, key.items(), line),
        LatFault::Unknown(name) => push_named(42, name.items(), line),
        LatFault::Cycle(name) => push_named(43, name.items(), line),
        LatFault::NoTop => push_plain(44, line),
        LatFault::NoBottom => push_plain(45, line),
        LatFault::NoJoin(first, second) => push_no_join(first.items(), second.items(), line),
        LatFault::NoRole(role) => push_no_role(*role, line),
        LatFault::TooMany => push_plain(49, line),
        LatFault::Memory => Ok(()),
    }
}

// Adds the line of a fault of a file of signatures.
fn push_signatures(fault: SigFault, line: &mut Vec<u8>) -> Result<(), Memory>
    ensures { OnOk result (line.new.items ≡ line.old.items ++ signatures_line fault) }
{
    match fault {
        SigFault::BadLine(number) => push_numbered(50, number, line),
        SigFault::UnknownConst(number) => push_numbered(51, number, line),
        SigFault::Twice(number) => push_numbered(52, number, line),
        SigFault::TooLarge => push_plain(53, line),
        SigFault::Args(number) => push_numbered(54, number, line),
        SigFault::Memory => Ok(()),
    }
}

// Adds the line of a fault of an object.
fn push_object(fault: &ObjectFault, line: &mut Vec<u8>) -> Result<(), Memory>
    ensures { OnOk result (line.new.items ≡ line.old.items ++ object_line fault.now) }
{
    match fault {
        ObjectFault::Bytes(number, byte) => push_at_byte(*number, *byte, line),
        ObjectFault::Relocation(number, section, offset)
        | ObjectFault::Code(number, section, offset) => {
            push_at_place(*number, *section, *offset, line)
        }
    }
}

// Adds the line of a refusal.
fn push_refusal(refusal: &Refusal, line: &mut Vec<u8>) -> Result<(), Memory>
    ensures { OnOk result (line.new.items ≡ line.old.items ++ refusal_line refusal.now) }
{
    match refusal {
        Refusal::Object(fault) => push_object(fault, line),
        Refusal::BadLattice(fault) => push_lattice(fault, line),
        Refusal::BadSignatures(fault) => push_signatures(*fault, line),
        Refusal::BadLine(byte) => push_at_byte(61, *byte, line),
        Refusal::BadJudgement => push_plain(62, line),
        Refusal::TextTooLarge => push_plain(63, line),
    }
}

/// The line on the stream for errors that an input's refusal is given by, with its line end: the number and the name of the
/// refusal, and where it stands.
pub fn refusal_line(alloc: Global, refusal: &Refusal) -> Result<Vec<u8>, Memory>
    ensures { IfOk result (λ line. line.items ≡ refusal_line refusal.now) }
{
    let mut line = Vec::new(alloc);
    push_refusal(refusal, &mut line)?;
    Ok(line)
}

/// The line on the stream for errors of a file that wasn't read, with its line end: the file's name, with the bytes that
/// aren't visible escaped.
pub fn read_line(alloc: Global, name: &str) -> Result<Vec<u8>, Memory>
    ensures { IfOk result (λ line. line.items ≡ read_line name.now) }
{
    let mut line = Vec::new(alloc);
    line.extend_from_slice(b"error read ")?;
    print_name(name.as_bytes(), &mut line)?;
    line.extend_from_slice(b"\n")?;
    Ok(line)
}
