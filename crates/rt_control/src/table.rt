// The tables of jumps.
ghost use Rattle.std.specs.Prelude.{◌≡◌, None, IfOk, IfSome, IsTrue};
ghost use Rattle.rt_link.specs.Links.{AreLinksOf};
ghost use Rattle.rt_control.specs.Places.{is_good};
ghost use Rattle.rt_control.specs.Tables.{low_of, base_in, only_one, base_of, reading_of, reading_in, table_place};
ghost use Rattle.rt_control.specs.Tables.{IsEntry, IsEnd, IsTable, IsTableJump, table_register, MayJumpTo, AreEntriesOf};

use crate::run::{Step, run, writer_of};
use rt_elf::Object;
use rt_insn::Insn;
use rt_insn::registers::{RETURN_ADDRESS, ZERO};
use rt_link::{Link, Links, Place, Pointer};
use std::alloc::{AllocError, Global};

// An address: that of a symbol with an addend.
#[derive(Clone, Copy)]
pub(crate) struct Address {
    symbol: u32,
    addend: i32,
}

// What the load before a table jump reads: an entry of the table at a distance from an address.
#[derive(Clone, Copy)]
pub(crate) struct Reading {
    base: Address,
    distance: i32,
}

// The address whose low bits an ADDI adds.
fn low_of(insn: Insn, link: Option<Link>) -> Option<Address>
    ensures { result ≡ low_of insn link }
{
    match (insn, link) {
        (Insn::Addi(..), Some(Link::Low { symbol, addend })) => Some(Address { symbol, addend }),
        _ => None,
    }
}

// That of the last writer of a register.
fn base_in(register: u8, steps: &[Step]) -> Option<Address>
    ensures { result ≡ base_in register steps.now }
{
    let (step, _) = writer_of(register, steps)?;
    low_of(step.insn, step.link)
}

// Exactly one of two.
fn only_one(first: Option<Address>, second: Option<Address>) -> Option<Address>
    ensures { result ≡ only_one first second }
{
    match (first, second) {
        (Some(address), None) | (None, Some(address)) => Some(address),
        _ => None,
    }
}

// The base of the sum that an ADD writes, where exactly one of its operands is such an address.
fn base_of(insn: Insn, before: &[Step]) -> Option<Address>
    ensures { result ≡ base_of insn before.now }
{
    match insn {
        Insn::Add(_, x, y) => only_one(base_in(x, before), base_in(y, before)),
        _ => None,
    }
}

// What an LW reads, where its address is that of an ADD.
fn reading_of(insn: Insn, before: &[Step]) -> Option<Reading>
    ensures { result ≡ reading_of insn before.now }
{
    let Insn::Lw(_, register, distance) = insn else {
        return None;
    };
    let (sum, before) = writer_of(register, before)?;
    let base = base_of(sum.insn, before)?;
    Some(Reading { base, distance })
}

// What a jump through a register reads, where that is loaded.
fn reading_in(register: u8, steps: &[Step]) -> Option<Reading>
    ensures { result ≡ reading_in register steps.now }
{
    let (load, before) = writer_of(register, steps)?;
    reading_of(load.insn, before)
}

// Where a table begins. A symbol past the end of the symbol table counts as one of zeros.
fn table_place(object: &Object, reading: Reading) -> Place
    ensures { result ≡ table_place object.now reading }
{
    let (section, value) = match object.symbols().get(reading.base.symbol as usize) {
        Some(symbol) => (symbol.section, symbol.value),
        None => (0, 0),
    };
    Place {
        section,
        offset: value
            .wrapping_add_signed(reading.base.addend)
            .wrapping_add_signed(reading.distance),
    }
}

// The entry of a table at a place, if one stands there. A table ends before a place after its first that low bits name.
fn entry_at(object: &Object, links: &Links, place: Place, is_first: bool) -> Option<Pointer>
    requires { AreLinksOf object.now links.now }
    ensures found { IfSome result (IsEntry object.now place is_first) }
    ensures none { result ≡ None → IsEnd object.now place is_first }
{
    if !is_first && links.is_named(place.section, place.offset) {
        return None;
    }
    links.pointer(place.section, place.offset)
}

// The entries of the table that begins at a place.
fn table_at(
    alloc: Global,
    object: &Object,
    links: &Links,
    start: Place,
) -> Result<Vec<Pointer>, AllocError>
    requires { AreLinksOf object.now links.now }
    ensures { IfOk result (λ entries. IsTable object.now start entries.items) }
{
    let mut entries = Vec::new(alloc);
    let mut place = start;
    while let Some(entry) = entry_at(object, links, place, entries.is_empty()) {
        entries.push(entry)?;
        let Some(offset) = place.offset.checked_add(4) else {
            return Ok(entries);
        };
        place.offset = offset;
    }
    Ok(entries)
}

// The entries of the table of what a jump reads: none where it reads no table.
fn entries_of(
    alloc: Global,
    object: &Object,
    links: &Links,
    reading: Option<Reading>,
) -> Result<Vec<Pointer>, AllocError>
    requires { AreLinksOf object.now links.now }
    ensures { IfOk result (λ entries. AreEntriesOf object.now reading entries.items) }
{
    match reading {
        Some(reading) => table_at(alloc, object, links, table_place(object, reading)),
        None => Ok(Vec::new(alloc)),
    }
}

// The entries of the table that the jump at a place through a register reads.
fn read_table(
    alloc: Global,
    object: &Object,
    links: &Links,
    jump: Place,
    register: u8,
) -> Result<Vec<Pointer>, AllocError>
    requires links { AreLinksOf object.now links.now }
    requires good { IsTrue (is_good object.now jump) }
    ensures { IfOk result (λ entries. IsTableJump object.now jump register entries.items) }
{
    let steps = run(alloc, object, links, jump)?;
    entries_of(alloc, object, links, reading_in(register, &steps))
}

// The register through which an instruction may jump to an entry of a table: r of `jalr x0,0(r)`, neither x0 nor ra.
fn table_register(insn: Option<Insn>) -> Option<u8>
    ensures { result ≡ table_register insn }
{
    match insn {
        Some(Insn::Jalr(ZERO, base, 0)) if base != ZERO && base != RETURN_ADDRESS => Some(base),
        _ => None,
    }
}

// The entries of the table to one of which what stands at a place may jump.
pub(crate) fn entries_at(
    alloc: Global,
    object: &Object,
    links: &Links,
    place: Place,
    insn: Option<Insn>,
) -> Result<Vec<Pointer>, AllocError>
    requires links { AreLinksOf object.now links.now }
    requires good { IsTrue (is_good object.now place) }
    ensures { IfOk result (λ entries. MayJumpTo object.now place (table_register insn) entries.items) }
{
    match table_register(insn) {
        Some(register) => read_table(alloc, object, links, place, register),
        None => Ok(Vec::new(alloc)),
    }
}
