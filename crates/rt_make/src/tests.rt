ghost use Rattle.std.specs.Prelude.{◌≡◌, IfOk, pos};

use crate::{MakeFault, object, pack};
use rt_base::{Bytes, Memory};
use rt_elf::{Name, Reloc, Symbol};
use std::alloc::Global;
use std::test::Fail;

// The words 00050513 and 00008067, R_RISCV_JAL and R_RISCV_BRANCH at the first word about symbol 1, and the function
// `f` at the start of the code, laid out by hand.
const OBJECT: [u8; 320] = [
    0x7F, 0x45, 0x4C, 0x46, 1, 1, 1, 0, 0, 0, 0, 0, 0, 0, 0, 0, 1, 0, 0xF3, 0, 1, 0, 0, 0, 0, 0, 0,
    0, 0, 0, 0, 0, 0x78, 0, 0, 0, 0, 0, 0, 0, 0x34, 0, 0, 0, 0, 0, 0x28, 0, 5, 0, 3, 0, 0x13, 5, 5,
    0, 0x67, 0x80, 0, 0, 0, 0, 0, 0, 0x11, 1, 0, 0, 0, 0, 0, 0, 0, 0, 0, 0, 0x10, 1, 0, 0, 0, 0, 0,
    0, 0, 0, 0, 0, 0, 0, 0, 0, 0, 0, 0, 0, 0, 0, 0, 0, 1, 0, 0, 0, 0, 0, 0, 0, 0, 0, 0, 0, 0x12, 0,
    1, 0, 0, 0x66, 0, 0, 0, 0, 0, 0, 0, 0, 0, 0, 0, 0, 0, 0, 0, 0, 0, 0, 0, 0, 0, 0, 0, 0, 0, 0, 0,
    0, 0, 0, 0, 0, 0, 0, 0, 0, 0, 0, 0, 0, 0, 0, 0, 0, 0, 0, 1, 0, 0, 0, 6, 0, 0, 0, 0, 0, 0, 0,
    0x34, 0, 0, 0, 8, 0, 0, 0, 0, 0, 0, 0, 0, 0, 0, 0, 4, 0, 0, 0, 0, 0, 0, 0, 0, 0, 0, 0, 2, 0, 0,
    0, 0, 0, 0, 0, 0, 0, 0, 0, 0x54, 0, 0, 0, 0x20, 0, 0, 0, 3, 0, 0, 0, 1, 0, 0, 0, 4, 0, 0, 0,
    0x10, 0, 0, 0, 0, 0, 0, 0, 3, 0, 0, 0, 0, 0, 0, 0, 0, 0, 0, 0, 0x74, 0, 0, 0, 3, 0, 0, 0, 0, 0,
    0, 0, 0, 0, 0, 0, 1, 0, 0, 0, 0, 0, 0, 0, 0, 0, 0, 0, 4, 0, 0, 0, 0, 0, 0, 0, 0, 0, 0, 0, 0x3C,
    0, 0, 0, 0x18, 0, 0, 0, 2, 0, 0, 0, 1, 0, 0, 0, 4, 0, 0, 0, 0x0C, 0, 0, 0,
];

// The object of three procedures.
const THREE: [u8; 412] = [
    0x7F, 0x45, 0x4C, 0x46, 1, 1, 1, 0, 0, 0, 0, 0, 0, 0, 0, 0, 1, 0, 0xF3, 0, 1, 0, 0, 0, 0, 0, 0,
    0, 0, 0, 0, 0, 0xD4, 0, 0, 0, 0, 0, 0, 0, 0x34, 0, 0, 0, 0, 0, 0x28, 0, 5, 0, 3, 0, 0x13, 1, 1,
    0xFF, 0x23, 0x26, 0x11, 0, 3, 0x25, 5, 0, 0x13, 0, 0, 0, 0x83, 0x20, 0xC1, 0, 0x13, 1, 1, 1,
    0x67, 0x80, 0, 0, 0x13, 1, 1, 0xFF, 0x23, 0x26, 0x11, 0, 3, 0x25, 0x45, 0, 0xEF, 0xF0, 0x9F,
    0xFD, 0x83, 0x20, 0xC1, 0, 0x13, 1, 1, 1, 0x67, 0x80, 0, 0, 0x13, 1, 1, 0xFF, 0x23, 0x26, 0x11,
    0, 3, 0x25, 0x85, 0, 0xEF, 0xF0, 0xDF, 0xFB, 0x83, 0x20, 0xC1, 0, 0x13, 1, 1, 1, 0x67, 0x80, 0,
    0, 0, 0, 0, 0, 0, 0, 0, 0, 0, 0, 0, 0, 0, 0, 0, 0, 1, 0, 0, 0, 0, 0, 0, 0, 0x1C, 0, 0, 0, 0x12,
    0, 1, 0, 4, 0, 0, 0, 0x1C, 0, 0, 0, 0x1C, 0, 0, 0, 0x12, 0, 1, 0, 7, 0, 0, 0, 0x38, 0, 0, 0,
    0x1C, 0, 0, 0, 0x12, 0, 1, 0, 0, 0x70, 0x30, 0, 0x70, 0x31, 0, 0x70, 0x32, 0, 0, 0, 0, 0, 0, 0,
    0, 0, 0, 0, 0, 0, 0, 0, 0, 0, 0, 0, 0, 0, 0, 0, 0, 0, 0, 0, 0, 0, 0, 0, 0, 0, 0, 0, 0, 0, 0, 0,
    0, 0, 0, 0, 0, 0, 0, 0, 1, 0, 0, 0, 6, 0, 0, 0, 0, 0, 0, 0, 0x34, 0, 0, 0, 0x54, 0, 0, 0, 0, 0,
    0, 0, 0, 0, 0, 0, 4, 0, 0, 0, 0, 0, 0, 0, 0, 0, 0, 0, 2, 0, 0, 0, 0, 0, 0, 0, 0, 0, 0, 0, 0x88,
    0, 0, 0, 0x40, 0, 0, 0, 3, 0, 0, 0, 1, 0, 0, 0, 4, 0, 0, 0, 0x10, 0, 0, 0, 0, 0, 0, 0, 3, 0, 0,
    0, 0, 0, 0, 0, 0, 0, 0, 0, 0xC8, 0, 0, 0, 0x0A, 0, 0, 0, 0, 0, 0, 0, 0, 0, 0, 0, 1, 0, 0, 0, 0,
    0, 0, 0, 0, 0, 0, 0, 4, 0, 0, 0, 0, 0, 0, 0, 0, 0, 0, 0, 0x88, 0, 0, 0, 0, 0, 0, 0, 2, 0, 0, 0,
    1, 0, 0, 0, 4, 0, 0, 0, 0x0C, 0, 0, 0,
];

fn function(alloc: Global, name: &[u8]) -> Result<Symbol, Memory>
    ensures { IfOk result (λ symbol. symbol ≡ record { name = name.now; value = 0; size = 0; bind = 1; kind = 2; section = 1 }) }
{
    Ok(Symbol {
        name: Name::from_bytes(alloc, Bytes::from_vec(name.to_vec(alloc)?))?,
        value: 0,
        size: 0,
        bind: 1,
        kind: 2,
        section: 1,
    })
}

fn reloc(kind: u8) -> Reloc
    ensures { result ≡ record { section = 1; offset = 0; kind = kind; symbol = 1; addend = pos 0 } }
{
    Reloc {
        section: 1,
        offset: 0,
        kind,
        symbol: 1,
        addend: 0,
    }
}

#[test]
fn lays_out_code_symbols_and_relocations(rt: HostRuntime) -> Result<(), Fail> {
    let alloc = rt.alloc();
    let symbols = [function(alloc, b"f")?];
    let relocs = [reloc(17), reloc(16)];
    let object = pack(alloc, &[0x00050513, 0x00008067], &symbols, &relocs)?;
    assert_eq!(rt; object.as_slice(), OBJECT.as_slice());
    Ok(())
}

#[test]
fn makes_three_procedures(rt: HostRuntime) -> Result<(), Fail> {
    let made = object(rt.alloc(), 3)?;
    assert_eq!(rt; made.as_slice(), THREE.as_slice());
    Ok(())
}

#[test]
fn makes_at_most_two_thousand(rt: HostRuntime) -> Result<(), Fail> {
    assert!(rt; matches!(object(rt.alloc(), 2001), Err(MakeFault::TooBig)));
    Ok(())
}
