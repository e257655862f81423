// Test objects of so many procedures.
ghost use Rattle.std.specs.Prelude.{◌≡◌, ◌+◌, ◌*◌, ◌<◌, ◌≤◌, ◌^◌, ◌↔◌, ◌++◌, IfOk, IsErrOf, OnOk};
ghost use Rattle.rt_make.specs.Made.{call_word, jal_word, made, made_callee, made_code, made_procedure, made_symbol, made_symbols};
ghost use Rattle.rt_make.specs.declared.made.MakeFault.TheVariants.{Memory as OutOfMemory};

use crate::packing::pack;
use rt_base::{Bytes, Memory};
use rt_elf::{Name, Symbol};
use std::alloc::{AllocError, Global};

/// Why there is no test object.
#[derive(Clone, Copy, Debug, PartialEq, Eq)]
pub enum MakeFault {
    /// It would be of more than 2,000 procedures.
    TooBig,
    /// There is no memory.
    Memory,
}

impl From<AllocError> for MakeFault {
    ghost from_gives = { λ _ fault. fault ≡ OutOfMemory };

    fn from(_: AllocError) -> MakeFault {
        MakeFault::Memory
    }
}

// The procedure that one calls, which isn't the first.
fn callee_of(procedure: u32) -> u32
    requires { 0 < procedure }
    ensures { result ≡ made_callee procedure }
{
    if procedure % 10 == 9 {
        procedure
    } else {
        (procedure - 1) / 2
    }
}

// The word of `jal ra` by an offset modulo 2^21.
fn jal_of(offset: u32) -> u32
    ensures { result ≡ jal_word offset }
{
    offset / 0x10_0000 % 2 * 0x8000_0000
        + offset / 2 % 0x400 * 0x20_0000
        + offset / 0x800 % 2 * 0x10_0000
        + offset / 0x1000 % 0x100 * 0x1000
        + 0xEF
}

// The fourth word of a procedure.
fn call_of(procedure: u32) -> u32
    requires { procedure < 2000 }
    ensures { result ≡ call_word procedure }
{
    if procedure == 0 {
        0x13
    } else {
        jal_of(0x20_0000 - (28 * (procedure - callee_of(procedure)) + 12))
    }
}

// Appends the words of a procedure.
fn push_procedure(code: &mut Vec<u32>, procedure: u32) -> Result<(), Memory>
    requires { procedure < 2000 }
    ensures { OnOk result (code.new.items ≡ code.old.items ++ made_procedure procedure) }
{
    let load = 0x00052503 + 4 * (procedure % 8) * 0x10_0000;
    let call = call_of(procedure);
    code.extend_from_slice(&[
        0xFF010113, 0x00112623, load, call, 0x00C12083, 0x01010113, 0x00008067,
    ])
}

// The code of so many procedures.
fn code_of(alloc: Global, count: u32) -> Result<Vec<u32>, Memory>
    requires { count ≤ 2000 }
    ensures { IfOk result (λ code. code.items ≡ made_code count) }
{
    let mut code = Vec::new(alloc);
    for procedure in 0..count {
        push_procedure(&mut code, procedure)?;
    }
    Ok(code)
}

// The symbol of a procedure.
fn symbol_of(alloc: Global, procedure: u32) -> Result<Symbol, Memory>
    requires { procedure < 2000 }
    ensures { IfOk result (λ symbol. symbol ≡ made_symbol procedure) }
{
    let name = format!(in alloc; "p{procedure}")?;
    Ok(Symbol {
        name: Name::from_bytes(alloc, Bytes::from_vec(name.into_bytes()))?,
        value: 28 * procedure,
        size: 28,
        bind: 1,
        kind: 2,
        section: 1,
    })
}

// The symbols of so many procedures.
fn symbols_of(alloc: Global, count: u32) -> Result<Vec<Symbol>, Memory>
    requires { count ≤ 2000 }
    ensures { IfOk result (λ symbols. symbols.items ≡ made_symbols count) }
{
    let mut symbols = Vec::new(alloc);
    for procedure in 0..count {
        symbols.push(symbol_of(alloc, procedure)?)?;
    }
    Ok(symbols)
}

/// The bytes of the test object of so many procedures. Procedure i is the global function `p` followed by i in decimal,
/// 28 bytes from byte 28i of the code on: it makes a frame of 16 bytes and saves the return address, loads the field of
/// its first argument at offset 4(i mod 8), calls a procedure by `jal`, restores both and returns. Where i mod 10 is 9 it
/// calls itself, and else the procedure of number (i - 1) / 2, rounded down; the first calls none. There are no relocations.
///
/// Errors: `TooBig` for more than 2,000 procedures, and else `Memory` where there is none.
pub fn object(alloc: Global, n: u32) -> Result<Vec<u8>, MakeFault>
    ensures too_big { IsErrOf result MakeFault.TooBig ↔ 2000 < n }
    ensures made { IfOk result (λ object. object.items ≡ made n) }
{
    if 2000 < n {
        return Err(MakeFault::TooBig);
    }
    let code = code_of(alloc, n)?;
    let symbols = symbols_of(alloc, n)?;
    Ok(pack(alloc, &code, &symbols, &[])?)
}
