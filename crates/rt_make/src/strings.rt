// String tables (ELF gABI, "String Table").
ghost use Rattle.std.specs.Prelude.{◌≡◌, ◌+◌, ◌^◌, ◌<◌, ◌++◌, IfOk, OnOk, length};
ghost use Rattle.rt_make.specs.Packed.{name_place, name_string, string_table};

use rt_base::Memory;
use rt_elf::Symbol;
use std::alloc::Global;

// Appends what a name adds to a string table.
fn push_name(out: &mut Vec<u8>, name: &[u8]) -> Result<(), Memory>
    ensures { OnOk result (out.new.items ≡ out.old.items ++ name_string name.now) }
{
    if !name.is_empty() {
        out.extend_from_slice(name)?;
        out.push(0)?;
    }
    Ok(())
}

// The string table of symbols: a zero byte, and the names.
pub(crate) fn string_table(alloc: Global, symbols: &[Symbol]) -> Result<Vec<u8>, Memory>
    ensures { IfOk result (λ table. table.items ≡ string_table symbols.now) }
{
    let mut table = Vec::new(alloc);
    table.push(0)?;
    for symbol in symbols {
        push_name(&mut table, symbol.name.items())?;
    }
    Ok(table)
}

// How many bytes a name adds to a string table.
pub(crate) fn string_length(name: &[u8]) -> usize
    requires { length (name_string name.now) < 2 ^ 32 }
    ensures { result ≡ length (name_string name.now) }
{
    if name.is_empty() { 0 } else { name.len() + 1 }
}

// Where a name stands in a string table that ends at a place so far.
pub(crate) fn name_place(at: u32, name: &[u8]) -> u32
    ensures { result ≡ name_place at name.now }
{
    if name.is_empty() { 0 } else { at }
}
