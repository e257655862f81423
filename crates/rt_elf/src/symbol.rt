// Symbols.
ghost use Rattle.std.specs.Prelude.{◌≡◌, IfOk};
ghost use Rattle.rt_elf.specs.Symbols.{zero_symbol};

use crate::name::Name;
use rt_base::Sequence;
use std::alloc::{AllocError, Global};

/// An entry of the symbol table (ELF gABI, "Symbol Table"): its name, its value, its size, its binding, its type,
/// and the index of the section that it is of.
#[derive(Drop)]
pub struct Symbol {
    pub name: Name,
    pub value: u32,
    pub size: u32,
    pub bind: u8,
    pub kind: u8,
    pub section: u16,
}

/// Symbols, by their indices. The symbol of index 0 is all zero.
pub type Symbols = Sequence<Symbol>;

impl Symbol {
    /// The symbol of index 0: all zero, with the empty name.
    pub fn zero(alloc: Global) -> Result<Symbol, AllocError>
        ensures { IfOk result (λ symbol. symbol ≡ zero_symbol) }
    {
        Ok(Symbol {
            name: Name::empty(alloc)?,
            value: 0,
            size: 0,
            bind: 0,
            kind: 0,
            section: 0,
        })
    }
}
