//! Relocatable ELF32 objects of RISC-V (ELF gABI, "Object Files"), read from bytes.
#![tactic(auto)]

mod fault;
mod field;
mod header;
mod name;
mod names;
mod object;
mod reader;
mod reloc;
mod relocs;
mod section;
pub mod section_index;
pub mod section_type;
mod sections;
mod symbol;
mod symbols;
mod words;

pub use fault::ElfFault;
pub use name::Name;
pub use object::Object;
pub use reader::read;
pub use reloc::{Reloc, Relocs};
pub use section::{Section, Sections};
pub use symbol::{Symbol, Symbols};
