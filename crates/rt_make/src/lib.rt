//! Test objects: relocatable ELF32 objects of RISC-V, laid out from code words, symbols and relocations.
#![tactic(auto)]

mod layout;
mod made;
mod numbers;
mod packing;
mod strings;

pub use made::{MakeFault, object};
pub use packing::pack;

#[cfg(test)]
mod tests;
