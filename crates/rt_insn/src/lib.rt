//! The instructions of RV32IM: what a 32-bit word says, and which word says it.
//!
//! [`decode`] and [`encode`] are the two directions of one code table, which `specs/Table.antt` states as a
//! relation between words and instructions. [`laws`] has what follows from the table alone. [`registers`] names the
//! registers.
#![tactic(auto)]

mod decoder;
mod encoder;
mod fields;
mod immediates;
mod insn;
pub mod laws;
mod opcodes;
pub mod registers;

pub use decoder::decode;
pub use encoder::encode;
pub use insn::Insn;
