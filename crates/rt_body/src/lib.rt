//! Bodies of procedures: what each site does with registers and memory, which definitions of registers reach it, and what
//! registers hold there.
#![tactic(auto)]

mod action;
mod actions;
mod body;
mod flow;
pub mod laws;
mod numbers;
mod operations;
mod parts;
mod symbols;

pub use action::{Action, Address, Loaded, Operation, Width};
pub use body::Body;
pub use symbols::{Symbols, is_code_symbol};
