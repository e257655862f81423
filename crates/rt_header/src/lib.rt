//! The C header of sketches (PLDI 2016, section 4.3): a function for each procedure, and a struct for what pointers lead to, one for
//! all that have equal trees of fields.
#![tactic(auto)]

mod declaring;
mod forest;
mod function;
pub mod laws;
mod making;
mod ports;
mod structs;

pub use declaring::{Sketches, header};
