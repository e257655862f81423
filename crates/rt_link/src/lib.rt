//! What the relocations of an object mean at their places (RISC-V psABI, "Relocations"): those of its code, and the
//! pointers in code and data.
#![tactic(auto)]

mod fault;
mod heads;
mod kind;
pub mod laws;
mod link;
mod links;
mod named;
mod pair;
mod place;
mod pointers;
pub mod relocation_type;
mod resolver;

pub use fault::LinkFault;
pub use link::Link;
pub use links::Links;
pub use place::Place;
pub use pointers::Pointer;
pub use resolver::resolve;
