//! Lattices of type names: which of a file's names lie below which, their least upper and greatest lower bounds, and
//! the names that stand for the types of the machine's values.
#![tactic(auto)]

mod bounds;
mod closure;
mod document;
mod extremes;
mod fault;
mod file;
mod grid;
mod joins;
mod lattice;
pub mod laws;
mod meets;
mod reader;
mod role;
mod roles;
mod spelling;

pub use fault::LatFault;
pub use lattice::Lattice;
pub use reader::{read, standard};
pub use role::Role;
