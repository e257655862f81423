//! Existentials that do nothing but hold fields may give them away, each to an existential of its own: what is stored in a
//! field still comes to what is loaded from it, and only the shape is left of the existential that held it.
#![tactic(auto)]

pub mod laws;
mod parting;
mod records;
mod slots;

pub use parting::split;
