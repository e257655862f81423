//! Ways between the variables that lines name: which of them lie below which for words that keep an order and have no place
//! that can be read and written through, and which lie below each other for words with such a place.
#![tactic(auto)]

mod arcs;
mod closing;
mod frame;
mod nodes;
mod spreading;
mod turning;
mod ways;

pub use ways::Ways;
