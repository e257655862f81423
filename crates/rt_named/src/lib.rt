//! The variables that lines name, with those that they are made of, in order and by number, and their nodes in a shape.
#![tactic(auto)]

pub mod laws;
mod named;
pub mod nodes;
mod numbers;
mod origin;

pub use named::Named;
pub use numbers::Numbers;
pub use origin::Origin;
