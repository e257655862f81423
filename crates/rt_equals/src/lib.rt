//! Which variables of lines equal an existential: each lies below the other. Arcs without counts say, where those from
//! outside agree with those from inside or with a table of ways, else an exact saturation.
#![tactic(auto)]

mod agreeing;
mod comparison;
mod counted;
mod growing;

pub use comparison::{Comparison, Equals};
