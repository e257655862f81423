//! Which lines may say that a variable is there: those that name a variable of one shape with it; and which say it alone: those
//! that name it.
#![tactic(auto)]

mod naming;
mod noting;
mod rows;
mod witnesses;

pub use witnesses::Witnesses;
