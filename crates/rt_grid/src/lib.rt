//! Least counts of ways between numbered places, as far as they are below 255, in tables of bytes: a row for each place,
//! which steps to other places make shorter until none does.
#![tactic(auto)]

mod grid;
mod pruning;
mod rows;

pub use grid::{Grid, NONE, Step};
