//! Which lines of shape follow from the lines before them, by one walk over the lines with classes of variables that have one
//! shape.
#![tactic(auto)]

mod earlier;
mod joining;
mod rows;
mod telling;

pub use telling::told;
