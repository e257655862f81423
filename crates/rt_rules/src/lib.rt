//! The rules of derivation and their laws (PLDI 2016, sections 3 and 4). The definitions are in `specs/`: what is
//! derivable from a list of lines, when two lists say the same to the outside, when a scheme has nothing to spare.
//!
//! The types that the rules speak of, and the texts of lines, are those of the crates below.
#![tactic(auto)]

pub mod laws;

pub use rt_lines::{
    Base, Dtv, Judge, Label, Line, Lines, Loc, Names, Order, Variance, Word, variance_of,
};
pub use rt_texts::{TextFault, print_line, read_judge, read_line};
