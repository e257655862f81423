//! Lists of lines in which callees' own lists stand in place of their schemes: definitions and laws alone.
#![tactic(auto)]

pub mod laws;
