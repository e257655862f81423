//! That definitions of several crates agree: laws alone.
#![tactic(auto)]

pub mod laws;
