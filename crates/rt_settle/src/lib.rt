//! From the lines of the procedures of a group to their schemes.
#![tactic(auto)]

mod group;
pub mod laws;
mod ordering;
mod scheme;

pub use group::{GroupSchemes, schemes_of};
pub use scheme::settle;
