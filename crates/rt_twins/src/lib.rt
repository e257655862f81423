//! Twins: existentials that are consumed alike, or defined alike, but for classes, are one to the outside.
#![tactic(auto)]

mod arrows;
mod coarsest;
pub mod laws;
mod leading;
mod parts;
mod twins;

pub use twins::{classes, twin};
