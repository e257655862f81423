//! Two-sided refinement: existentials that have one shape and the same lines, but for classes, are one to the outside.
#![tactic(auto)]

mod coarsest;
mod grouping;
mod index;
pub mod laws;
mod listing;
mod moving;
mod ranks;
mod sharing;
mod splitting;
mod uses;

pub use coarsest::classes;
pub use grouping::{Classes, Leaders, class_of, follow};
pub use listing::{existentials, named};
pub use moving::{move_lines, refine};
pub use splitting::split;
pub use uses::Side;
