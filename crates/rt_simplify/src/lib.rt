//! Existentials that give their places away, and twins that become one, in turn, and fields that become existentials of
//! their own: a part of what reduces schemes.
#![tactic(auto)]

pub mod laws;
mod merging;
mod preparing;
mod simplifying;
mod splitting;

pub use preparing::prepare;
pub use simplifying::simplify;
pub use splitting::split_records;
