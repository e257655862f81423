//! Idle existentials say no more than their shape: where of no two lines in which an existential stands the word of the one
//! begins that of the other, nothing that comes to it goes on from it, so callers can see only that its variables are
//! there and have one shape (PLDI 2016, section 5).
#![tactic(auto)]

mod idle;
pub mod laws;
mod trimming;
mod users;

pub use trimming::trim;
