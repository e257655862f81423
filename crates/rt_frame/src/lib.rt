//! Frames of procedures: which offsets are the starts of objects, which words keep registers of the caller, and which
//! definitions of the other bytes reach a site.
#![tactic(auto)]

mod addition;
mod asked;
mod frame;
mod offsets;
mod question;
pub mod questions;
mod saved;
mod spot;
mod stored;
mod taken;

pub use addition::Addition;
pub use frame::Frame;
pub use question::Question;
pub use spot::Spot;
