//! A work plan: groups that call groups of lower numbers, and workers that claim, publish and abandon them. It knows nothing of what a
//! group is.
#![tactic(auto)]

mod board;
mod calls;
mod event;
pub mod laws;
mod leasts;
mod waits;

pub use board::{Board, apply};
pub use calls::Callees;
pub use event::{Answer, Event, State};

#[cfg(test)]
mod tests;
